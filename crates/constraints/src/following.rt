//! Which labels of calls flow on to those of later calls: a call that is made after another one has at least its label.
ghost use Rattle.constraints.specs.Following.{AreFollowed, AreOnward, IsOver, IsCallPath};
ghost use Rattle.constraints.specs.Merging.{IsFollowed};
ghost use Rattle.solver.specs.declared.constraints.Atom.TheVariants.{Unknown};
ghost use Rattle.constraints.specs.Added.{Stored};
ghost use Rattle.std.specs.Prelude.{Contains, IfOk, IsTrue, List, length, set, slice_index_or, ℕ, ◌≡◌, ◌≤◌};

use crate::journal::Called;
use resolved::target::Target;
use solver::{Atom, Constraint};
use std::alloc::{AllocError, Global};

// This many steps are made at most from the label of one call to that of another one.
const STEPS: usize = 12;

// This many of these are put together at most where it is asked whether one label flows to another one.
const ROUNDS: usize = 64;

/// For each unknown that is the label of a call that of another call to which it flows, and one that may be farther on; itself where
/// none is known.
#[derive(Drop)]
pub struct CallPath {
    pub next: Vec<u32>,
    pub far: Vec<u32>,
}

/// Two ways on from each label of a call: where control parts, one goes by the last branch and one by the first.
#[derive(Drop)]
pub struct Following {
    pub last: CallPath,
    pub first: CallPath,
}

/// For each unknown one to which it flows: that with the greatest number, and that with the least one above its own; itself where there
/// is none.
#[derive(Drop)]
pub struct Onward {
    pub greatest: Vec<u32>,
    pub least: Vec<u32>,
}

// Each of this many unknowns itself.
fn themselves(alloc: Global, count: u32) -> Result<Vec<u32>, AllocError>
    ensures { IfOk result (λ rows. (real : ℕ) (base : List Stored) →
        AreFollowed real base rows.items) }
{
    let mut rows = Vec::with_capacity(alloc, count as usize)?;
    for unknown in 0..count {
        rows.push(unknown)?;
    }
    Ok(rows)
}

// What stands in a row for an unknown: itself where the row has no entry for it.
fn after(rows: &[u32], unknown: u32) -> u32
    ensures { result ≡ slice_index_or rows.now unknown unknown }
{
    match rows.get(unknown as usize) {
        None => unknown,
        Some(next) => *next,
    }
}

// Puts an unknown into a row for another one, if the row has an entry for that.
fn put(rows: &mut Vec<u32>, unknown: u32, next: u32)
    ensures { rows.new.items ≡ set rows.old.items unknown next }
{
    let at = unknown as usize;
    if at < rows.len() {
        rows[at] = next;
    }
}

impl Onward {
    // Nothing is known of this many unknowns.
    fn new(alloc: Global, count: u32) -> Result<Onward, AllocError>
        ensures { IfOk result (λ onward. (real : ℕ) (base : List Stored) →
            AreOnward real base onward) }
    {
        let greatest = themselves(alloc, count)?;
        let least = themselves(alloc, count)?;
        Ok(Onward { greatest, least })
    }

    // Notes that an unknown flows to another one.
    fn note(&mut self, from: u32, to: u32)
        ensures { (real : ℕ) (base : List Stored) →
            IsFollowed real base (Unknown from) (Unknown to) →
            AreOnward real base self.old → AreOnward real base self.new }
    {
        let greatest = after(&self.greatest, from);
        if greatest == from || greatest < to {
            put(&mut self.greatest, from, to);
        }
        let least = after(&self.least, from);
        if from < to && (least == from || to < least) {
            put(&mut self.least, from, to);
        }
    }

    // Notes that a part flows to an unknown.
    fn note_part(&mut self, part: Atom, to: u32)
        ensures { (real : ℕ) (base : List Stored) → IsFollowed real base part (Unknown to) →
            AreOnward real base self.old → AreOnward real base self.new }
    {
        if let Atom::Unknown(from) = part {
            self.note(from, to);
        }
    }

    // Notes what flows by a constraint to an unknown that has no number below this.
    fn note_all(&mut self, real: u32, constraint: &Constraint<Option<Target>>)
        ensures { (base : List Stored) → Contains base constraint.now →
            AreOnward real base self.old → AreOnward real base self.new }
    {
        let Atom::Unknown(to) = constraint.right else {
            return;
        };
        if to < real {
            return;
        }
        for part in constraint.left.as_slice() {
            self.note_part(*part, to);
        }
    }

    // What flows by constraints to unknowns that have no number below this, of this many.
    fn of(
        alloc: Global,
        real: u32,
        count: u32,
        constraints: &[Constraint<Option<Target>>],
    ) -> Result<Onward, AllocError>
        ensures { IfOk result (AreOnward real constraints.now) }
    {
        let mut onward = Onward::new(alloc, count)?;
        for constraint in constraints {
            onward.note_all(real, constraint);
        }
        Ok(onward)
    }
}

// One step on, by the first of two rows, or else by the second.
fn step(rows: &[u32], others: &[u32], unknown: u32) -> u32
    ensures { (real : ℕ) (base : List Stored) → AreFollowed real base rows.now →
        AreFollowed real base others.now →
        IsFollowed real base (Unknown unknown) (Unknown result) }
{
    let next = after(rows, unknown);
    if next == unknown {
        return after(others, unknown);
    }
    next
}

// The label of a later call that a few steps from that of one call come to, or the same where they come to none.
fn later_label(rows: &[u32], others: &[u32], labels: &[bool], from: u32) -> u32
    ensures { (real : ℕ) (base : List Stored) → AreFollowed real base rows.now →
        AreFollowed real base others.now →
        IsFollowed real base (Unknown from) (Unknown result) }
{
    let mut at = from;
    for _step in 0..STEPS {
        at = step(rows, others, at);
        if at > from && is_marked(labels, at) {
            return at;
        }
    }
    from
}

// Whether a number is marked.
fn is_marked(marks: &[bool], number: u32) -> bool {
    let at = number as usize;
    at < marks.len() && marks[at]
}

// The numbers of the labels of calls, of this many.
fn labels_of(alloc: Global, count: u32, calls: &[Called]) -> Result<Vec<bool>, AllocError> {
    let mut labels = vec![in alloc; false; count as usize]?;
    for called in calls {
        let at = called.own as usize;
        if at < labels.len() {
            labels[at] = true;
        }
    }
    Ok(labels)
}

// How many labels follow a label on a way, where one is noted.
fn depth_of(depths: &[u32], unknown: u32) -> u32 {
    match depths.get(unknown as usize) {
        None => 0,
        Some(depth) => *depth,
    }
}

impl CallPath {
    // The labels of calls, of this many unknowns.
    fn new(alloc: Global, count: u32) -> Result<CallPath, AllocError>
        ensures { IfOk result (λ way. (real : ℕ) (base : List Stored) → IsCallPath real base way) }
    {
        let next = themselves(alloc, count)?;
        let far = themselves(alloc, count)?;
        Ok(CallPath { next, far })
    }

    // One farther on than a label that comes next, so that few rounds go a long way: as far as the next one's and the one after that, if
    // these go as far; or else that label.
    fn far_from(&self, depths: &[u32], next: u32) -> u32
        ensures { (real : ℕ) (base : List Stored) → IsCallPath real base self.now →
            IsFollowed real base (Unknown next) (Unknown result) }
    {
        let far = after(&self.far, next);
        let farther = after(&self.far, far);
        let (near, middle) = (depth_of(depths, next), depth_of(depths, far));
        let last = depth_of(depths, farther);
        if near.saturating_sub(middle) == middle.saturating_sub(last) {
            return farther;
        }
        next
    }

    // Notes the label that comes next on the way from another one.
    fn add(&mut self, depths: &mut Vec<u32>, from: u32, next: u32)
        ensures { (real : ℕ) (base : List Stored) →
            IsFollowed real base (Unknown from) (Unknown next) →
            IsCallPath real base self.old → IsCallPath real base self.new }
    {
        if from == next {
            return;
        }
        let far = self.far_from(depths, next);
        let depth = depth_of(depths, next);
        put(depths, from, depth.saturating_add(1));
        put(&mut self.next, from, next);
        put(&mut self.far, from, far);
    }

    // The way by the first of two rows, or else by the second, of this many unknowns.
    fn of(
        alloc: Global,
        count: u32,
        rows: &[u32],
        others: &[u32],
        calls: &[Called],
    ) -> Result<CallPath, AllocError>
        ensures { IfOk result (λ way. (real : ℕ) (base : List Stored) →
            AreFollowed real base rows.now → AreFollowed real base others.now →
            IsCallPath real base way) }
    {
        let labels = labels_of(alloc, count, calls)?;
        let mut depths = vec![in alloc; 0u32; count as usize]?;
        let mut way = CallPath::new(alloc, count)?;
        for k in 0..calls.len() {
            let from = calls[calls.len() - 1 - k].own;
            let next = later_label(rows, others, &labels, from);
            way.add(&mut depths, from, next);
        }
        Ok(way)
    }

    // The label that is next on the way, or one farther on that is not after another one.
    fn step_toward(&self, at: u32, to: u32) -> u32
        ensures { (real : ℕ) (base : List Stored) → IsCallPath real base self.now →
            IsFollowed real base (Unknown at) (Unknown result) }
    {
        let far = after(&self.far, at);
        if far <= to {
            return far;
        }
        after(&self.next, at)
    }

    // Whether the way from an unknown is found to lead to another one.
    fn leads(&self, from: u32, to: u32) -> bool
        ensures { IsTrue result → (real : ℕ) (base : List Stored) → IsCallPath real base self.now →
            IsFollowed real base (Unknown from) (Unknown to) }
    {
        let mut at = from;
        for _round in 0..ROUNDS {
            if at >= to {
                return at == to;
            }
            let next = self.step_toward(at, to);
            if next == at {
                return false;
            }
            at = next;
        }
        at == to
    }
}

impl Following {
    // Nothing flows on.
    fn none(alloc: Global) -> Result<Following, AllocError>
        ensures { IfOk result (λ following. (real : ℕ) (base : List Stored) →
            IsCallPath real base following.last × IsCallPath real base following.first) }
    {
        let last = CallPath::new(alloc, 0)?;
        let first = CallPath::new(alloc, 0)?;
        Ok(Following { last, first })
    }

    /// Where the labels of calls flow on by constraints between inner unknowns, which are those from a number on, of this many unknowns.
    pub(crate) fn of(
        alloc: Global,
        real: u32,
        count: u32,
        constraints: &[Constraint<Option<Target>>],
        calls: &[Called],
    ) -> Result<Following, AllocError>
        ensures { IfOk result (λ following. IsCallPath real constraints.now following.last
            × IsCallPath real constraints.now following.first) }
    {
        if count == 0 {
            return Following::none(alloc);
        }
        let Onward { greatest, least } = Onward::of(alloc, real, count, constraints)?;
        let last = CallPath::of(alloc, count, &greatest, &least, calls)?;
        let first = CallPath::of(alloc, count, &least, &greatest, calls)?;
        Ok(Following { last, first })
    }

    /// Whether a part is found to be another one, or to flow on to it.
    pub(crate) fn leads(&self, from: Atom, to: Atom) -> bool
        ensures { IsTrue result → IsOver self.now from to }
    {
        match (from, to) {
            (Atom::Unknown(from), Atom::Unknown(to)) => {
                self.last.leads(from, to) || self.first.leads(from, to)
            }
            (Atom::Written(from), Atom::Written(to)) => from == to,
            _ => false,
        }
    }
}
