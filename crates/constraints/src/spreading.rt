//! The flows of the exceptions that calls raise: all calls at which an exception has one exit unknown reach it by one inner unknown.
ghost use Rattle.constraints.specs.BySpreading.{AreLabelsBy, AreSpreadToBy, AreSpreadBy};
ghost use Rattle.constraints.specs.ByTable.{program_in, labels_in, IsPartBy, IsLeftBy, AreAddedBy};
ghost use Rattle.constraints.specs.Following.{IsOver};
ghost use Rattle.constraints.specs.Journals.{AreInOrder, HasOneExitUnknown};
ghost use Rattle.constraints.specs.Merging.{AreSomeTaken, AreSpreadShared, rows_of};
ghost use Rattle.constraints.specs.Ready.{most_unknowns};
ghost use Rattle.constraints.specs.Spreading.{AreCallsOf, AreRowsOf, fixed_flows, made_list};
ghost use Rattle.constraints.specs.declared.journal.Called.{Called};
ghost use Rattle.constraints.specs.declared.rows.ThrownLabel.{ThrownLabel};
ghost use Rattle.gathering.specs.Names.{NamedAtom};
ghost use Rattle.gathering.specs.Walk.{flow, inner_atom, inner_constraint};
ghost use Rattle.std.specs.List.{All};
ghost use Rattle.std.specs.Prelude.{Contains, IfOk, IsTrue, List, OnOk, [], if◌then◌else◌, length, map, ℕ, ◌+◌, ◌++◌, ◌<◌, ◌∷◌, ◌≡◌, ◌≤◌, ◌⊎◌};

use crate::exit_unknowns::exit_unknown_in;
use crate::following::Following;
use crate::journal::{Called, Journal};
use crate::laying::lay_out;
use crate::merging::{Parts, no_parts, take_all};
use crate::rows::ThrownLabel;
use crate::table::Table;
use resolved::target::Target;
use solver::{Atom, Constraint, Left};
use std::alloc::{AllocError, Global};

// So few calls are kept one by one where the label of each flows on to that of the last.
const FEW_CALLS: usize = 8;

/// The table of labels, the entries of exceptions at each call, and which labels of calls flow on to others.
#[derive(Drop)]
pub(crate) struct Spreading<'a> {
    pub alloc: Global,
    pub table: &'a Table<'a>,
    pub journal: &'a Journal,
    pub following: &'a Following,
}

/// What is made: constraints, and the number of the next unknown.
#[derive(Drop)]
pub struct Made {
    pub number: u32,
    pub constraints: Vec<Constraint<Option<Target>>>,
}

/// Exceptions with the labels that their procedure declares: those with one entry at all of some calls, and the others.
#[derive(Drop)]
struct Parted {
    fixed: Vec<ThrownLabel>,
    varied: Vec<ThrownLabel>,
}

// The numbers between which those of some calls are.
fn range_of(calls: &[Called]) -> (usize, usize)
    ensures first { All (λ (called : Called). result.0 ≤ called.call) calls.now }
    ensures last { All (λ (called : Called). called.call ≤ result.1) calls.now }
{
    let mut first = usize::MAX;
    let mut last = 0;
    for called in calls {
        first = first.min(called.call);
        last = last.max(called.call);
    }
    (first, last)
}

// Whether all of some calls are made under this barrier.
fn are_under(barrier: u32, calls: &[Called]) -> bool
    ensures { IsTrue result → All (λ (called : Called). called.barrier ≡ barrier) calls.now }
{
    for called in calls {
        if called.barrier != barrier {
            return false;
        }
    }
    true
}

// Adds an exception to the first list, or else to the second.
fn put(
    one: bool,
    thrown: ThrownLabel,
    fixed: &mut Vec<ThrownLabel>,
    varied: &mut Vec<ThrownLabel>,
) -> Result<(), AllocError>
    ensures fixed { OnOk result (fixed.new.items
        ≡ (if one then fixed.old.items ++ thrown ∷ [] else fixed.old.items)) }
    ensures varied { OnOk result (varied.new.items
        ≡ (if one then varied.old.items else varied.old.items ++ thrown ∷ [])) }
{
    if one {
        fixed.push(thrown)?;
    } else {
        varied.push(thrown)?;
    }
    Ok(())
}

impl<'a> Spreading<'a> {
    // Whether an exception has one exit unknown at all of some calls, whose numbers are between these, if they are made under one barrier.
    fn has_one_exit_unknown(&self, under: bool, first: usize, last: usize, exception: u32) -> bool
        requires { AreInOrder self.now.journal.now }
        ensures { IsTrue result → (calls : List Called) (barrier : ℕ) →
            (IsTrue under → All (λ (called : Called). called.barrier ≡ barrier) calls) →
            All (λ (called : Called). first ≤ called.call) calls →
            All (λ (called : Called). called.call ≤ last) calls →
            HasOneExitUnknown self.now.journal.now calls exception }
    {
        under && self.journal.is_fixed(exception, first, last)
    }

    // Whether some calls are few, and the label of each is found to flow on to that of the last: what one of them raises is then left out
    // where the last one raises it, if it is not said of all of them together.
    fn lead_on(&self, calls: &[Called]) -> bool {
        if calls.len() > FEW_CALLS {
            return false;
        }
        let Some(last) = calls.last() else {
            return false;
        };
        let to = Atom::Unknown(last.own);
        calls.iter().all(|called| self.following.leads(Atom::Unknown(called.own), to))
    }

    // Whether what some calls raise may be said of all of them together: they are made under this barrier, and are not kept one by one.
    fn are_together(&self, barrier: u32, calls: &[Called]) -> bool
        ensures { IsTrue result → All (λ (called : Called). called.barrier ≡ barrier) calls.now }
    {
        are_under(barrier, calls) && !self.lead_on(calls)
    }

    // Parts exceptions by whether they have one exit unknown at all of these calls, by their barrier and their entries.
    fn parted(
        &self,
        barrier: u32,
        calls: &[Called],
        labels: &[ThrownLabel],
    ) -> Result<Parted, AllocError>
        requires { AreInOrder self.now.journal.now }
        ensures fixed { IfOk result (λ parted. (x : ThrownLabel) → Contains parted.fixed.items x →
            HasOneExitUnknown self.now.journal.now calls.now x.exception) }
        ensures all { IfOk result (λ parted. (x : ThrownLabel) → Contains labels.now x →
            Contains parted.fixed.items x ⊎ Contains parted.varied.items x) }
        ensures fixed_of { IfOk result (λ parted. (x : ThrownLabel) →
            Contains parted.fixed.items x → Contains labels.now x) }
        ensures varied_of { IfOk result (λ parted. (x : ThrownLabel) →
            Contains parted.varied.items x → Contains labels.now x) }
    {
        let (first, last) = range_of(calls);
        let under = self.are_together(barrier, calls);
        let mut fixed = Vec::new(self.alloc);
        let mut varied = Vec::new(self.alloc);
        for thrown in labels {
            let one = self.has_one_exit_unknown(under, first, last, thrown.exception);
            put(one, *thrown, &mut fixed, &mut varied)?;
        }
        Ok(Parted { fixed, varied })
    }

    // Adds the flows of exceptions that have at all calls that a part stands for the exit unknown that they have at this one.
    fn add_fixed(
        &self,
        called: Called,
        node: Atom,
        fixed: &[ThrownLabel],
        made: &mut Made,
    ) -> Result<(), AllocError>
        requires { AreInOrder self.now.journal.now }
        ensures number { OnOk result (made.new.number ≡ made.old.number) }
        ensures added { OnOk result ((callee number : ℕ) →
            IsPartBy self.now.table.now (inner_atom number) node →
            AreLabelsBy self.now.table.now callee fixed.now →
            AreAddedBy self.now.table.now (fixed_flows (program_in self.now.table.now)
            self.now.journal.now called callee number fixed.now)
            made.old.constraints.items made.new.constraints.items) }
    {
        for thrown in fixed {
            let entry = self.journal.entry(thrown.exception, called.call);
            self.add_one(
                exit_unknown_in(called.barrier, entry),
                node,
                thrown.label,
                made,
            )?;
        }
        Ok(())
    }

    // Adds the flow of an exception to its exit unknown, where it has one.
    fn add_one(
        &self,
        exit_unknown: Option<u32>,
        node: Atom,
        label: Atom,
        made: &mut Made,
    ) -> Result<(), AllocError>
        ensures number { OnOk result (made.new.number ≡ made.old.number) }
        ensures added { OnOk result ((named of_label : NamedAtom) →
            IsPartBy self.now.table.now named node → IsPartBy self.now.table.now of_label label →
            AreAddedBy self.now.table.now (flow (named ∷ of_label ∷ []) exit_unknown)
            made.old.constraints.items made.new.constraints.items) }
    {
        let left = vec![in self.alloc; node, label]?;
        self.table
            .add_flow(self.alloc, &left, exit_unknown, &mut made.constraints)
    }

    // The parts of the labels of calls.
    fn owns(&self, calls: &[Called]) -> Result<Vec<Atom>, AllocError>
        ensures { IfOk result (λ atoms. IsLeftBy self.now.table.now
            (map (λ (called : Called). inner_atom called.own) calls.now) atoms.items) }
    {
        let mut atoms = Vec::with_capacity(self.alloc, calls.len())?;
        for called in calls {
            atoms.push(Atom::Unknown(called.own))?;
        }
        Ok(atoms)
    }

    // A new inner unknown, to which these parts flow.
    fn joined(&self, parts: Vec<Atom>, made: &mut Made) -> Result<Atom, AllocError>
        requires { made.old.number < most_unknowns }
        ensures number { OnOk result (made.new.number ≡ made.old.number + 1) }
        ensures added { OnOk result ((atoms : List NamedAtom) →
            IsLeftBy self.now.table.now atoms parts.items →
            AreAddedBy self.now.table.now (inner_constraint atoms made.old.number)
            made.old.constraints.items made.new.constraints.items) }
        ensures part { IfOk result (λ atom. IsPartBy self.now.table.now (inner_atom made.old.number)
            atom) }
    {
        let number = made.number;
        made.number = number + 1;
        self.table
            .add_inner(Left::from_vec(parts), number, &mut made.constraints)?;
        Ok(Atom::Unknown(number))
    }

    // Keeps a new inner unknown, to which these parts flow.
    fn keep_joined(
        &self,
        parts: Vec<Atom>,
        kept: &mut Vec<Parts>,
        made: &mut Made,
    ) -> Result<Atom, AllocError>
        requires { made.old.number < most_unknowns }
        ensures number { OnOk result (made.new.number ≡ made.old.number + 1) }
        ensures count { OnOk result (length kept.new.items ≡ length kept.old.items) }
        ensures taken { OnOk result (AreSomeTaken (IsOver self.now.following.now)
            (λ own. (atoms : List NamedAtom) → IsLeftBy self.now.table.now atoms parts.items →
            AreAddedBy self.now.table.now (inner_constraint atoms made.old.number) [] own)
            (rows_of kept.old.items) (rows_of kept.new.items)
            made.old.constraints.items made.new.constraints.items) }
        ensures part { IfOk result (λ atom. IsPartBy self.now.table.now (inner_atom made.old.number)
            atom) }
    {
        let mut own = Made {
            number: made.number,
            constraints: Vec::new(self.alloc),
        };
        let node = self.joined(parts, &mut own)?;
        made.number = own.number;
        take_all(own.constraints, self.following, kept, &mut made.constraints)?;
        Ok(node)
    }

    // Keeps the flows of exceptions that have at all calls that a part stands for the exit unknown that they have at this one. They are
    // made a list of their own, so that no list holds those of all calls.
    fn keep_fixed(
        &self,
        called: Called,
        node: Atom,
        fixed: &[ThrownLabel],
        kept: &mut Vec<Parts>,
        made: &mut Made,
    ) -> Result<(), AllocError>
        requires { AreInOrder self.now.journal.now }
        ensures number { OnOk result (made.new.number ≡ made.old.number) }
        ensures count { OnOk result (length kept.new.items ≡ length kept.old.items) }
        ensures taken { OnOk result (AreSomeTaken (IsOver self.now.following.now)
            (λ own. (callee number : ℕ) → IsPartBy self.now.table.now (inner_atom number) node →
            AreLabelsBy self.now.table.now callee fixed.now →
            AreAddedBy self.now.table.now (fixed_flows (program_in self.now.table.now)
            self.now.journal.now called callee number fixed.now) [] own) (rows_of kept.old.items)
            (rows_of kept.new.items) made.old.constraints.items made.new.constraints.items) }
    {
        let mut own = Made {
            number: made.number,
            constraints: Vec::new(self.alloc),
        };
        self.add_fixed(called, node, fixed, &mut own)?;
        take_all(own.constraints, self.following, kept, &mut made.constraints)
    }

    // Keeps the flows of exceptions from one call, whose own label is the part that stands for it.
    fn single(
        &self,
        called: Called,
        labels: &[ThrownLabel],
        kept: &mut Vec<Parts>,
        made: &mut Made,
    ) -> Result<Atom, AllocError>
        requires { AreInOrder self.now.journal.now }
        ensures number { OnOk result (made.new.number ≡ made.old.number) }
        ensures count { OnOk result (length kept.new.items ≡ length kept.old.items) }
        ensures spread { IfOk result (λ atom. AreSomeTaken (IsOver self.now.following.now)
            (λ own. AreSpreadToBy self.now labels.now (called ∷ []) (made_list made.old.number [])
            (made_list made.new.number own) atom) (rows_of kept.old.items) (rows_of kept.new.items)
            made.old.constraints.items made.new.constraints.items) }
    {
        let node = Atom::Unknown(called.own);
        self.keep_fixed(called, node, labels, kept, made)?;
        Ok(node)
    }
}

// Keeps the flows of exceptions from some calls, and gives a part that stands for all of the calls. Exceptions that do not have one
// exit unknown at all of the calls are spread in halves, which end at single calls, 64 levels down at most.
#[cycle(spread)]
fn spread(
    of: &Spreading,
    calls: &[Called],
    labels: &[ThrownLabel],
    kept: &mut Vec<Parts>,
    made: &mut Made,
) -> Result<Atom, AllocError>
    requires ordered { AreInOrder of.now.journal.now }
    requires some { 0 < length calls.now }
    requires room { made.old.number + length calls.now ≤ most_unknowns }
    ensures fewer { OnOk result (made.new.number < made.old.number + length calls.now) }
    ensures count { OnOk result (length kept.new.items ≡ length kept.old.items) }
    ensures spread { IfOk result (λ atom. AreSomeTaken (IsOver of.now.following.now)
        (λ own. AreSpreadToBy of.now labels.now calls.now (made_list made.old.number [])
        (made_list made.new.number own) atom) (rows_of kept.old.items) (rows_of kept.new.items)
        made.old.constraints.items made.new.constraints.items) }
{
    let one = calls[0];
    if calls.len() == 1 {
        return of.single(one, labels, kept, made);
    }
    let parted = of.parted(one.barrier, calls, labels)?;
    let varied: &[ThrownLabel] = &parted.varied;
    let fixed: &[ThrownLabel] = &parted.fixed;
    if varied.is_empty() {
        let owns = of.owns(calls)?;
        let node = of.keep_joined(owns, kept, made)?;
        of.keep_fixed(one, node, fixed, kept, made)?;
        return Ok(node);
    }
    let (first, second) = calls.split_at(calls.len() / 2);
    let left = spread(of, first, varied, kept, made)?;
    let right = spread(of, second, varied, kept, made)?;
    let both = vec![in of.alloc; left, right]?;
    let node = of.keep_joined(both, kept, made)?;
    of.keep_fixed(one, node, fixed, kept, made)?;
    Ok(node)
}

// This many rows without calls.
fn no_rows(alloc: Global, count: usize) -> Result<Vec<Vec<Called>>, AllocError>
    ensures { IfOk result (λ rows. AreRowsOf count [] rows.items) }
{
    let mut rows = Vec::with_capacity(alloc, count)?;
    for _i in 0..count {
        rows.push(Vec::new(alloc))?;
    }
    Ok(rows)
}

// Adds a call to the row of its procedure, if there is one.
fn add_called(called: Called, rows: &mut Vec<Vec<Called>>) -> Result<(), AllocError>
    ensures { OnOk result ((count : ℕ) (calls : List Called) →
        AreRowsOf count calls rows.old.items →
        AreRowsOf count (calls ++ called ∷ []) rows.new.items) }
{
    let at = called.callee as usize;
    if at < rows.len() {
        rows[at].push(called)?;
    }
    Ok(())
}

// The calls of each procedure.
fn rows_of_calls(
    alloc: Global,
    procedures: usize,
    calls: &[Called],
) -> Result<Vec<Vec<Called>>, AllocError>
    ensures { IfOk result (λ rows. AreRowsOf procedures calls.now rows.items) }
{
    let mut rows = no_rows(alloc, procedures)?;
    for called in calls {
        add_called(*called, &mut rows)?;
    }
    Ok(rows)
}

// Keeps the flows of the exceptions that the calls of one procedure raise.
fn spread_row(
    of: &Spreading,
    callee: u32,
    calls: &[Called],
    kept: &mut Vec<Parts>,
    made: &mut Made,
) -> Result<(), AllocError>
    requires ordered { AreInOrder of.now.journal.now }
    requires room { made.old.number + length calls.now ≤ most_unknowns }
    ensures few { OnOk result (made.new.number ≤ made.old.number + length calls.now) }
    ensures count { OnOk result (length kept.new.items ≡ length kept.old.items) }
    ensures spread { OnOk result (AreSomeTaken (IsOver of.now.following.now)
        (λ own. AreCallsOf callee calls.now →
        AreSpreadBy of.now calls.now (made_list made.old.number []) (made_list made.new.number own))
        (rows_of kept.old.items) (rows_of kept.new.items)
        made.old.constraints.items made.new.constraints.items) }
{
    let throws = &of.table.row(callee).throws;
    if calls.is_empty() || throws.is_empty() {
        return Ok(());
    }
    spread(of, calls, throws, kept, made)?;
    Ok(())
}

// For how many unknowns parts are kept: for those below the number, and for none where no call raises an exception, so that nothing will be spread.
fn kept_count(table: &Table, calls: &[Called], number: u32) -> u32
    ensures { result ≤ number }
{
    for called in calls {
        if !table.row(called.callee).throws.is_empty() {
            return number;
        }
    }
    0
}

/// Adds the flows of the exceptions that calls raise: to each exit unknown by one constraint.
pub(crate) fn spread_calls<'a>(
    alloc: Global,
    table: &'a Table<'a>,
    journal: &'a Journal,
    made: &mut Made,
) -> Result<(), AllocError>
    requires ordered { AreInOrder journal.now }
    requires room { made.old.number + length journal.now.calls.items ≤ most_unknowns }
    ensures { OnOk result (AreSpreadShared table.now.core.now (labels_in table.now) journal.now
        journal.now.calls.items made.old made.new) }
{
    let rows = rows_of_calls(alloc, table.core.procedures.len(), &journal.calls)?;
    let count = kept_count(table, &journal.calls, made.number);
    let mut kept = no_parts(alloc, count as usize)?;
    let real = table.unknowns;
    let following = Following::of(alloc, real, count, &made.constraints, &journal.calls)?;
    let spreading = Spreading {
        alloc,
        table,
        journal,
        following: &following,
    };
    for (i, row) in rows.iter().enumerate() {
        spread_row(&spreading, i as u32, row, &mut kept, made)?;
    }
    lay_out(alloc, &kept, made)?;
    Ok(())
}
