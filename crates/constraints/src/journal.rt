//! The calls of a program, and which entries the exit unknowns of exceptions had at each.
ghost use Rattle.constraints.specs.Journals.{AreOrdered, AreUpToCall, entry_at, entry_from, moments_at, noted, noted_all};
ghost use Rattle.constraints.specs.ExitUnknowns.{no_entry};
ghost use Rattle.std.specs.Prelude.{IfOk, IsTrue, OnOk, [], length, map, ℕ, ◌++◌, ◌<◌, ◌∷◌, ◌≡◌, ◌≢◌, ◌≤◌};

use crate::exit_unknowns::{ExitUnknown, entry_in};
use resolved::statement::Handler;
use resolved::tables::Thrown;
use std::alloc::{AllocError, Global};

/// What names an exception: a handler, or the declaration of what a procedure throws.
pub(crate) trait NamesException {
    ghost named_exception: { Self → ℕ };

    fn exception(&self) -> u32
        ensures { result ≡ named_exception self.now };
}

impl NamesException for Handler {
    ghost named_exception = { λ handler. handler.exception };

    fn exception(&self) -> u32 {
        self.exception
    }
}

impl NamesException for Thrown {
    ghost named_exception = { λ declared. declared.exception };

    fn exception(&self) -> u32 {
        self.exception
    }
}

/// A call: its procedure, the barrier of the exit unknowns under which it is made, the inner unknown that is its own label, and how many calls
/// came before it.
#[derive(Clone, Copy, Debug, PartialEq, Eq, Drop)]
pub struct Called {
    pub callee: u32,
    pub barrier: u32,
    pub own: u32,
    pub call: usize,
}

/// The entry that an exception has from some call on, until another one comes.
#[derive(Clone, Copy, Debug, PartialEq, Eq, Drop)]
pub struct Moment {
    pub call: usize,
    pub entry: ExitUnknown,
}

/// The calls so far, and the entries of each exception, in their order.
#[derive(Drop)]
pub struct Journal {
    pub calls: Vec<Called>,
    pub moments: Vec<Vec<Moment>>,
}

// This many empty rows.
fn empty_rows(alloc: Global, count: usize) -> Result<Vec<Vec<Moment>>, AllocError>
    ensures rows { IfOk result (λ rows. (x : ℕ) → moments_at rows.items x ≡ []) }
    ensures count { IfOk result (λ rows. length rows.items ≡ count) }
{
    let mut rows = Vec::with_capacity(alloc, count)?;
    for _i in 0..count {
        rows.push(Vec::new(alloc))?;
    }
    Ok(rows)
}

// Adds a moment to a row.
fn add_to(rows: &mut Vec<Vec<Moment>>, at: usize, moment: Moment) -> Result<(), AllocError>
    requires { at < length rows.old.items }
    ensures row { OnOk result (moments_at rows.new.items at
        ≡ moments_at rows.old.items at ++ moment ∷ []) }
    ensures others { OnOk result ((x : ℕ) → x ≢ at → moments_at rows.new.items x
        ≡ moments_at rows.old.items x) }
    ensures count { OnOk result (length rows.new.items ≡ length rows.old.items) }
{
    rows[at].push(moment)?;
    Ok(())
}

impl Journal {
    /// No calls, and no entries of this many exceptions.
    pub fn new(alloc: Global, exceptions: usize) -> Result<Journal, AllocError>
        ensures calls { IfOk result (λ journal. journal.calls.items ≡ []) }
        ensures moments { IfOk result (λ journal. (x : ℕ) → moments_at journal.moments.items x
            ≡ []) }
        ensures count { IfOk result (λ journal. length journal.moments.items ≡ exceptions) }
    {
        Ok(Journal {
            calls: Vec::new(alloc),
            moments: empty_rows(alloc, exceptions)?,
        })
    }

    /// Adds a call.
    pub fn add_call(&mut self, callee: u32, barrier: u32, own: u32) -> Result<(), AllocError>
        ensures calls { OnOk result (self.new.calls.items ≡ self.old.calls.items
            ++ (record {
              callee = callee;
              barrier = barrier;
              own = own;
              call = length self.old.calls.items;
            }) ∷ []) }
        ensures moments { OnOk result (self.new.moments ≡ self.old.moments) }
    {
        let call = self.calls.len();
        self.calls.push(Called {
            callee,
            barrier,
            own,
            call,
        })?;
        Ok(())
    }

    // Notes the entry that an exception has from the next call on.
    fn note(&mut self, exception: u32, entry: ExitUnknown) -> Result<(), AllocError>
        ensures calls { OnOk result (self.new.calls ≡ self.old.calls) }
        ensures moments { OnOk result ((x : ℕ) → moments_at self.new.moments.items x
            ≡ noted (length self.old.moments.items) exception
            (record { call = length self.old.calls.items; entry = entry }) x
            (moments_at self.old.moments.items x)) }
        ensures count { OnOk result (length self.new.moments.items
            ≡ length self.old.moments.items) }
    {
        let call = self.calls.len();
        let at = exception as usize;
        if at < self.moments.len() {
            add_to(&mut self.moments, at, Moment { call, entry })?;
        }
        Ok(())
    }

    /// Notes the entries that the exceptions of handlers or declarations have from the next call on.
    pub fn note_exceptions<T: NamesException>(
        &mut self,
        naming: &[T],
        thrown: &[ExitUnknown],
    ) -> Result<(), AllocError>
        ensures calls { OnOk result (self.new.calls ≡ self.old.calls) }
        ensures moments { OnOk result ((x : ℕ) → moments_at self.new.moments.items x
            ≡ noted_all (length self.old.moments.items) (length self.old.calls.items) thrown.now
            (map T.named_exception naming.now) x (moments_at self.old.moments.items x)) }
        ensures count { OnOk result (length self.new.moments.items
            ≡ length self.old.moments.items) }
    {
        for one in naming {
            let exception = one.exception();
            self.note(exception, entry_in(thrown, exception))?;
        }
        Ok(())
    }

    // The entries that an exception has had.
    fn moments_of(&self, exception: u32) -> &[Moment]
        ensures { result.now ≡ moments_at self.now.moments.items exception }
    {
        match self.moments.get(exception as usize) {
            None => &[],
            Some(moments) => moments,
        }
    }

    /// Whether an exception, whose moments are in order, has the same entry at all calls from one to another.
    pub fn is_fixed(&self, exception: u32, first: usize, last: usize) -> bool
        requires { AreOrdered (moments_at self.now.moments.items exception) }
        ensures { IsTrue result → (call : ℕ) → first ≤ call → call ≤ last →
            entry_at self.now exception call ≡ entry_at self.now exception first }
    {
        let moments = self.moments_of(exception);
        count(moments, first) == count(moments, last)
    }

    /// The entry of an exception, whose moments are in order, at a call.
    pub fn entry(&self, exception: u32, call: usize) -> ExitUnknown
        requires { AreOrdered (moments_at self.now.moments.items exception) }
        ensures { result ≡ entry_at self.now exception call }
    {
        last_of(self.moments_of(exception), call)
    }
}

// How many moments are up to a call.
fn count(moments: &[Moment], call: usize) -> usize
    requires { AreOrdered moments.now }
    ensures parted { AreUpToCall call moments.now result }
    ensures within { result ≤ length moments.now }
{
    moments.partition_point(|moment| moment.call <= call)
}

// The entry of the last moment up to a call.
fn last_of(moments: &[Moment], call: usize) -> ExitUnknown
    requires { AreOrdered moments.now }
    ensures { result ≡ entry_from moments.now call no_entry }
{
    let Some(last) = count(moments, call).checked_sub(1) else {
        return ExitUnknown {
            number: 0,
            level: 0,
        };
    };
    moments[last].entry
}
