//! The context of what is walked and gathered.
ghost use Rattle.constraints.specs.ExitUnknowns.{exit_unknowns_around, exit_unknowns_of};
ghost use Rattle.gathering.specs.Names.{NamedAtom};
ghost use Rattle.gathering.specs.Walk.{raised_flows};
ghost use Rattle.std.specs.Prelude.{IsTrue, List, None, [], ℕ, ◌≡◌};

use crate::exit_unknowns::{ExitUnknown, ExitUnknowns};
use common::exceptions::{ARITH, BOUNDS};
use resolved::statement::Exit;
use solver::Atom;

/// The context of a block or a statement: the pc at which it is reached, and the exit unknowns of its exits, for whose exceptions the progress of a
/// walk has the entries.
#[derive(Clone, Copy, Debug)]
pub struct Context<'a> {
    pub pc: Atom,
    pub exit_unknowns: &'a ExitUnknowns,
}

impl<'a> Context<'a> {
    /// What stands around a statement of this context, where exceptions have these entries.
    #[inline(always)]
    pub fn around(self, thrown: &'a [ExitUnknown]) -> Around<'a>
        ensures pc { result.pc ≡ self.entry.pc }
        ensures exit_unknowns { exit_unknowns_around result
            ≡ exit_unknowns_of self.entry.exit_unknowns.now thrown.now }
    {
        Around {
            pc: self.pc,
            exit_unknowns: self.exit_unknowns,
            thrown,
        }
    }
}

/// What stands around a statement: the pc at which it is reached, and where the label of each of its exits flows.
#[derive(Clone, Copy, Debug)]
pub struct Around<'a> {
    pub pc: Atom,
    pub exit_unknowns: &'a ExitUnknowns,
    pub thrown: &'a [ExitUnknown],
}

impl<'a> Around<'a> {
    /// The exit unknown of an exit.
    pub fn exit_unknown(&self, exit: Exit) -> Option<u32>
        ensures { result ≡ exit_unknowns_around self.now exit }
    {
        self.exit_unknowns.at(self.thrown, exit)
    }

    // Whether no exception that expressions can raise has an exit unknown: most statements have one exit only, and then none has.
    pub(crate) fn raises_nowhere(&self) -> bool
        ensures { IsTrue result → (left : List NamedAtom) (exceptions : List ℕ) →
            raised_flows left (exit_unknowns_around self.now) exceptions ≡ [] }
    {
        if self.exit_unknown(Exit::Throw(ARITH)).is_some() {
            return false;
        }
        self.exit_unknown(Exit::Throw(BOUNDS)).is_none()
    }

    // Whether that holds, and the exit has none either.
    pub(crate) fn ends_nowhere(&self, exit: Exit) -> bool
        ensures exit { IsTrue result → exit_unknowns_around self.now exit ≡ None }
        ensures raised { IsTrue result → (left : List NamedAtom) (exceptions : List ℕ) →
            raised_flows left (exit_unknowns_around self.now) exceptions ≡ [] }
    {
        if self.exit_unknown(exit).is_some() {
            return false;
        }
        self.raises_nowhere()
    }
}
