//! How far a walk along a program has come.
ghost use Rattle.constraints.specs.Ready.{MayMakeUnknowns};
ghost use Rattle.std.specs.Prelude.{◌+◌, ◌≡◌};

use crate::exit_unknowns::ExitUnknown;
use crate::journal::Journal;
use resolved::target::Target;
use solver::Constraint;

/// How far a walk along a program has come: the number of the next entry of the path map, that of the next unknown, the
/// constraints so far, the exit unknowns of exceptions, and the calls so far.
#[derive(Drop)]
pub struct Progress {
    pub index: usize,
    pub number: u32,
    pub constraints: Vec<Constraint<Option<Target>>>,
    pub thrown: Vec<ExitUnknown>,
    pub journal: Journal,
}

impl Progress {
    // Makes this many inner unknowns, and gives the number of the first.
    pub(crate) fn make(&mut self, count: usize) -> u32
        requires { MayMakeUnknowns count self.old }
        ensures first { result ≡ self.old.number }
        ensures made { self.new ≡ record self.old { number = self.old.number + count } }
    {
        let first = self.number;
        self.number = first + count as u32;
        first
    }
}
