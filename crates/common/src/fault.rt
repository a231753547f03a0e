//! The shape that the faults of all crates have: out of memory, or a refusal.

ghost use Rattle.common.specs.Answers.{IsCast, fault_text};
ghost use Rattle.common.specs.declared.fault.OrNoMemory.TheVariants.{NoMemory};
ghost use Rattle.std.specs.Prelude.{◌≡◌};

use std::alloc::{AllocError, AllocFailed};
use std::error::Error;
use std::fmt;

/// Why a call gave no result.
///
/// The `...Refusal` of a crate says what is wrong with the input. Its `...Fault` is `OrNoMemory` of that refusal. So `?` works on
/// allocations in every crate, and a definition of what is refused has no case for memory.
#[derive(Clone, Copy, Debug, PartialEq, Eq, Drop)]
pub enum OrNoMemory<R> {
    /// Memory ran out, which says nothing of the input.
    NoMemory,
    /// The input is refused.
    Refused(R),
}

impl<R> OrNoMemory<R> {
    /// The same fault in a caller's type: out of memory stays that, and a refusal becomes the caller's.
    pub fn cast<S: From<R>>(self) -> OrNoMemory<S>
        ensures { IsCast S.from_gives self result }
    {
        match self {
            OrNoMemory::NoMemory => OrNoMemory::NoMemory,
            OrNoMemory::Refused(refusal) => OrNoMemory::Refused(S::from(refusal)),
        }
    }
}

impl<R> From<AllocError> for OrNoMemory<R> {
    ghost from_gives = { λ _ fault. fault ≡ NoMemory };

    fn from(_error: AllocError) -> OrNoMemory<R> {
        OrNoMemory::NoMemory
    }
}

impl<R, T: Drop> From<AllocFailed<T>> for OrNoMemory<R> {
    ghost from_gives = { λ _ fault. fault ≡ NoMemory };

    fn from(_failed: AllocFailed<T>) -> OrNoMemory<R> {
        OrNoMemory::NoMemory
    }
}

impl<R: fmt::Display> fmt::Display for OrNoMemory<R> {
    ghost output = { fault_text R.output };

    fn fmt<W: fmt::Write>(&self, f: &mut fmt::Formatter<W>) -> fmt::Result {
        match self {
            OrNoMemory::NoMemory => f.write_str("no memory"),
            OrNoMemory::Refused(refusal) => write!(f, "{refusal}"),
        }
    }
}

impl<R: Error> Error for OrNoMemory<R> {}
