ghost use Rattle.flowc.specs.Lines.{line_of_fault};
ghost use Rattle.flowc.specs.Task.{fault_of_view, status_of_fault};
ghost use Rattle.flowc.specs.declared.fault.PerformFault.TheVariants.{CannotWrite, NoMemory};
ghost use Rattle.std.specs.Prelude.{◌≡◌};

use channels::{SinkFault, ViewFault};
use common::OrNoMemory;
use std::alloc::{AllocError, AllocFailed};

/// Why a task failed.
#[derive(Drop)]
pub enum PerformFault {
    /// A refusal of what was read, by the line that reports it.
    Refused(String),
    /// Standard output did not take what was written.
    CannotWrite,
    NoMemory,
}

impl PerformFault {
    /// The exit status of the fault, and the line that reports it.
    pub fn report(&self) -> (u8, &str)
        ensures status { result.0 ≡ status_of_fault self.now }
        ensures line { result.1.now ≡ line_of_fault self.now }
    {
        match self {
            PerformFault::Refused(line) => (1, line.as_str()),
            PerformFault::CannotWrite => (3, "flowc: cannot write\n"),
            PerformFault::NoMemory => (3, "flowc: no memory\n"),
        }
    }
}

impl From<AllocError> for PerformFault {
    ghost from_gives = { λ _ fault. fault ≡ NoMemory };

    fn from(_error: AllocError) -> PerformFault {
        PerformFault::NoMemory
    }
}

impl<T: Drop> From<AllocFailed<T>> for PerformFault {
    ghost from_gives = { λ _ fault. fault ≡ NoMemory };

    fn from(_error: AllocFailed<T>) -> PerformFault {
        PerformFault::NoMemory
    }
}

impl From<SinkFault> for PerformFault {
    ghost from_gives = { λ _ fault. fault ≡ CannotWrite };

    fn from(_fault: SinkFault) -> PerformFault {
        PerformFault::CannotWrite
    }
}

impl From<ViewFault> for PerformFault {
    ghost from_gives = { λ given fault. fault ≡ fault_of_view given };

    fn from(fault: ViewFault) -> PerformFault {
        match fault {
            OrNoMemory::NoMemory => PerformFault::NoMemory,
            OrNoMemory::Refused(SinkFault) => PerformFault::CannotWrite,
        }
    }
}
