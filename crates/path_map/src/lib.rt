//! The possible exits of each statement and block of a program, or the first fault of the exits.
#![tactic(auto)]

mod calls;
pub mod exits;
pub mod fault;
mod keeping;
pub mod map;
mod members;
pub mod raises;
mod recent;
mod set;
mod sharing;
pub mod table;
mod walk;

pub use exits::{ExceptionMap, Exits, PathMap, Raised};
pub use fault::EndFault;
pub use map::ends;
pub use raises::Raises;
pub use resolved::{ExitRefusal, ExitRefusalKind};
pub use table::{Ends, Exceptions};
