//! What the words of a command line ask for.
#![tactic(auto)]

pub mod laws;
mod request;
mod words;

pub use request::{DEFAULT_STEPS, MAX_STEPS, Task, TaskFault, TaskRefusal};
pub use words::task;
