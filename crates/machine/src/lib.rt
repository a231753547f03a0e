//! The machine: runs of verified modules, step by step.
#![tactic(auto)]

mod catching;
pub mod fault;
mod frames;
mod inner;
mod input;
pub mod laws;
mod live;
pub mod run;
pub mod status;

pub use fault::{NewFault, NewRefusal};
pub use run::Machine;
pub use status::Status;
