//! The resolved tree: a program with its names as numbers.
#![tactic(auto)]

pub mod exceptions;
pub mod expression;
pub mod fault;
pub mod laws;
pub mod lookup;
mod message;
pub mod program;
pub mod slot_name;
pub mod statement;
pub mod tables;
pub mod target;

pub use fault::{ExitRefusal, ExitRefusalKind};
