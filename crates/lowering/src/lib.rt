//! From resolved programs to graphs of instructions, which do the same.
#![tactic(auto)]

mod actions;
mod conditions;
mod emission;
mod emitter;
mod endings;
mod instructions;
mod interface;
mod lengths;
mod operands;
mod procedures;
pub mod program;
mod threading;
mod versions;

pub use program::lower;
