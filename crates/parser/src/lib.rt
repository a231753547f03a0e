//! From the tokens of a text to its syntax tree.
#![tactic(auto)]

mod cursor;
mod expression;
pub mod fault;
mod item;
mod label;
mod listed;
mod message;
pub mod program;
mod statement;

pub use fault::{ParseFault, ParseRefusal, ParseRefusalKind};
pub use program::{one_reading, parse, spelling_laws};
