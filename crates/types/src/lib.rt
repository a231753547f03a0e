//! Names, base types and sizes of the whole language: scopes, labels, expressions, the top level, statements, blocks and procedures.
//! `resolve` makes a resolved program of a syntax tree.
#![tactic(auto)]

mod block;
mod body;
mod cells;
mod expression;
mod fault;
mod item;
mod label;
pub mod laws;
mod message;
mod operator;
mod procedure;
mod program;
mod scope;
mod short_names;
mod statement;
mod top;
mod variables;

pub use fault::{TypeFault, TypeRefusal, TypeRefusalKind};
pub use program::resolve;
