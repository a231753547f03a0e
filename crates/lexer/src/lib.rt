//! Tokens of a text by longest match, names, and places in a text.
//!
//! [`lex`] cuts a text into tokens or reports its first refusal; [`is_name`] tests a whole text for
//! one name; [`place`] gives the line and the column of a byte.
#![tactic(auto)]

pub mod fault;
pub mod lexing;
mod message;
pub mod names;
mod pieces;
pub mod position;
pub mod token;

pub use fault::{LexFault, LexRefusal, LexRefusalKind};
pub use lexing::{lex, one_reading};
pub use names::is_name;
pub use position::place;
pub use token::{Kind, Place, Token};
