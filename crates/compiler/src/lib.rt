//! From two texts to the bytes of a module.
#![tactic(auto)]

mod compilation;
pub mod laws;

pub use checker::{Fault, Refusal};
pub use compilation::{compile, compile_checked};
