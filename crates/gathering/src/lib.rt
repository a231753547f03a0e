//! The gathering of a program's label demands as constraints in linear size.
#![tactic(auto)]

mod laws;
pub mod unknowns;
