//! Lattices, and constraints with unknowns over any of them.
#![tactic(auto)]

pub mod constraint_laws;
pub mod lattice;

pub use lattice::Lattice;
