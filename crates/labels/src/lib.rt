//! Labels of the decentralized label model: who may read what, and what may flow where.
#![tactic(auto)]

pub mod comparing;
mod entries;
pub mod joins;
pub mod label_lattice;
pub mod label_sets;
pub mod label_tables;
pub mod laws;
mod left_side;
mod pieces;
pub mod policies;
mod policy_bits;
pub mod printed;
pub mod renumbering;
mod right_side;
pub mod rows;
pub mod rules;
mod under;
mod words;

pub use comparing::Comparisons;
pub use joins::join;
pub use label_lattice::LabelLattice;
pub use label_sets::Label;
pub use label_tables::LabelTable;
pub use policies::Policy;
pub use printed::PrintedLabel;
pub use renumbering::{Renumbering, may_read_under};
pub use rows::Row;
pub use rules::{flows, may_read};
