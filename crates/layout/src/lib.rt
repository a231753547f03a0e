//! Graphs, which are programs whose targets are positions, and the modules that they are laid
//! out as.
#![tactic(auto)]

mod code;
pub mod graph;
pub mod laws;
mod layout;

pub use graph::Graph;
pub use layout::{copy_names, emit};
