//! Checking a source: from its text under a hierarchy, or from the bytes of two texts, to an accepted program with the least labels
//! of its locals, or the first fault at its line and column.
#![tactic(auto)]

mod analysing;
pub mod checked;
pub mod fault;
mod flow;
pub mod phases;
pub mod texts;

pub use checked::Checked;
pub use fault::{Fault, Refusal, RefusedFlow, Step};
pub use phases::check;
pub use texts::{check_texts, read_hierarchy};
