//! The handlers of procedures: a few are tried in their order, and many are found by a binary search.
#![tactic(auto)]

mod entries;
mod table;
mod tables;

pub use entries::{TableEntry, ThrowSite};
pub use table::HandlerTable;
pub use tables::HandlerTables;
