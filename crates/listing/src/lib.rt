//! A module as text: its channels with their labels, its instructions and its handlers.
#![tactic(auto)]

mod lines;
mod lister;

pub use lister::write_listing;
