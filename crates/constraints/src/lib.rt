//! The constraints of a program: what its label demands ask for, in a size in proportion to the program.
#![tactic(auto)]

mod adding;
mod around;
mod branches;
mod building;
mod calls;
mod exit_unknowns;
mod expressions;
mod following;
mod forms;
mod journal;
mod laying;
mod lefts;
mod merging;
mod pieces;
mod procedures;
mod program;
mod progress;
mod rows;
mod spreading;
mod statements;
mod stores;
mod table;
mod walking;

pub use program::{LabelConstraints, gather};
