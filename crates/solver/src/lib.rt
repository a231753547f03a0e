//! Constraints over a lattice with unknowns: their least solution, or the first constraint that it does not fit with a chain that
//! rules out every solution.
#![tactic(auto)]

mod breaker;
mod broken;
mod chain;
pub mod constraints;
mod edges;
pub mod elements;
pub mod fault;
mod order;
mod queue;
pub mod rule;
mod search;
mod sharing;
pub mod solution;
pub mod solving;
mod waiting;
mod worklist;

pub use constraints::{Atom, Constraint, Constraints, Left};
pub use elements::{ElementsOf, LabelsUnder, WrittenElements};
pub use fault::{SolveFault, SolveRefusal};
pub use rule::Rule;
pub use solution::Solution;
pub use solving::{solve, solve_by_numbers};
