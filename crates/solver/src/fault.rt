//! What `solve` answers where it finds no solution.

use common::OrNoMemory;
use thiserror::Error;

/// Why constraints have no solution: a flow that they ask for and rule out.
#[derive(Debug, Drop, Error)]
#[error("no values fit the constraints")]
pub struct SolveRefusal {
    /// The written element where the flow starts, by its number in the table of written elements.
    pub from: usize,
    /// The constraints along which it goes, by their indices. The last one is the first that the least solution does not fit; its
    /// right side is written, and the element does not lie below it.
    pub chain: Vec<usize>,
}

/// Why constraints were not solved.
pub type SolveFault = OrNoMemory<SolveRefusal>;
