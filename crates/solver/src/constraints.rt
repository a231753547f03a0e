//! Constraints with unknowns, as they are stored.

use crate::rule::Rule;
use smallvec::SmallVec;

/// A part of a left side, or a right side: a written element of the lattice, by its number in the table of written elements, or an
/// unknown, by its number.
#[derive(Clone, Copy, Debug, PartialEq, Eq, Drop)]
pub enum Atom {
    Written(u32),
    Unknown(u32),
}

// What fills the room of a left side that is not used.
impl Default for Atom {
    fn default() -> Atom {
        Atom::Written(0)
    }
}

/// A left side. Up to three parts lie in the constraint itself: most left sides have no more.
pub type Left = SmallVec<Atom, 3>;

/// A constraint: the join of what is on the left lies below what is on the right.
#[derive(Debug, Drop)]
pub struct Constraint<T> {
    /// The byte where it stands.
    pub at: usize,
    /// The rule that asks for it.
    pub rule: Rule,
    pub left: Left,
    /// What the right side is, for messages.
    pub target: T,
    pub right: Atom,
}

/// Constraints over the elements of a lattice: the table of the written elements, how many unknowns there are, and the constraints
/// in their order.
#[derive(Debug, Drop)]
pub struct Constraints<E, T> {
    pub written: Vec<E>,
    pub unknowns: u32,
    pub constraints: Vec<Constraint<T>>,
}
