//! A lattice by its operations, as a solver of constraints takes it.
ghost use Rattle.lattices.specs.Lattice.{IsJoin, LatticeLaws, Lattice as LatticeOf};
ghost use Rattle.std.specs.Prelude.{IfOk, ◌≡◌};

use std::alloc::{AllocError, Global};

/// A lattice (Myers and Liskov 1997; Volpano, Smith and Irvine 1996): an order in which any two elements have a least upper bound,
/// the join, and some element lies below all. Two elements that lie below each other need not be the same one.
pub trait Lattice {
    /// The elements that are stored.
    type Elem: Drop;

    ghost order: { Self → LatticeOf Self.Elem };

    /// Whether the first lies below the second. It takes no memory.
    fn leq(&self, left: &Self::Elem, right: &Self::Elem) -> bool
        ensures { result ≡ (order self.now).leq left.now right.now };

    /// The join: above both, and below all that are above both. It fails only where memory ran out.
    fn join(
        &self,
        alloc: Global,
        left: &Self::Elem,
        right: &Self::Elem,
    ) -> Result<Self::Elem, AllocError>
        ensures { IfOk result (IsJoin (order self.now) left.now right.now) };

    /// The element that lies below all. It takes no memory.
    fn least(&self, alloc: Global) -> Self::Elem
        ensures { result ≡ (order self.now).least };

    /// The laws: the order is reflexive and transitive, the join is a least upper bound, and the least element lies below all.
    /// It does nothing when it runs.
    fn keep_laws(&self)
        ensures { LatticeLaws (order self.now) };
}
