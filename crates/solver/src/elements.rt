//! The written elements of constraints, by their numbers.
ghost use Rattle.labels.specs.Canonical.{written_label};
ghost use Rattle.lattices.specs.Lattice.{LatticeLaws, Lattice as LatticeOf};
ghost use Rattle.labels.specs.LabelLattice.{label_lattice};
ghost use Rattle.labels.specs.Under.{FirstAbove};
ghost use Rattle.solver.specs.Broken.{is_below};
ghost use Rattle.solver.specs.Constraints.{AreAlike, values_of};
ghost use Rattle.std.specs.Prelude.{IfOk, List, length, ◌<◌, ◌≡◌};

use crate::solution::Solution;
use labels::{Comparisons, Label, LabelLattice, LabelTable, Row};
use lattices::Lattice;
use principals::Hierarchy;
use std::alloc::{AllocError, Global};

/// Elements of a lattice by their numbers, from 0 on, as the solver compares them: how they are held is their own affair.
pub trait WrittenElements {
    /// What an element is, as a contract sees it.
    type Elem;

    /// Comparisons of the elements, which may keep what they find.
    type Comparing: Drop;

    /// The order of the lattice that the elements are of.
    ghost order: { Self → LatticeOf Self.Elem };

    /// That comparisons are those of the elements.
    ghost compares: { Self → Self.Comparing → Type 0 };

    /// The elements, in the order of their numbers.
    ghost elements: { Self → List Self.Elem };

    /// How many elements there are.
    fn len(&self) -> usize
        ensures { result ≡ length (elements self.now) };

    /// Whether the element with a number lies below the one with another number. It takes no memory. Precondition: both are
    /// there.
    fn leq(&self, number: usize, to: usize) -> bool
        requires number { number < length (elements self.now) }
        requires to { to < length (elements self.now) }
        ensures { result ≡ is_below (order self.now) (elements self.now) number to };

    /// Comparisons of the elements, before the first one. It fails only where memory ran out.
    fn comparing(&self, alloc: Global) -> Result<Self::Comparing, AllocError>
        ensures { IfOk result (compares self.now) };

    /// The first number in a row whose element does not lie below the one with another number, by comparisons that may keep what they
    /// find. It fails only where memory ran out, and the comparisons can be used further then. Precondition: the row has a bit for
    /// each element, and the other element is there.
    fn first_above(
        &self,
        comparing: &mut Self::Comparing,
        row: &Row,
        to: usize,
    ) -> Result<Option<usize>, AllocError>
        requires row { length row.now ≡ length (elements self.now) }
        requires to { to < length (elements self.now) }
        requires comparing { compares self.now comparing.old }
        ensures comparing { compares self.now comparing.new }
        ensures first { IfOk result (FirstAbove (λ number.
            is_below (order self.now) (elements self.now) number to) row.now) };

    /// The laws of a lattice hold of the order. It does nothing when it runs.
    fn keep_laws(&self)
        ensures { LatticeLaws (order self.now) };
}

/// A table of elements of a lattice.
#[derive(Drop)]
pub struct ElementsOf<'a, L: Lattice> {
    pub lattice: &'a L,
    pub written: &'a [L::Elem],
}

impl<L: Lattice> WrittenElements for ElementsOf<'_, L> {
    type Elem = L::Elem;

    type Comparing = ();

    ghost order = { λ table. L.order table.lattice.now };

    ghost compares = { λ table comparing. Unit {0} };

    ghost elements = { λ table. table.written.now };

    fn len(&self) -> usize {
        self.written.len()
    }

    fn leq(&self, number: usize, to: usize) -> bool {
        self.lattice.leq(&self.written[number], &self.written[to])
    }

    fn comparing(&self, _alloc: Global) -> Result<(), AllocError> {
        Ok(())
    }

    fn first_above(
        &self,
        _comparing: &mut (),
        row: &Row,
        to: usize,
    ) -> Result<Option<usize>, AllocError> {
        let mut from = 0;
        while let Some(number) = row.first_from(from) {
            if !self.leq(number, to) {
                return Ok(Some(number));
            }
            from = number + 1;
        }
        Ok(None)
    }

    fn keep_laws(&self) {
        self.lattice.keep_laws();
    }
}

/// The labels of a table under a hierarchy of principals, ordered by flow (Myers and Liskov 2000).
#[derive(Debug, Clone, Copy, Drop)]
pub struct LabelsUnder<'a> {
    pub hierarchy: &'a Hierarchy,
    pub labels: &'a LabelTable,
}

impl<'a> WrittenElements for LabelsUnder<'a> {
    type Elem = Label;

    type Comparing = Comparisons<'a>;

    ghost order = { λ under. label_lattice under.hierarchy.now };

    ghost compares = { λ under comparing. (comparing.hierarchy ≡ under.hierarchy.now)
        × (comparing.labels ≡ under.labels.now) };

    ghost elements = { λ under. under.labels.now };

    fn len(&self) -> usize {
        self.labels.len()
    }

    fn leq(&self, number: usize, to: usize) -> bool {
        // Numbers of labels have 32 bits.
        prove!(number < self.labels.len() && to < self.labels.len());
        self.labels.flows(self.hierarchy, number as u32, to as u32)
    }

    fn comparing(&self, alloc: Global) -> Result<Comparisons<'a>, AllocError> {
        self.labels.comparisons(alloc, self.hierarchy)
    }

    fn first_above(
        &self,
        comparing: &mut Comparisons<'a>,
        row: &Row,
        to: usize,
    ) -> Result<Option<usize>, AllocError> {
        prove!(to < self.labels.len());
        comparing.first_above(row, to as u32)
    }

    fn keep_laws(&self) {
        let lattice = LabelLattice {
            hierarchy: self.hierarchy,
        };
        lattice.keep_laws();
    }
}

impl LabelsUnder<'_> {
    /// The value of an unknown: the label with the policies of all labels that reach it.
    ///
    /// # Errors
    ///
    /// Memory ran out.
    pub fn value(
        &self,
        alloc: Global,
        solution: &Solution,
        unknown: u32,
    ) -> Result<Label, AllocError>
        ensures exact { IfOk result (λ label. label ≡ written_label (values_of
            (label_lattice self.now.hierarchy.now) self.now.labels.now
            solution.now.reached unknown)) }
        ensures alike { IfOk result (AreAlike (label_lattice self.now.hierarchy.now) (values_of
            (label_lattice self.now.hierarchy.now) self.now.labels.now
            solution.now.reached unknown)) }
    {
        let numbers = solution.reaching(alloc, unknown)?;
        self.labels.join(alloc, &numbers)
    }
}
