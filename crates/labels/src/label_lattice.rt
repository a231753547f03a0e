//! Labels under a hierarchy as a lattice.
ghost use Rattle.labels.specs.LabelLattice.{label_lattice};

use crate::joins::join;
use crate::label_sets::Label;
use crate::rules::flows;
use lattices::Lattice;
use principals::Hierarchy;
use std::alloc::{AllocError, Global};

/// The labels under a hierarchy of principals, ordered by flow (Myers and Liskov 2000).
#[derive(Debug, Clone, Copy, Drop)]
pub struct LabelLattice<'a> {
    pub hierarchy: &'a Hierarchy,
}

impl Lattice for LabelLattice<'_> {
    type Elem = Label;

    ghost order = { λ lattice. label_lattice lattice.hierarchy.now };

    fn leq(&self, left: &Label, right: &Label) -> bool {
        flows(self.hierarchy, left, right)
    }

    fn join(&self, alloc: Global, left: &Label, right: &Label) -> Result<Label, AllocError> {
        join(alloc, left, right)
    }

    fn least(&self, alloc: Global) -> Label {
        Label::least(alloc)
    }

    fn keep_laws(&self) {}
}
