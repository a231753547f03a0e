//! What one written element reaches: a search along the edges, that looks at the edges from an unknown once, when it is found.
ghost use Rattle.solver.specs.Reach.{AllMarked, Grows, IsTrace, AllLeadInside, LeadInside, row_of};
ghost use Rattle.solver.specs.declared.constraints.Atom.TheVariants.{Written};
ghost use Rattle.std.specs.Prelude.{IfOk, OnOk, if◌then◌else◌, length, set, slice_index_or, true, false, ◌++◌, ◌<◌, ◌∷◌, ◌≡◌, []};

use crate::constraints::Atom;
use crate::edges::{Edge, Edges};
use std::alloc::{AllocError, Global};

/// An unknown that a written element reaches, by a constraint, from the element itself or from an unknown found earlier.
#[derive(Clone, Copy, Debug, PartialEq, Eq, Drop)]
pub struct Found {
    pub unknown: u32,
    /// The constraint, by its index.
    pub by: usize,
    /// 0 for the written element itself, or one more than the index of what was found earlier.
    pub parent: usize,
}

// A search: for each unknown whether it was found, and what was found, in order.
#[derive(Drop)]
struct Search {
    marks: Vec<bool>,
    found: Vec<Found>,
}

impl Search {
    // Finds an unknown, unless it was found before.
    fn find(&mut self, found: Found) -> Result<(), AllocError>
        requires { found.unknown < length self.old.marks.items }
        ensures marks { OnOk result (self.new.marks.items ≡ set
            self.old.marks.items found.unknown true) }
        ensures found { OnOk result (self.new.found.items ≡ (if slice_index_or
            self.old.marks.items found.unknown false then self.old.found.items else
            (self.old.found.items ++ found ∷ []))) }
    {
        if self.marks[found.unknown as usize] {
            return Ok(());
        }
        self.marks[found.unknown as usize] = true;
        self.found.push(found)?;
        Ok(())
    }

    // Finds the unknown to which an edge leads, if it leads to one.
    fn follow_one(&mut self, edge: Edge, parent: usize) -> Result<(), AllocError>
        requires { LeadInside (length self.old.marks.items) (edge ∷ []) }
        ensures grows { OnOk result (Grows (edge ∷ []) parent
            self.old.marks.items self.old.found.items self.new.marks.items self.new.found.items) }
        ensures marked { OnOk result (AllMarked (edge ∷ []) self.new.marks.items) }
    {
        if let Atom::Unknown(unknown) = edge.to {
            self.find(Found {
                unknown,
                by: edge.by,
                parent,
            })?;
            return Ok(());
        }
        Ok(())
    }

    // Finds the unknowns to which these edges lead.
    fn follow(&mut self, edges: &[Edge], parent: usize) -> Result<(), AllocError>
        requires { LeadInside (length self.old.marks.items) edges.now }
        ensures grows { OnOk result (Grows edges.now parent
            self.old.marks.items self.old.found.items self.new.marks.items self.new.found.items) }
        ensures marked { OnOk result (AllMarked edges.now self.new.marks.items) }
    {
        for edge in edges {
            self.follow_one(*edge, parent)?;
        }
        Ok(())
    }
}

/// What the written element of this number reaches, each unknown once, with the path to it.
pub fn trace(alloc: Global, edges: &Edges, value: usize) -> Result<Vec<Found>, AllocError>
    requires value { value < length edges.now.written }
    requires inside { AllLeadInside edges.now }
    ensures { IfOk result (λ found. IsTrace edges.now value found.items) }
{
    let count = edges.unknown.len();
    let mut search = Search {
        marks: vec![in alloc; false; count]?,
        found: Vec::new(alloc),
    };
    search.follow(edges.written.row(value), 0)?;
    let mut next = 0;
    while next < search.found.len() {
        let unknown = search.found[next].unknown as usize;
        next += 1;
        search.follow(edges.unknown.row(unknown), next)?;
    }
    Ok(search.found)
}
