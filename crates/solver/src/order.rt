//! An order along the flow, in which constraints are looked at first. What is found does not depend on it, only how often constraints
//! are looked at again: where no flow comes back to where it was, each is looked at once. Where few written elements stand on left sides,
//! none is looked for, since a row then grows at most as many times, in whatever order.
ghost use Rattle.std.specs.List.{sum};
ghost use Rattle.std.specs.Prelude.{OnOk, Option, length, ◌*◌, ◌+◌, ◌<◌, ◌≡◌, ◌≤◌};
ghost use Rattle.solver.specs.Walks.{IsTaken};

use crate::constraints::Atom;
use crate::edges::{Edge, EdgeRows, Edges};
use std::alloc::{AllocError, Global};

// An order is looked for only where more written elements than this stand on left sides.
const FEW: usize = 8;

// A walk along edges, each once: how many edges from each unknown are left, which unknowns were entered, those on the way, and those
// that are done, each after all that it leads to.
#[derive(Drop)]
struct EdgeWalk {
    left: Vec<usize>,
    marks: Vec<bool>,
    way: Vec<usize>,
    done: Vec<usize>,
}

impl EdgeWalk {
    // Enters an unknown, unless it was entered before.
    fn enter(&mut self, unknown: usize) -> Result<(), AllocError>
        ensures left { OnOk result (self.new.left ≡ self.old.left) }
        ensures way { OnOk result (length self.new.way.items ≤ length self.old.way.items + 1) }
    {
        if unknown < self.marks.len() && !self.marks[unknown] {
            self.marks[unknown] = true;
            self.way.push(unknown)?;
        }
        Ok(())
    }

    // Takes an edge from an unknown, by its index, if one is left.
    fn take(&mut self, unknown: usize) -> Option<usize>
        ensures taken { IsTaken self.old.left.items self.new.left.items result }
        ensures way { self.new.way ≡ self.old.way }
    {
        if unknown >= self.left.len() || self.left[unknown] == 0 {
            return None;
        }
        self.left[unknown] -= 1;
        Some(self.left[unknown])
    }

    // Follows one more edge from the unknown that is on the way last. It is done when no edge is left.
    fn step(&mut self, edges: &EdgeRows, unknown: usize) -> Result<(), AllocError>
        requires { 0 < length self.old.way.items }
        ensures { OnOk result (2 * sum self.new.left.items + length self.new.way.items
            < 2 * sum self.old.left.items + length self.old.way.items) }
    {
        let Some(next) = self.take(unknown) else {
            self.way.pop();
            self.done.push(unknown)?;
            return Ok(());
        };
        match target(edges, unknown, next) {
            Some(to) => self.enter(to),
            None => Ok(()),
        }
    }

    // Walks on to the end of the way.
    fn go_on(&mut self, edges: &EdgeRows) -> Result<(), AllocError> {
        while let Some(unknown) = self.way.last().copied() {
            self.step(edges, unknown)?;
        }
        Ok(())
    }
}

// The unknown to which an edge leads, by the unknown where it starts and its index.
fn target(edges: &EdgeRows, unknown: usize, index: usize) -> Option<usize> {
    if unknown >= edges.len() {
        return None;
    }
    let edge = edges.row(unknown).get(index)?;
    match edge.to {
        Atom::Unknown(to) => Some(to as usize),
        Atom::Written(_) => None,
    }
}

// The unknowns, each after all to which it leads, but where that leads back.
fn walked(alloc: Global, edges: &EdgeRows) -> Result<Vec<usize>, AllocError> {
    let mut walk = EdgeWalk {
        left: lengths(alloc, edges)?,
        marks: vec![in alloc; false; edges.len()]?,
        way: Vec::with_capacity(alloc, edges.len())?,
        done: Vec::with_capacity(alloc, edges.len())?,
    };
    for unknown in 0..edges.len() {
        walk.enter(unknown)?;
        walk.go_on(edges)?;
    }
    Ok(walk.done)
}

// How many edges each unknown has.
fn lengths(alloc: Global, edges: &EdgeRows) -> Result<Vec<usize>, AllocError> {
    let mut lengths = Vec::with_capacity(alloc, edges.len())?;
    for unknown in 0..edges.len() {
        lengths.push(edges.row(unknown).len())?;
    }
    Ok(lengths)
}

// Constraints that were placed, and in which order.
#[derive(Drop)]
struct Placed {
    marks: Vec<bool>,
    order: Vec<usize>,
}

impl Placed {
    // Places a constraint, unless it was placed before.
    fn place(&mut self, by: usize) -> Result<(), AllocError> {
        if by < self.marks.len() && !self.marks[by] {
            self.marks[by] = true;
            self.order.push(by)?;
        }
        Ok(())
    }

    // Places the constraints of these edges.
    fn place_all(&mut self, edges: &[Edge]) -> Result<(), AllocError> {
        for edge in edges {
            self.place(edge.by)?;
        }
        Ok(())
    }
}

// Whether few written elements stand on left sides.
fn are_few(written: &EdgeRows) -> bool {
    let mut found = 0;
    for number in 0..written.len() {
        if !written.row(number).is_empty() {
            if found >= FEW {
                return false;
            }
            found += 1;
        }
    }
    true
}

/// This many constraints, by their indices, along the flow: a constraint without unknowns on the left comes first, and any other one
/// after those whose right side is an unknown on its left, but where the flow comes back. None where the order matters little.
pub fn order_of(alloc: Global, edges: &Edges, count: usize) -> Result<Vec<usize>, AllocError> {
    if are_few(&edges.written) {
        return Ok(Vec::new(alloc));
    }
    let done = walked(alloc, &edges.unknown)?;
    let mut placed = Placed {
        marks: vec![in alloc; false; count]?,
        order: Vec::with_capacity(alloc, count)?,
    };
    for unknown in &done {
        if *unknown < edges.unknown.len() {
            placed.place_all(edges.unknown.row(*unknown))?;
        }
    }
    for by in 0..count {
        placed.place(by)?;
    }
    placed.order.reverse();
    Ok(placed.order)
}
