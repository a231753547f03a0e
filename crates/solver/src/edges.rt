//! Where each part of a left side leads: the constraints in which it stands, with their right sides.
ghost use Rattle.solver.specs.EdgeCursors.{AreCounted, AreFilled, AreFilledTo, MoreCounted, capped, end_from, starts_from};
ghost use Rattle.solver.specs.EdgeRows.{AreEnds, row_at, rows_from};
ghost use Rattle.solver.specs.Links.{AreBelow, InRange, Link, edges_at, links_of};
ghost use Rattle.solver.specs.Looks.{one};
ghost use Rattle.solver.specs.declared.constraints.Atom.{Atom as AtomOf};
ghost use Rattle.solver.specs.declared.constraints.Atom.TheVariants.{Unknown, Written};
ghost use Rattle.std.specs.Prelude.{IfOk, List, [], length, nat_eq, set, slice_index_or, slice_range, ℕ, ◌+◌, ◌<◌, ◌∷◌, ◌≡◌, ◌≤◌};

use crate::constraints::{Atom, Constraint};
use std::alloc::{AllocError, Global};
use std::marker::Model;

/// That some part leads to the right side of a constraint.
#[derive(Clone, Copy, Debug, PartialEq, Eq, Drop)]
pub struct Edge {
    /// The constraint, by its index.
    pub by: usize,
    pub to: Atom,
}

/// The edges from each of some parts, row after row in one list. A contract sees the rows.
#[derive(Debug, Drop)]
pub struct EdgeRows {
    // Where each row ends in the list: the next one begins there.
    ends: Vec<usize>,
    list: Vec<Edge>,
}

impl Model for EdgeRows {
    ghost use Rattle.solver.specs.declared.edges.Edge.{Edge};
    ghost use Rattle.std.specs.Prelude.{List, length};

    ghost Value = { List (List Edge) };

    ghost use Rattle.solver.specs.EdgeRows.{AreEnds, rows_from};

    ghost view = { λ rows. rows_from 0 rows.ends.items rows.list.items };

    ghost invariant = { λ rows. AreEnds 0 rows.ends.items (length rows.list.items) };
}

impl EdgeRows {
    /// How many parts there are.
    pub fn len(&self) -> usize
        ensures { result ≡ length self.now }
    {
        self.ends.len()
    }

    /// The edges from a part.
    pub fn row(&self, part: usize) -> &[Edge]
        requires { part < length self.now }
        ensures { result.now ≡ row_at self.now part }
    {
        let start = start_of(self.ends.as_slice(), part);
        edges_between(self.list.as_slice(), start, self.ends[part])
    }
}

// Where the row of a part begins.
fn start_of(ends: &[usize], part: usize) -> usize
    requires { part < length ends.now }
    ensures { result ≡ slice_index_or (0 ∷ ends.now) part 0 }
{
    if part == 0 { 0 } else { ends[part - 1] }
}

// The edges from one index up to another.
fn edges_between(list: &[Edge], start: usize, end: usize) -> &[Edge]
    requires start { start ≤ end }
    requires end { end ≤ length list.now }
    ensures { result.now ≡ slice_range list.now start end }
{
    &list[start..end]
}

/// The edges from each written element and from each unknown.
#[derive(Debug, Drop)]
pub struct Edges {
    pub written: EdgeRows,
    pub unknown: EdgeRows,
}

/// The edges of these constraints, whose parts have numbers below these.
pub fn edges_of<T>(
    alloc: Global,
    constraints: &[Constraint<T>],
    written: usize,
    unknowns: usize,
) -> Result<Edges, AllocError>
    requires { InRange written unknowns constraints.now }
    ensures written { IfOk result (λ edges. (k : ℕ) → row_at edges.written k
        ≡ edges_at (Written k) (links_of 0 constraints.now)) }
    ensures unknown { IfOk result (λ edges. (k : ℕ) → row_at edges.unknown k
        ≡ edges_at (Unknown k) (links_of 0 constraints.now)) }
    ensures written_count { IfOk result (λ edges. length edges.written ≡ written) }
    ensures unknown_count { IfOk result (λ edges. length edges.unknown ≡ unknowns) }
{
    let counts = counts_of(alloc, constraints, written, unknowns)?;
    let mut filling = Filling {
        written: cursors_of(alloc, counts.written)?,
        unknown: cursors_of(alloc, counts.unknown)?,
    };
    for by in 0..constraints.len() {
        filling.add_left(constraints, by);
    }
    Ok(Edges {
        written: filling.written.end(),
        unknown: filling.unknown.end(),
    })
}

// How many edges there will be from each part.
#[derive(Drop)]
struct EdgeCounts {
    written: Vec<usize>,
    unknown: Vec<usize>,
}

impl EdgeCounts {
    // Counts the parts of a left side.
    fn add_left(&mut self, left: &[Atom])
        requires { AreBelow (length self.old.written.items)
            (length self.old.unknown.items) left.now }
        ensures written { MoreCounted Written left.now
            self.old.written.items self.new.written.items }
        ensures unknown { MoreCounted Unknown left.now
            self.old.unknown.items self.new.unknown.items }
        ensures written_count { length self.new.written.items
            ≡ length self.old.written.items }
        ensures unknown_count { length self.new.unknown.items
            ≡ length self.old.unknown.items }
    {
        for atom in left {
            match *atom {
                Atom::Written(n) => count_one(&mut self.written, n as usize),
                Atom::Unknown(u) => count_one(&mut self.unknown, u as usize),
            }
        }
    }
}

// Counts one more.
fn count_one(counts: &mut Vec<usize>, at: usize)
    requires { at < length counts.old.items }
    ensures more { (k n : ℕ) → slice_index_or counts.old.items k 0 ≡ capped n →
        slice_index_or counts.new.items k 0 ≡ capped (n + one (nat_eq k at)) }
    ensures count { length counts.new.items ≡ length counts.old.items }
{
    counts[at] = counts[at].saturating_add(1);
}

// The counts of the edges of constraints.
fn counts_of<T>(
    alloc: Global,
    constraints: &[Constraint<T>],
    written: usize,
    unknowns: usize,
) -> Result<EdgeCounts, AllocError>
    requires { InRange written unknowns constraints.now }
    ensures written { IfOk result (λ counts. AreCounted Written (links_of 0 constraints.now)
        counts.written.items) }
    ensures unknown { IfOk result (λ counts. AreCounted Unknown (links_of 0 constraints.now)
        counts.unknown.items) }
    ensures written_count { IfOk result (λ counts. length counts.written.items ≡ written) }
    ensures unknown_count { IfOk result (λ counts. length counts.unknown.items ≡ unknowns) }
{
    let mut counts = EdgeCounts {
        written: vec![in alloc; 0; written]?,
        unknown: vec![in alloc; 0; unknowns]?,
    };
    for constraint in constraints {
        counts.add_left(constraint.left.as_slice());
    }
    Ok(counts)
}

// The counts of edges become the indices where rows of that length begin. The answer is where the last one ends.
fn to_starts(counts: &mut Vec<usize>) -> usize
    ensures starts { counts.new.items ≡ starts_from 0 counts.old.items }
    ensures end { result ≡ end_from 0 counts.old.items }
{
    let mut start: usize = 0;
    for part in 0..counts.len() {
        let count = counts[part];
        counts[part] = start;
        start = start.saturating_add(count);
    }
    start
}

// Rows that are filled: where the next edge from each part goes, and the list with room for each edge.
#[derive(Drop)]
struct FilledRows {
    cursors: Vec<usize>,
    list: Vec<Edge>,
}

// Rows with room for as many edges as they are to have.
fn cursors_of(alloc: Global, counts: Vec<usize>) -> Result<FilledRows, AllocError>
    ensures empty { IfOk result (λ rows. (part : ℕ → AtomOf) (links : List Link) →
        AreCounted part links counts.items →
        AreFilled part [] links rows.cursors.items rows.list.items) }
    ensures count { IfOk result (λ rows. length rows.cursors.items ≡ length counts.items) }
{
    let mut cursors = counts;
    let end = to_starts(&mut cursors);
    let nothing = Edge {
        by: 0,
        to: Atom::Written(0),
    };
    Ok(FilledRows {
        cursors,
        list: vec![in alloc; nothing; end]?,
    })
}

impl FilledRows {
    // Adds an edge from a part.
    fn add(&mut self, part: usize, edge: Edge)
        requires part { part < length self.old.cursors.items }
        requires cursor { slice_index_or self.old.cursors.items part 0
            < length self.old.list.items }
        ensures cursors { self.new.cursors.items ≡ set self.old.cursors.items part
            (slice_index_or self.old.cursors.items part 0 + 1) }
        ensures list { self.new.list.items ≡ set self.old.list.items
            (slice_index_or self.old.cursors.items part 0) edge }
    {
        let cursor = self.cursors[part];
        self.cursors[part] = cursor + 1;
        self.list[cursor] = edge;
    }

    // The rows, once all are full: each ends where its next edge would go.
    fn end(self) -> EdgeRows
        requires { AreEnds 0 self.cursors.items (length self.list.items) }
        ensures { result ≡ rows_from 0 self.cursors.items self.list.items }
    {
        EdgeRows {
            ends: self.cursors,
            list: self.list,
        }
    }
}

// The rows of both kinds of parts, while they are filled.
#[derive(Drop)]
struct Filling {
    written: FilledRows,
    unknown: FilledRows,
}

impl Filling {
    // Adds the edges of one more constraint.
    fn add_left<T>(&mut self, constraints: &[Constraint<T>], by: usize)
        requires by { by < length constraints.now }
        requires range { InRange (length self.old.written.cursors.items)
            (length self.old.unknown.cursors.items) constraints.now }
        requires written { AreFilledTo Written constraints.now by
            self.old.written.cursors.items self.old.written.list.items }
        requires unknown { AreFilledTo Unknown constraints.now by
            self.old.unknown.cursors.items self.old.unknown.list.items }
        ensures written { AreFilledTo Written constraints.now (by + 1)
            self.new.written.cursors.items self.new.written.list.items }
        ensures unknown { AreFilledTo Unknown constraints.now (by + 1)
            self.new.unknown.cursors.items self.new.unknown.list.items }
        ensures written_count { length self.new.written.cursors.items
            ≡ length self.old.written.cursors.items }
        ensures unknown_count { length self.new.unknown.cursors.items
            ≡ length self.old.unknown.cursors.items }
    {
        let constraint = &constraints[by];
        let to = constraint.right;
        for atom in constraint.left.as_slice() {
            match *atom {
                Atom::Written(n) => self.written.add(n as usize, Edge { by, to }),
                Atom::Unknown(u) => self.unknown.add(u as usize, Edge { by, to }),
            }
        }
    }
}
