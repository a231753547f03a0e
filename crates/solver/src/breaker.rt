//! A written element that breaks a constraint with a written right side: it reaches the left side, and does not lie below the right
//! side.
ghost use Rattle.solver.specs.Breaker.{EdgeBreaks, IsAboveRow, IsBreakerOf, IsFirstBreaker, IsFirstOf, PartBreaks, RowBreaks};
ghost use Rattle.solver.specs.Broken.{AllRightsInside, RightsInside, is_below};
ghost use Rattle.solver.specs.Links.{AreBelow, InRange, IsBelow};
ghost use Rattle.labels.specs.Row.{has};
ghost use Rattle.solver.specs.Reach.{AreEdges, edge};
ghost use Rattle.solver.specs.Rows.{AreSized, atom_has, has_at, left_has};
ghost use Rattle.solver.specs.declared.constraints.Atom.TheVariants.{Unknown, Written};
ghost use Rattle.std.specs.Prelude.{Contains, IfOk, IfSome, IsTrue, OnOk, Some, [], false, length, ℕ, ◌<◌, ◌==◌, ◌||◌, ◌∷◌, ◌≡◌};

use crate::constraints::{Atom, Constraint};
use crate::edges::{Edge, Edges};
use crate::elements::WrittenElements;
use crate::sharing::SharedRows;
use labels::Row;
use std::alloc::{AllocError, Global};

/// A written element that breaks the first constraint that is broken, if one is. A constraint is broken exactly where one part of its
/// left side breaks it. So each part is compared with all its right sides one after another: what is kept of a left side serves for all
/// of them, in whatever order the constraints stand.
pub fn first_breaker<W: WrittenElements, T>(
    alloc: Global,
    written: &W,
    constraints: &[Constraint<T>],
    edges: &Edges,
    rows: &SharedRows,
) -> Result<Option<usize>, AllocError>
    requires range { InRange (length (W.elements written.now)) (length rows.now)
        constraints.now }
    requires edges { AreEdges constraints.now edges.now }
    requires written { length edges.now.written ≡ length (W.elements written.now) }
    requires sized { AreSized (length (W.elements written.now)) rows.now }
    ensures { IfOk result (IsFirstBreaker
        (is_below (W.order written.now) (W.elements written.now))
        (length (W.elements written.now)) rows.now constraints.now) }
{
    let mut comparing = written.comparing(alloc)?;
    let first = constraints.len();
    let first = first_by_unknown(alloc, written, &mut comparing, edges, rows, first)?;
    let first = first_by_written(alloc, written, &mut comparing, edges, first)?;
    if first >= constraints.len() {
        return Ok(None);
    }
    breaker_of(alloc, written, &mut comparing, &constraints[first], rows)
}

// The first constraint before one that the row of an unknown breaks, or else that one.
fn first_by_unknown<W: WrittenElements>(
    alloc: Global,
    written: &W,
    comparing: &mut W::Comparing,
    edges: &Edges,
    rows: &SharedRows,
    before: usize,
) -> Result<usize, AllocError>
    requires comparing { W.compares written.now comparing.old }
    requires inside { AllRightsInside (length (W.elements written.now)) edges.now }
    requires sized { AreSized (length (W.elements written.now)) rows.now }
    ensures comparing { W.compares written.now comparing.new }
    ensures first { IfOk result (IsFirstOf (PartBreaks edges.now
        (is_below (W.order written.now) (W.elements written.now)) Unknown (has_at rows.now)
        (length edges.now.unknown)) before) }
{
    let mut first = before;
    for unknown in 0..edges.unknown.len() {
        let own = edges.unknown.row(unknown);
        if !is_written_before(own, first) {
            continue;
        }
        let row = row_of_unknown(alloc, rows, unknown, written.len())?;
        first = first_by_row(written, comparing, &row, own, first)?;
    }
    Ok(first)
}

// The row of an unknown, of numbers below a count.
fn row_of_unknown(
    alloc: Global,
    rows: &SharedRows,
    unknown: usize,
    count: usize,
) -> Result<Row, AllocError>
    requires { AreSized count rows.now }
    ensures count { IfOk result (λ row. length row ≡ count) }
    ensures members { IfOk result (λ row. (n : ℕ) → has row n ≡ has_at rows.now unknown n) }
{
    let mut row = Row::new(alloc, count)?;
    rows.include_in(alloc, unknown, &mut row)?;
    Ok(row)
}

// The row of one number below a count.
fn row_of_one(alloc: Global, number: usize, count: usize) -> Result<Row, AllocError>
    requires { number < count }
    ensures count { IfOk result (λ row. length row ≡ count) }
    ensures members { IfOk result (λ row. (n : ℕ) → has row n ≡ (n == number)) }
{
    let mut row = Row::new(alloc, count)?;
    row.set(number);
    Ok(row)
}

// The first constraint before one that a written element of its left side breaks, or else that one.
fn first_by_written<W: WrittenElements>(
    alloc: Global,
    written: &W,
    comparing: &mut W::Comparing,
    edges: &Edges,
    before: usize,
) -> Result<usize, AllocError>
    requires comparing { W.compares written.now comparing.old }
    requires inside { AllRightsInside (length (W.elements written.now)) edges.now }
    requires written { length edges.now.written ≡ length (W.elements written.now) }
    ensures comparing { W.compares written.now comparing.new }
    ensures first { IfOk result (IsFirstOf (PartBreaks edges.now
        (is_below (W.order written.now) (W.elements written.now)) Written (λ k n. n == k)
        (length edges.now.written)) before) }
{
    let mut first = before;
    for number in 0..edges.written.len() {
        let own = edges.written.row(number);
        if !is_written_before(own, first) {
            continue;
        }
        let row = row_of_one(alloc, number, written.len())?;
        first = first_by_row(written, comparing, &row, own, first)?;
    }
    Ok(first)
}

// Whether one of these edges leads to a written element by a constraint before one.
fn is_written_before(edges: &[Edge], before: usize) -> bool
    ensures { result ≡ false → (by to : ℕ) → by < before
        → Contains edges.now (edge by (Written to)) → ⊥ }
{
    for edge in edges {
        if let Atom::Written(_) = edge.to {
            if edge.by < before {
                return true;
            }
        }
    }
    false
}

// What comparisons of a row found: the first constraint that it breaks, and the last right side above all of its numbers.
#[derive(Clone, Copy, Debug, Drop)]
struct ComparedRow {
    first: usize,
    above: Option<u32>,
}

// Whether a written element is that right side.
fn is_above(compared: ComparedRow, to: u32) -> bool
    ensures { IsTrue result → compared.above ≡ Some to }
{
    match compared.above {
        None => false,
        Some(above) => above == to,
    }
}

// The first constraint before one that a number of a row breaks along these edges, or else that one.
fn first_by_row<W: WrittenElements>(
    written: &W,
    comparing: &mut W::Comparing,
    row: &Row,
    edges: &[Edge],
    before: usize,
) -> Result<usize, AllocError>
    requires comparing { W.compares written.now comparing.old }
    requires row { length row.now ≡ length (W.elements written.now) }
    requires inside { RightsInside (length (W.elements written.now)) edges.now }
    ensures comparing { W.compares written.now comparing.new }
    ensures first { IfOk result (IsFirstOf (RowBreaks
        (is_below (W.order written.now) (W.elements written.now)) row.now edges.now) before) }
{
    let mut compared = ComparedRow {
        first: before,
        above: None,
    };
    for edge in edges {
        compared = first_by_edge(written, comparing, row, *edge, compared)?;
    }
    Ok(compared.first)
}

// The constraint of an edge, if it stands before the first one and a number of a row breaks it. A right side that was just found above
// all numbers is not looked at again.
fn first_by_edge<W: WrittenElements>(
    written: &W,
    comparing: &mut W::Comparing,
    row: &Row,
    edge: Edge,
    compared: ComparedRow,
) -> Result<ComparedRow, AllocError>
    requires comparing { W.compares written.now comparing.old }
    requires row { length row.now ≡ length (W.elements written.now) }
    requires inside { RightsInside (length (W.elements written.now)) (edge ∷ []) }
    requires above { IfSome compared.above (IsAboveRow
        (is_below (W.order written.now) (W.elements written.now)) row.now) }
    ensures comparing { W.compares written.now comparing.new }
    ensures above { IfOk result (λ found. IfSome found.above (IsAboveRow
        (is_below (W.order written.now) (W.elements written.now)) row.now)) }
    ensures first { IfOk result (λ found. IsFirstOf (EdgeBreaks
        (is_below (W.order written.now) (W.elements written.now)) row.now edge)
        compared.first found.first) }
{
    let Atom::Written(to) = edge.to else {
        return Ok(compared);
    };
    if edge.by >= compared.first || is_above(compared, to) {
        return Ok(compared);
    }
    match written.first_above(comparing, row, to as usize)? {
        None => Ok(ComparedRow {
            first: compared.first,
            above: Some(to),
        }),
        Some(_) => Ok(ComparedRow {
            first: edge.by,
            above: compared.above,
        }),
    }
}

// A written element that breaks this constraint, if one does.
fn breaker_of<W: WrittenElements, T>(
    alloc: Global,
    written: &W,
    comparing: &mut W::Comparing,
    constraint: &Constraint<T>,
    rows: &SharedRows,
) -> Result<Option<usize>, AllocError>
    requires comparing { W.compares written.now comparing.old }
    requires left { AreBelow (length (W.elements written.now)) (length rows.now)
        constraint.now.left.items }
    requires right { IsBelow (length (W.elements written.now)) (length rows.now)
        constraint.now.right }
    requires sized { AreSized (length (W.elements written.now)) rows.now }
    ensures comparing { W.compares written.now comparing.new }
    ensures breaker { IfOk result (IsBreakerOf
        (is_below (W.order written.now) (W.elements written.now))
        (length (W.elements written.now)) rows.now constraint.now.left.items
        constraint.now.right) }
{
    let Atom::Written(to) = constraint.right else {
        return Ok(None);
    };
    let left = left_row(alloc, constraint.left.as_slice(), rows, written.len())?;
    written.first_above(comparing, &left, to as usize)
}

/// The written elements that are a part of a left side or reach one.
pub fn left_row(
    alloc: Global,
    left: &[Atom],
    rows: &SharedRows,
    count: usize,
) -> Result<Row, AllocError>
    requires range { AreBelow count (length rows.now) left.now }
    requires sized { AreSized count rows.now }
    ensures count { IfOk result (λ row. length row ≡ count) }
    ensures members { IfOk result (λ row. (n : ℕ) → has row n
        ≡ left_has rows.now left.now n) }
{
    let mut row = Row::new(alloc, count)?;
    for atom in left {
        add_atom(alloc, &mut row, *atom, rows)?;
    }
    Ok(row)
}

// Adds the written elements of one atom.
fn add_atom(alloc: Global, row: &mut Row, atom: Atom, rows: &SharedRows) -> Result<(), AllocError>
    requires range { IsBelow (length row.old) (length rows.now) atom }
    requires sized { AreSized (length row.old) rows.now }
    ensures count { OnOk result (length row.new ≡ length row.old) }
    ensures members { OnOk result ((n : ℕ) → has row.new n
        ≡ (has row.old n || atom_has rows.now n atom)) }
{
    match atom {
        Atom::Written(n) => {
            row.set(n as usize);
            Ok(())
        }
        Atom::Unknown(u) => {
            rows.include_in(alloc, u as usize, row)?;
            Ok(())
        }
    }
}
