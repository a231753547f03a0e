//! The cells of slots that lie one after another.

ghost use Rattle.stack.specs.Slab.{cells_in, cell_index_in, spans_in, spans_of, total};
ghost use Rattle.std.specs.Prelude.{IfOk, IsTrue, OnErr, OnOk, Some, is_some, length, map, replicate, slice_get, take, ◌+◌, ◌++◌, ◌<◌, ◌^◌, ◌≡◌, ◌≤◌};

use common::BaseType;
use modules::{Cell, Slot};
use std::alloc::{AllocError, Global};
use std::marker::Model;

/// Where the cells of a slot stand among those of its frame.
#[derive(Clone, Copy, Debug)]
pub struct CellRange {
    pub start: usize,
    pub count: usize,
}

// The spans of the slots from the first array on: that of an array with this many cells and of this many scalars after it, which need no
// memory, or any.
#[derive(Debug, Drop)]
enum Spans {
    OfArray(usize, usize),
    Listed(Vec<CellRange>),
}

/// How many cells each of the slots has that lie one after another. Of the slots before the first array only the number is kept: each is a
/// scalar, whose cell has its own number as an index.
#[derive(Debug, Drop)]
pub struct Shape {
    scalars: usize,
    // Those from the first array on.
    spans: Spans,
}

impl Model for Shape {
    ghost use Rattle.stack.specs.Slab.{IsShape, counts_in, spans_in};
    ghost use Rattle.std.specs.Prelude.{List, ℕ};

    ghost Value = { List ℕ };

    ghost view = { λ s. counts_in s.scalars (spans_in s.scalars s.spans) };

    ghost invariant = { λ s. IsShape s.scalars (spans_in s.scalars s.spans) };
}

impl Shape {
    /// The shape of these slots. It takes no memory where one of them at most is an array. Precondition: they have fewer than 2^63 cells.
    pub fn of(alloc: Global, slots: &[Slot]) -> Result<Shape, AllocError>
        requires { total (map cells_in slots.now) < 2 ^ 63 }
        ensures { IfOk result (λ shape. shape ≡ map cells_in slots.now) }
    {
        let scalars = count_scalars(slots);
        let spans = spans_of(alloc, scalars, &slots[scalars..])?;
        Ok(Shape { scalars, spans })
    }

    /// How many cells all slots have.
    pub fn count(&self) -> usize
        ensures { result ≡ total self.now }
    {
        match &self.spans {
            Spans::OfArray(count, scalars) => self.scalars + *count + *scalars,
            Spans::Listed(spans) => match spans.last() {
                Some(span) => span.start + span.count,
                None => self.scalars,
            },
        }
    }

    /// Where an element of a slot stands, if it is there.
    pub fn cell_index(&self, slot: u32, index: usize) -> Option<usize>
        ensures { result ≡ cell_index_in self.now slot index }
    {
        let slot = slot as usize;
        if slot < self.scalars {
            return if index == 0 { Some(slot) } else { None };
        }
        let Some(span) = span_at(self.scalars, &self.spans, slot - self.scalars) else {
            return None;
        };
        if index < span.count {
            Some(span.start + index)
        } else {
            None
        }
    }

    /// Where the first cell of a slot stands. Precondition: there is such a slot, and it has a cell.
    #[inline(always)]
    pub fn first_cell(&self, slot: u32) -> usize
        requires { IsTrue (is_some (cell_index_in self.now slot 0)) }
        ensures { cell_index_in self.now slot 0 ≡ Some result }
    {
        let slot = slot as usize;
        if slot < self.scalars {
            return slot;
        }
        let Some(span) = span_at(self.scalars, &self.spans, slot - self.scalars) else {
            // There is such a slot.
            unreachable!();
        };
        span.start
    }
}

// How many slots there are before the first array.
fn count_scalars(slots: &[Slot]) -> usize
    ensures within { result ≤ length slots.now }
    ensures scalars { map cells_in (take result slots.now) ≡ replicate result 1 }
{
    let mut count = 0;
    for slot in slots {
        if let Slot::Array(_, _) = *slot {
            return count;
        }
        count += 1;
    }
    count
}

// The spans of slots after this many scalars.
fn spans_of(alloc: Global, scalars: usize, slots: &[Slot]) -> Result<Spans, AllocError>
    requires { scalars + total (map cells_in slots.now) < 2 ^ 63 }
    ensures { IfOk result (λ spans. spans_in scalars spans
        ≡ spans_of scalars (map cells_in slots.now)) }
{
    if let Some((first, others)) = slots.split_first() {
        let after = count_scalars(others);
        if after == others.len() {
            return Ok(Spans::OfArray(count_of(*first), after));
        }
    }
    let mut spans = Vec::with_capacity(alloc, slots.len())?;
    let mut start = scalars;
    for slot in slots {
        let count = count_of(*slot);
        spans.push(CellRange { start, count })?;
        start += count;
    }
    Ok(Spans::Listed(spans))
}

// The span of a number, if it is there. The first one starts at an index.
#[inline(always)]
fn span_at(start: usize, spans: &Spans, number: usize) -> Option<CellRange>
    requires { start + total (map (λ span. span.count) (spans_in start spans.now)) < 2 ^ 64 }
    ensures { result ≡ slice_get (spans_in start spans.now) number }
{
    match spans {
        Spans::OfArray(count, scalars) => {
            if number == 0 {
                return Some(CellRange {
                    start,
                    count: *count,
                });
            }
            if number > *scalars {
                return None;
            }
            Some(CellRange {
                start: start + *count + (number - 1),
                count: 1,
            })
        }
        Spans::Listed(spans) => listed_at(spans, number),
    }
}

// A span of a list by its number, if it is there.
fn listed_at(spans: &[CellRange], number: usize) -> Option<CellRange>
    ensures { result ≡ slice_get spans.now number }
{
    spans.get(number).copied()
}

/// How many cells a slot has.
pub fn count_of(slot: Slot) -> usize
    ensures cells { result ≡ cells_in slot }
    ensures few { result < 2 ^ 32 }
{
    match slot {
        Slot::Scalar(_) => 1,
        Slot::Array(_, count) => count as usize,
    }
}

/// How many cells slots have. Precondition: they are fewer than 2^63.
pub fn cells_of(slots: &[Slot]) -> usize
    requires { total (map cells_in slots.now) < 2 ^ 63 }
    ensures { result ≡ total (map cells_in slots.now) }
{
    let mut size: usize = 0;
    for slot in slots {
        size += count_of(*slot);
    }
    size
}

/// Adds a cell this many times.
pub fn repeat(cells: &mut Vec<Cell>, cell: Cell, count: usize) -> Result<(), AllocError>
    requires { count < 2 ^ 32 }
    ensures accepted { OnOk result (cells.new.items ≡ cells.old.items ++ replicate count cell) }
    ensures unchanged { OnErr result (cells.new.items ≡ cells.old.items) }
{
    cells.resize(cells.len() + count, cell)
}
