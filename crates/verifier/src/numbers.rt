//! Numbers at indexes, where an index may have none.

ghost use Rattle.std.specs.Prelude.{IfOk, None, OnOk, Some, length, replicate, slice_index_or, set, ◌+◌, ◌<◌, ◌^◌, ◌≡◌};
ghost use Rattle.verifier.specs.Numbers as numbers;

use std::alloc::{AllocError, Global};
use std::marker::Model;

/// At each of this many indexes a number, or none. An index takes four bytes.
#[derive(Debug, Drop)]
pub(crate) struct Numbers {
    // The number at each index and 1, or 0 where it has none.
    marks: Vec<u32>,
}

impl Model for Numbers {
    ghost use Rattle.std.specs.Prelude.{List, Option, map, ℕ};
    ghost use Rattle.verifier.specs.Numbers.{number_of};

    ghost Value = { List (Option ℕ) };

    ghost view = { λ numbers. map number_of numbers.marks.items };
}

impl Numbers {
    /// This many indexes without numbers.
    pub(crate) fn new(alloc: Global, count: usize) -> Result<Numbers, AllocError>
        ensures { IfOk result (λ numbers. numbers ≡ replicate count None) }
    {
        let marks = vec![in alloc; 0; count]?;
        Ok(Numbers { marks })
    }

    /// This many indexes without numbers, in place of those before.
    pub(crate) fn restart(&mut self, count: usize) -> Result<(), AllocError>
        ensures { OnOk result (self.new ≡ replicate count None) }
    {
        fill(&mut self.marks, count)?;
        Ok(())
    }

    /// How many indexes there are.
    pub(crate) fn len(&self) -> usize
        ensures { result ≡ length self.now }
    {
        self.marks.len()
    }

    /// The number at an index, if there is the index and it has one.
    pub(crate) fn at(&self, index: usize) -> Option<u32>
        ensures { result ≡ slice_index_or self.now index None }
    {
        match self.marks.get(index) {
            Some(mark) => number_of(*mark),
            None => None,
        }
    }

    /// Gives an index a number.
    pub(crate) fn set(&mut self, index: usize, number: u32)
        requires index { index < length self.old }
        requires number { number + 1 < 2 ^ 32 }
        ensures { self.new ≡ set self.old index (Some number) }
    {
        self.marks[index] = number + 1;
    }
}

// How many marks are filled at once: few enough that they stay in the memory nearest to the processor until they are written.
const BLOCK: usize = 256;

// Makes a list this many zeros, in blocks.
fn fill(marks: &mut Vec<u32>, count: usize) -> Result<(), AllocError>
    ensures { OnOk result (marks.new.items ≡ replicate count 0) }
{
    marks.clear();
    marks.reserve(count)?;
    let mut size = 0;
    while size < count {
        size += (count - size).min(BLOCK);
        marks.resize(size, 0)?;
    }
    Ok(())
}

// The number that a mark stands for, if any.
fn number_of(mark: u32) -> Option<u32>
    ensures { result ≡ numbers.number_of mark }
{
    if mark == 0 { None } else { Some(mark - 1) }
}
