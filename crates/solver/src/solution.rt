//! The least values of the unknowns.
ghost use Rattle.solver.specs.Rows.{AreSized, reached_by};
ghost use Rattle.solver.specs.Constraints.{AreAlike, row_join, rows_with, values_of};
ghost use Rattle.std.specs.Prelude.{All, IfOk, length, ◌<◌, ◌≡◌, ◌≤◌};

use crate::sharing::SharedRows;
use lattices::Lattice;
use std::alloc::{AllocError, Global};
use std::marker::Model;

/// The least values of the unknowns of constraints: for each unknown the written elements that reach it, as a row of bits. The value
/// of an unknown is the join of the written elements that reach it. A contract sees for each written element, by its number, the
/// unknowns that it reaches; and how often left sides were looked at.
#[derive(Debug, Drop)]
pub struct Solution {
    /// How many written elements there are.
    count: usize,
    rows: SharedRows,
    looks: u64,
    ghost sized: { AreSized count rows },
}

impl Model for Solution {
    ghost use Rattle.solver.specs.Constraints.{Solved};

    ghost Value = { Solved };

    ghost use Rattle.solver.specs.Rows.{reached_by};

    ghost view = { λ solution. record {
      reached = reached_by 0 solution.count solution.rows;
      looks = solution.looks;
    } };
}

impl Solution {
    // The solution with these rows of numbers below this, and this number of looks.
    pub(crate) fn of(count: usize, rows: SharedRows, looks: u64) -> Solution
        requires { AreSized count rows }
        ensures { result ≡ record { reached = reached_by 0 count rows; looks = looks } }
    {
        Solution { count, rows, looks }
    }

    /// How often left sides of constraints whose right side is an unknown were looked at. Once it is the greatest number of 64 bits,
    /// it stays so.
    pub fn looks(&self) -> u64
        ensures { result ≡ self.now.looks }
    {
        self.looks
    }

    /// The numbers of the written elements that reach an unknown, in ascending order: the value of the unknown is their join. It goes
    /// through the row of the unknown alone.
    ///
    /// # Errors
    ///
    /// Memory ran out.
    pub fn reaching(&self, alloc: Global, unknown: u32) -> Result<Vec<usize>, AllocError>
        ensures { IfOk result (λ numbers. numbers.items ≡ rows_with 0 self.now.reached unknown) }
    {
        numbers_of(alloc, self.count, &self.rows, unknown as usize)
    }

    /// The value of an unknown, exact up to the order: the join of the written elements that reach it. The precondition holds of the
    /// table of written elements that was solved. It fails only where memory ran out, and goes through the row of the unknown alone.
    pub fn value<L: Lattice>(
        &self,
        alloc: Global,
        lattice: &L,
        written: &[L::Elem],
        unknown: u32,
    ) -> Result<L::Elem, AllocError>
        requires { length self.now.reached ≤ length written.now }
        ensures { IfOk result (AreAlike (L.order lattice.now)
            (values_of (L.order lattice.now) written.now self.now.reached unknown)) }
    {
        let numbers = numbers_of(alloc, self.count, &self.rows, unknown as usize)?;
        join_all(alloc, lattice, written, &numbers)
    }
}

// The numbers of the written elements that reach an unknown, in order.
fn numbers_of(
    alloc: Global,
    count: usize,
    rows: &SharedRows,
    unknown: usize,
) -> Result<Vec<usize>, AllocError>
    requires { AreSized count rows.now }
    ensures numbers { IfOk result (λ numbers. numbers.items
        ≡ rows_with 0 (reached_by 0 count rows.now) unknown) }
    ensures inside { IfOk result (λ numbers. All (λ number. number < count) numbers.items) }
{
    let row = rows.row(alloc, unknown)?;
    let mut numbers = Vec::new(alloc);
    for number in 0..count {
        if row.contains(number) {
            numbers.push(number)?;
        }
    }
    Ok(numbers)
}

// The join of the written elements with these numbers. The joins of both halves are joined, so that each element goes through few
// joins and not through that of each later one. The halves end at single numbers, 64 levels down at most.
fn join_all<L: Lattice>(
    alloc: Global,
    lattice: &L,
    written: &[L::Elem],
    numbers: &[usize],
) -> Result<L::Elem, AllocError>
    requires { All (λ number. number < length written.now) numbers.now }
    ensures { IfOk result (AreAlike (L.order lattice.now)
        (row_join (L.order lattice.now) written.now numbers.now)) }
{
    lattice.keep_laws();
    let least = lattice.least(alloc);
    if numbers.is_empty() {
        return Ok(least);
    }
    if numbers.len() == 1 {
        return lattice.join(alloc, &least, &written[numbers[0]]);
    }
    let (left, right) = numbers.split_at(numbers.len() / 2);
    let left = join_all(alloc, lattice, written, left)?;
    let right = join_all(alloc, lattice, written, right)?;
    lattice.join(alloc, &left, &right)
}
