//! Rows of bits, at lengths around whole words and around four of them, against what the numbers say.
ghost use Rattle.std.specs.Prelude.{IfOk, length, ◌≡◌};

use labels::Row;
use std::alloc::{AllocError, Global};
use std::test::Fail;

// The lengths that are tried.
const LENGTHS: [usize; 9] = [0, 1, 63, 64, 65, 255, 256, 257, 1000];

// The numbers below `n` whose rest by `by` is 1, and the last one.
fn row_of(alloc: Global, n: usize, by: usize) -> Result<Row, AllocError>
    ensures { IfOk result (λ row. length row ≡ n) }
{
    let mut row = Row::new(alloc, n)?;
    for i in 0..n {
        if i.checked_rem(by) == Some(1) || n - i == 1 {
            row.set(i);
        }
    }
    Ok(row)
}

// Whether exactly the numbers with rest 1 by two or by three, and the last one, are in a row.
fn is_union(row: &Row, n: usize) -> bool
    requires { length row.now ≡ n }
{
    for i in 0..n {
        let there = i % 2 == 1 || i % 3 == 1 || n - i == 1;
        if row.has(i) != there {
            return false;
        }
    }
    true
}

// Joins a row into another one. The answer is whether that grew.
fn join(row: &mut Row, other: &Row) -> bool
    requires { length row.old ≡ length other.now }
    ensures { length row.new ≡ length row.old }
{
    row.join_from(other)
}

// Whether the union of two rows is right, and which of them grow and include each other.
fn joins(alloc: Global, n: usize) -> Result<bool, AllocError> {
    let mut row = row_of(alloc, n, 2)?;
    let other = row_of(alloc, n, 3)?;
    let before = row.covers(&other) == (n < 6) && other.covers(&row) == (n < 5);
    let grew = join(&mut row, &other) == (n > 5);
    let after = row.covers(&other) && !join(&mut row, &other);
    Ok(before && grew && after && is_union(&row, n))
}

// Whether the last number alone makes a row grow, and is missed.
fn last(alloc: Global, n: usize) -> Result<bool, AllocError> {
    let mut row = Row::new(alloc, n)?;
    let other = row_of(alloc, n, 0)?;
    let missed = row.covers(&other) == (n == 0) && other.covers(&row);
    let grew = join(&mut row, &other) == (n > 0);
    Ok(missed && grew && row.covers(&other))
}

#[test]
fn rows_are_joined(rt: HostRuntime) -> Result<(), Fail> {
    let alloc = rt.alloc();
    let mut right = true;
    for n in LENGTHS {
        right = right && joins(alloc, n)? && last(alloc, n)?;
    }
    assert!(rt; right);
    Ok(())
}
