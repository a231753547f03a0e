//! The table of bits that answers who acts for whom.

ghost use Rattle.principals.specs.ActsFor.{acts_for};
ghost use Rattle.principals.specs.Table.{is_written, related};
ghost use Rattle.std.specs.Prelude.{All, IfOk, [], length, ℕ, ◌&&◌, ◌<◌, ◌||◌, ◌≡◌, ◌≤◌};

use crate::principal_set::PrincipalSet;
use common::limits::MAX_PRINCIPALS;
use std::alloc::{AllocError, Global};

/// The rows in which each number below `count` has itself and what is written for it.
fn relate_written(
    alloc: Global,
    count: u32,
    pairs: &[(u32, u32)],
) -> Result<Vec<PrincipalSet>, AllocError>
    requires few { count ≤ MAX_PRINCIPALS }
    requires there { All (λ pair. (pair.0 < count) × (pair.1 < count)) pairs.now }
    ensures rows { IfOk result (λ table. length table.items ≡ count) }
    ensures written { IfOk result (λ table. (a b : ℕ) → a < count → related table.items a b
        ≡ is_written pairs.now a b) }
{
    let mut table = relate_itself(alloc, count)?;
    for (left, right) in pairs {
        table[*left as usize].insert(*right);
    }
    Ok(table)
}

/// The rows in which each number below `count` has itself alone.
fn relate_itself(alloc: Global, count: u32) -> Result<Vec<PrincipalSet>, AllocError>
    requires { count ≤ MAX_PRINCIPALS }
    ensures rows { IfOk result (λ table. length table.items ≡ count) }
    ensures itself { IfOk result (λ table. (a b : ℕ) → a < count → related table.items a b
        ≡ is_written [] a b) }
{
    let mut table = Vec::with_capacity(alloc, count as usize)?;
    for number in 0..count {
        let mut row = PrincipalSet::EMPTY;
        row.insert(number);
        table.push(row)?;
    }
    Ok(table)
}

/// Gives each row that has `between` what the row of `between` has.
fn join_by(table: &mut [PrincipalSet], between: u32)
    requires { between < length table.old }
    ensures { (a b : ℕ) → a < length table.old → related table.new a b
        ≡ (related table.old a b || (related table.old a between && related table.old between b)) }
{
    let added = table[between as usize];
    for row in table.iter_mut() {
        row.merge_if(between, &added);
    }
}

/// The table of acts-for among the numbers below `count`: after the turn of a number the rows have
/// every path through numbers up to it.
pub(crate) fn close_table(
    alloc: Global,
    count: u32,
    pairs: &[(u32, u32)],
) -> Result<Vec<PrincipalSet>, AllocError>
    requires few { count ≤ MAX_PRINCIPALS }
    requires there { All (λ pair. (pair.0 < count) × (pair.1 < count)) pairs.now }
    ensures rows { IfOk result (λ table. length table.items ≡ count) }
    ensures closed { IfOk result (λ table. (a b : ℕ) → a < count → related table.items a b
        ≡ acts_for pairs.now a b) }
{
    let mut table = relate_written(alloc, count, pairs)?;
    for between in 0..count {
        join_by(&mut table, between);
    }
    Ok(table)
}
