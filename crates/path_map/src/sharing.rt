//! A new row of exceptions: one that is there already, one near those of what is in its statement, or a set of its own.
ghost use Rattle.path_map.specs.Entries.{IsRowOfSet, MayBeRowOf, RowsGrow};
ghost use Rattle.path_map.specs.Sets.{members};
ghost use Rattle.std.specs.Prelude.{[], IfOk, IsTrue, OnOk, length, ◌++◌, ◌∷◌, ◌≡◌};

use crate::keeping::{KeptForm, KeptRow, whole};
use crate::members::ExceptionSet;
use std::alloc::{AllocError, Global};

// A row is kept by this many rows at most.
pub(crate) const MOST_STEPS: usize = 32;

// Sets of fewer exceptions are always kept as they are.
pub(crate) const SHORT: u32 = 512;

/// Rows of which a new one may be made: one that may be the same, and those of what is in its statement.
#[derive(Drop)]
pub(crate) struct Nearby {
    pub like: usize,
    pub inner: Vec<usize>,
}

/// Keeps a set as a row, and gives its number.
// A call, since few statements have several exceptions, and what finds their summary is short without it.
#[inline(never)]
#[tactic(auto, using(crate::proofs::RowLists::grown_none, crate::proofs::RowLists::grown_more, crate::proofs::RowLists::grown_push))]
pub(crate) fn keep(
    alloc: Global,
    rows: &mut Vec<KeptRow>,
    set: ExceptionSet,
    nearby: &Nearby,
) -> Result<usize, AllocError>
    ensures kept { IfOk result (IsRowOfSet (members set) rows.new.items) }
    ensures grown { RowsGrow rows.old.items rows.new.items }
{
    if is_like(alloc, rows, nearby.like, &set)? {
        return Ok(nearby.like);
    }
    if set.bound >= SHORT {
        if let Some(number) = keep_near(alloc, rows, &set, &nearby.inner)? {
            return Ok(number);
        }
    }
    keep_whole(rows, set)
}

// Keeps a set as a row of its own.
fn keep_whole(rows: &mut Vec<KeptRow>, set: ExceptionSet) -> Result<usize, AllocError>
    ensures kept { IfOk result (IsRowOfSet (members set) rows.new.items) }
    ensures grown { RowsGrow rows.old.items rows.new.items }
{
    let number = push_row(rows, 1, KeptForm::Whole(set))?;
    Ok(number)
}

// Whether a row has the exceptions of a set.
fn is_like(
    alloc: Global,
    rows: &[KeptRow],
    number: usize,
    set: &ExceptionSet,
) -> Result<bool, AllocError>
    ensures { IfOk result (λ same. IsTrue same → IsRowOfSet (members set.now) rows.now number) }
{
    if number >= rows.len() {
        return Ok(false);
    }
    match whole(alloc, rows, number, set.bound)? {
        None => Ok(false),
        Some(row) => Ok(row.is_same(set)),
    }
}

// Adds a row, and gives its number.
#[tactic(auto, using(crate::proofs::RowLists::grown_none, crate::proofs::RowLists::grown_more, crate::proofs::RowLists::grown_push))]
fn push_row(rows: &mut Vec<KeptRow>, steps: usize, form: KeptForm) -> Result<usize, AllocError>
    ensures number { IfOk result (λ number. number ≡ length rows.old.items) }
    ensures rows { OnOk result (rows.new.items
        ≡ rows.old.items ++ (record { steps = steps; form = form }) ∷ []) }
    ensures grown { RowsGrow rows.old.items rows.new.items }
{
    let number = rows.len();
    rows.push(KeptRow { steps, form })?;
    Ok(number)
}

// By how many rows a row is kept.
fn steps_of(rows: &[KeptRow], number: usize) -> usize {
    match rows.get(number) {
        None => MOST_STEPS,
        Some(row) => row.steps,
    }
}

// The row of the exceptions of some rows together, where it is kept by few rows.
#[tactic(auto, using(crate::proofs::RowLists::grown_none, crate::proofs::RowLists::grown_more, crate::proofs::RowLists::grown_push))]
fn join_rows(rows: &mut Vec<KeptRow>, inner: &[usize]) -> Result<Option<usize>, AllocError>
    ensures { RowsGrow rows.old.items rows.new.items }
{
    let mut number = 0;
    for other in inner {
        if number == 0 {
            number = *other;
            continue;
        }
        let steps = steps_of(rows, number).saturating_add(steps_of(rows, *other));
        if steps >= MOST_STEPS {
            return Ok(None);
        }
        number = push_row(
            rows,
            steps.saturating_add(1),
            KeptForm::Both(number, *other),
        )?;
    }
    Ok(Some(number))
}

// Adds the first exceptions that one set has and another has not to a list, as far as there is room for them.
fn add_beyond(
    one: &ExceptionSet,
    other: &ExceptionSet,
    changes: &mut Vec<u32>,
) -> Result<(), AllocError> {
    let mut from = 0;
    for _step in changes.len()..MOST_STEPS {
        let Some(exception) = one.first_beyond(other, from) else {
            return Ok(());
        };
        changes.push(exception)?;
        from = exception as usize + 1;
    }
    Ok(())
}

// The exceptions that are in one of two sets, as far as they are few.
fn changes_of(
    alloc: Global,
    one: &ExceptionSet,
    other: &ExceptionSet,
) -> Result<Vec<u32>, AllocError> {
    let mut changes = Vec::new(alloc);
    add_beyond(one, other, &mut changes)?;
    add_beyond(other, one, &mut changes)?;
    Ok(changes)
}

// Adds rows that have what one has but for some exceptions, and gives the number of the last, where it is kept by few rows.
#[tactic(auto, using(crate::proofs::RowLists::grown_none, crate::proofs::RowLists::grown_more, crate::proofs::RowLists::grown_push))]
fn change_row(
    rows: &mut Vec<KeptRow>,
    base: usize,
    changes: &[u32],
) -> Result<Option<usize>, AllocError>
    ensures { RowsGrow rows.old.items rows.new.items }
{
    let mut steps = steps_of(rows, base);
    // This many changes are those of sets that may differ by more.
    if steps.saturating_add(changes.len()) >= MOST_STEPS {
        return Ok(None);
    }
    let mut number = base;
    for exception in changes {
        steps = steps.saturating_add(1);
        number = push_row(rows, steps, KeptForm::Changed(number, *exception))?;
    }
    Ok(Some(number))
}

// Keeps a set near the rows of what is in its statement, if it is near to them.
#[tactic(auto, using(crate::proofs::RowLists::grown_none, crate::proofs::RowLists::grown_more, crate::proofs::RowLists::grown_push))]
fn keep_near(
    alloc: Global,
    rows: &mut Vec<KeptRow>,
    set: &ExceptionSet,
    inner: &[usize],
) -> Result<Option<usize>, AllocError>
    ensures near { IfOk result (MayBeRowOf (members set.now) rows.new.items) }
    ensures grown { RowsGrow rows.old.items rows.new.items }
{
    let Some(base) = join_rows(rows, inner)? else {
        return Ok(None);
    };
    let Some(joined) = whole(alloc, rows, base, set.bound)? else {
        return Ok(None);
    };
    let changes = changes_of(alloc, set, &joined)?;
    let Some(number) = change_row(rows, base, &changes)? else {
        return Ok(None);
    };
    if is_like(alloc, rows, number, set)? {
        return Ok(Some(number));
    }
    Ok(None)
}
