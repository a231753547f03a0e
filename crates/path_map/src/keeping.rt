//! How rows of exceptions are kept: as sets of their own, or by the rows before them.
ghost use Rattle.path_map.specs.Exceptions.{is_one_of};
ghost use Rattle.path_map.specs.RowLists.{MayBeBoth, MayBeChanged, MayBeRow, row_at};
ghost use Rattle.std.specs.Prelude.{IfOk, if◌then◌else◌, not, ◌==◌, ◌≡◌};

use crate::members::ExceptionSet;
use std::alloc::{AllocError, Global};

/// The exceptions of a row: those of a set, those of two rows before it, or those of one but for an exception, which is there where it was
/// not.
#[derive(Drop)]
pub(crate) enum KeptForm {
    Whole(ExceptionSet),
    Both(usize, usize),
    Changed(usize, u32),
}

/// How the exceptions of a row are kept, and by how many rows with itself.
#[derive(Drop)]
pub(crate) struct KeptRow {
    pub steps: usize,
    pub form: KeptForm,
}

// Whether an exception is there once one is where it was not.
fn has_changed(there: bool, exception: u32, changed: u32) -> bool
    ensures { result ≡ (if exception == changed then not there else there) }
{
    if exception == changed {
        return !there;
    }
    there
}

/// Whether an exception is in a row.
#[cycle(looking)]
pub(crate) fn row_has(rows: &[KeptRow], number: usize, exception: u32) -> bool
    ensures { result ≡ is_one_of (row_at rows.now number) exception }
{
    let Some(row) = rows.get(number) else {
        return false;
    };
    let before = &rows[..number];
    match &row.form {
        KeptForm::Whole(set) => set.has(exception),
        KeptForm::Both(one, other) => {
            row_has(before, *one, exception) || row_has(before, *other, exception)
        }
        KeptForm::Changed(base, changed) => {
            has_changed(row_has(before, *base, exception), exception, *changed)
        }
    }
}

/// The exceptions of a row as a set with a bound, if there is a row with this number and the bound fits.
#[cycle(joining)]
pub(crate) fn whole(
    alloc: Global,
    rows: &[KeptRow],
    number: usize,
    bound: u32,
) -> Result<Option<ExceptionSet>, AllocError>
    ensures { IfOk result (MayBeRow rows.now number bound) }
{
    let Some(row) = rows.get(number) else {
        return Ok(None);
    };
    let before = &rows[..number];
    match &row.form {
        KeptForm::Whole(set) => set.copy(alloc, bound),
        KeptForm::Both(one, other) => {
            let one = whole(alloc, before, *one, bound)?;
            let other = whole(alloc, before, *other, bound)?;
            both(one, other)
        }
        KeptForm::Changed(base, changed) => {
            let base = whole(alloc, before, *base, bound)?;
            change(base, *changed)
        }
    }
}

// The exceptions of two sets with one bound, if both are there.
fn both(
    one: Option<ExceptionSet>,
    other: Option<ExceptionSet>,
) -> Result<Option<ExceptionSet>, AllocError>
    ensures { IfOk result (MayBeBoth one other) }
{
    let Some(mut joined) = one else {
        return Ok(None);
    };
    let Some(other) = other else {
        return Ok(None);
    };
    if joined.bound != other.bound {
        return Ok(None);
    }
    joined.unite(&other)?;
    Ok(Some(joined))
}

// A set in which an exception is where it was not, if the set is there and the exception is below its bound.
fn change(base: Option<ExceptionSet>, exception: u32) -> Result<Option<ExceptionSet>, AllocError>
    ensures { IfOk result (MayBeChanged base exception) }
{
    let Some(mut set) = base else {
        return Ok(None);
    };
    if exception >= set.bound {
        return Ok(None);
    }
    if !set.remove(exception) {
        set.insert(exception)?;
    }
    Ok(Some(set))
}
