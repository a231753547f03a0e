//! Sets of exceptions.
ghost use Rattle.labels.specs.Row.{has};
ghost use Rattle.path_map.specs.Kept.{kept_has};
ghost use Rattle.path_map.specs.Sets.{IsSummaryOf, IsSum, MayBeCopy, members};
ghost use Rattle.path_map.specs.declared.members.SetForm.TheVariants.{Single};
ghost use Rattle.std.specs.Prelude.{IfOk, IsTrue, OnOk, false, length, not, ℕ, ◌&&◌, ◌^◌, ◌<◌, ◌==◌, ◌≡◌};

use crate::exits::Raised;
use crate::members::{ExceptionSet, SetForm};
use labels::Row;
use std::alloc::{AllocError, Global};

impl ExceptionSet {
    pub(crate) fn new(alloc: Global, bound: u32) -> ExceptionSet
        ensures bound { result.bound ≡ bound }
        ensures empty { (exception : ℕ) → members result exception ≡ false }
    {
        ExceptionSet {
            alloc,
            bound,
            kept: SetForm::Empty,
        }
    }

    #[inline(never)]
    pub(crate) fn insert(&mut self, exception: u32) -> Result<(), AllocError>
        requires { exception < self.old.bound }
        ensures bound { self.new.bound ≡ self.old.bound }
        ensures added { OnOk result (IsSum (members self.old) (λ other. other == exception)
            (members self.new)) }
    {
        match &mut self.kept {
            SetForm::Empty => self.kept = SetForm::Single(exception),
            SetForm::Single(only) => {
                if *only != exception {
                    let row = row_of_two(self.alloc, self.bound, *only, exception)?;
                    self.kept = SetForm::Many(row);
                }
            }
            SetForm::Many(row) => row.set(exception as usize),
        }
        Ok(())
    }

    pub(crate) fn has(&self, exception: u32) -> bool
        ensures { result ≡ members self.now exception }
    {
        match &self.kept {
            SetForm::Empty => false,
            SetForm::Single(only) => exception == *only,
            SetForm::Many(row) => exception < self.bound && row.has(exception as usize),
        }
    }

    // Takes an exception out, and says whether it was there.
    pub(crate) fn remove(&mut self, exception: u32) -> bool
        ensures bound { self.new.bound ≡ self.old.bound }
        ensures there { result ≡ members self.old exception }
        ensures left { (other : ℕ) → members self.new other
            ≡ (members self.old other && not (other == exception)) }
    {
        if !self.has(exception) {
            return false;
        }
        match &mut self.kept {
            SetForm::Empty => {}
            SetForm::Single(_) => self.kept = SetForm::Empty,
            SetForm::Many(row) => row.remove(exception as usize),
        }
        true
    }

    #[inline(always)]
    pub(crate) fn unite(&mut self, other: &ExceptionSet) -> Result<(), AllocError>
        requires { other.now.bound ≡ self.old.bound }
        ensures bound { self.new.bound ≡ self.old.bound }
        ensures united { OnOk result (IsSum (members self.old) (members other.now)
            (members self.new)) }
    {
        match &other.kept {
            SetForm::Empty => Ok(()),
            SetForm::Single(exception) => self.insert(*exception),
            SetForm::Many(row) => self.unite_row(row),
        }
    }

    // A call, since few statements have several exceptions.
    #[inline(never)]
    fn unite_row(&mut self, row: &Row) -> Result<(), AllocError>
        requires { length row.now ≡ self.old.bound }
        ensures bound { self.new.bound ≡ self.old.bound }
        ensures united { OnOk result (IsSum (members self.old) (has row.now) (members self.new)) }
    {
        match &mut self.kept {
            SetForm::Empty => {
                let mut joined = Row::new(self.alloc, self.bound as usize)?;
                let _grew = joined.join_from(row);
                self.kept = SetForm::Many(joined);
            }
            SetForm::Single(only) => {
                let mut joined = Row::new(self.alloc, self.bound as usize)?;
                joined.set(*only as usize);
                let _grew = joined.join_from(row);
                self.kept = SetForm::Many(joined);
            }
            SetForm::Many(own) => {
                let _grew = own.join_from(row);
            }
        }
        Ok(())
    }

    // The same set once more, if it has this bound.
    pub(crate) fn copy(&self, alloc: Global, bound: u32) -> Result<Option<ExceptionSet>, AllocError>
        ensures { IfOk result (MayBeCopy self.now bound) }
    {
        if self.bound != bound {
            return Ok(None);
        }
        let mut copied = ExceptionSet::new(alloc, bound);
        copied.unite(self)?;
        Ok(Some(copied))
    }

    // The first exception from a number on that this row has and another one has not.
    pub(crate) fn first_beyond(&self, other: &ExceptionSet, from: usize) -> Option<u32> {
        match (&self.kept, &other.kept) {
            (SetForm::Many(row), SetForm::Many(others)) => first_of_row(row, others, from),
            (SetForm::Many(row), SetForm::Empty) => first_of_all(row, from),
            _ => None,
        }
    }

    // Whether both are rows of the same exceptions.
    pub(crate) fn is_same(&self, other: &ExceptionSet) -> bool
        ensures { IsTrue result → (exception : ℕ) →
            members self.now exception ≡ members other.now exception }
    {
        match (&self.kept, &other.kept) {
            (SetForm::Many(row), SetForm::Many(others)) => {
                self.bound == other.bound && row.covers(others) && others.covers(row)
            }
            _ => false,
        }
    }

    // The summary of the set.
    pub(crate) fn summary(&self) -> Raised
        ensures { IsSummaryOf (members self.now) result }
    {
        match &self.kept {
            SetForm::Empty => Raised::Nothing,
            SetForm::Single(only) => Raised::One(*only),
            SetForm::Many(row) => summary_of_row(row),
        }
    }
}

// The first exception from a number on that a row has and another one has not.
fn first_of_row(row: &Row, others: &Row, from: usize) -> Option<u32>
    requires { length row.now < 2 ^ 32 }
{
    let first = row.first_beyond(others, from)?;
    Some(first as u32)
}

// The first exception from a number on that a row has.
fn first_of_all(row: &Row, from: usize) -> Option<u32>
    requires { length row.now < 2 ^ 32 }
{
    let first = row.first_from(from)?;
    Some(first as u32)
}

// The row of two exceptions.
fn row_of_two(alloc: Global, bound: u32, one: u32, other: u32) -> Result<Row, AllocError>
    requires one { one < bound }
    requires other { other < bound }
    ensures bound { IfOk result (λ row. length row ≡ bound) }
    ensures both { IfOk result (λ row. IsSum (kept_has (Single one))
        (λ exception. exception == other)
        (has row)) }
{
    let mut row = Row::new(alloc, bound as usize)?;
    row.set(one as usize);
    row.set(other as usize);
    Ok(row)
}

// The summary of a row: it stops at the second exception.
fn summary_of_row(row: &Row) -> Raised
    requires { length row.now < 2 ^ 32 }
    ensures { IsSummaryOf (has row.now) result }
{
    match row.first_from(0) {
        None => Raised::Nothing,
        Some(first) => match row.first_from(first + 1) {
            None => Raised::One(first as u32),
            Some(_) => Raised::Several,
        },
    }
}
