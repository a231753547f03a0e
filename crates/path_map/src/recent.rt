//! Which rows of exceptions a new one may be like.

use crate::raises::Raises;
use crate::sharing::{MOST_STEPS, Nearby, SHORT};
use std::alloc::{AllocError, Global};

// The row of a statement or block, by its number.
#[derive(Clone, Copy, Drop)]
struct OpenRow {
    at: usize,
    row: usize,
}

/// The last row of several exceptions, those of the statements and blocks that are in none yet, and the last ones of calls, four for each
/// procedure.
#[derive(Drop)]
pub(crate) struct RecentRows {
    // Whether rows are long enough to be kept near others.
    long: bool,
    last: usize,
    open: Vec<OpenRow>,
    calls: Vec<usize>,
}

impl RecentRows {
    // Of a program with this many exceptions and procedures.
    pub(crate) fn new(
        alloc: Global,
        bound: u32,
        procedures: usize,
    ) -> Result<RecentRows, AllocError> {
        let mut calls = Vec::new(alloc);
        for _ in 0..procedures {
            for _ in 0..4 {
                calls.push(0)?;
            }
        }
        Ok(RecentRows {
            long: bound >= SHORT,
            last: 0,
            open: Vec::new(alloc),
            calls,
        })
    }

    // The rows that are near that of a statement or block with this number, which may be a call.
    pub(crate) fn nearby(
        &mut self,
        alloc: Global,
        at: usize,
        call: Option<(u32, Raises)>,
    ) -> Result<Nearby, AllocError> {
        Ok(Nearby {
            like: likely(self.calls.as_slice(), call, self.last),
            inner: take_inner(alloc, &mut self.open, at)?,
        })
    }

    // Notes the row of a statement or block, if it has one or is a call. Most have none and are none.
    #[inline(always)]
    pub(crate) fn note(
        &mut self,
        at: usize,
        call: Option<(u32, Raises)>,
        row: usize,
    ) -> Result<(), AllocError> {
        if row == 0 && call.is_none() {
            return Ok(());
        }
        self.note_row(at, call, row)
    }

    // Notes the row of a statement or block that has one or is a call.
    #[inline(never)]
    fn note_row(
        &mut self,
        at: usize,
        call: Option<(u32, Raises)>,
        row: usize,
    ) -> Result<(), AllocError> {
        remember(&mut self.calls, call, row);
        if row == 0 {
            return Ok(());
        }
        self.last = row;
        if self.long {
            leave_open(&mut self.open, OpenRow { at, row })?;
        }
        Ok(())
    }
}

// Takes the rows of the statements and blocks in one: those with greater numbers. Of many it is enough to have some.
fn take_inner(alloc: Global, open: &mut Vec<OpenRow>, at: usize) -> Result<Vec<usize>, AllocError> {
    let mut inner = Vec::new(alloc);
    for _i in 0..open.len() {
        let Some(last) = open.pop() else {
            return Ok(inner);
        };
        if last.at < at {
            open.push(last)?;
            return Ok(inner);
        }
        if inner.len() < MOST_STEPS && !inner.contains(&last.row) {
            inner.push(last.row)?;
        }
    }
    Ok(inner)
}

// Leaves the row of a statement or block for that in which it is. One that comes right after another with the same row stands for both.
fn leave_open(open: &mut Vec<OpenRow>, new: OpenRow) -> Result<(), AllocError> {
    if let Some(last) = open.pop() {
        if last.row != new.row || last.at.saturating_add(1) != new.at {
            open.push(last)?;
        }
    }
    open.push(new)?;
    Ok(())
}

// The number of the row that is likely to have the exceptions of a statement or block: that of the last such call, or the last
// one.
fn likely(calls: &[usize], call: Option<(u32, Raises)>, last: usize) -> usize {
    match call {
        None => last,
        Some((callee, raised)) => match calls.get(index_of_call(callee, raised)) {
            None => 0,
            Some(row) => *row,
        },
    }
}

// Remembers the row of a call.
fn remember(calls: &mut [usize], call: Option<(u32, Raises)>, row: usize) {
    if let Some((callee, raised)) = call {
        if let Some(index) = calls.get_mut(index_of_call(callee, raised)) {
            *index = row;
        }
    }
}

// The index of the last row of a call of a procedure, with arguments that can raise these exceptions.
fn index_of_call(callee: u32, raised: Raises) -> usize {
    let arith = if raised.arith { 2 } else { 0 };
    let bounds = if raised.bounds { 1 } else { 0 };
    callee as usize * 4 + arith + bounds
}
