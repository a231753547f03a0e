//! Which written elements reach each unknown: a work list of constraints.
ghost use Rattle.solver.specs.Links.{AreBelow, InRange};
ghost use Rattle.solver.specs.Looks.{written_left};
ghost use Rattle.solver.specs.Queue.{RightIsUnknown, order_in};
ghost use Rattle.solver.specs.Reach.{AreEdges};
ghost use Rattle.solver.specs.Rows.{AreRows, AreSized};
ghost use Rattle.solver.specs.Work.{AreSoFar, IsBrought, IsWork, room};
ghost use Rattle.std.specs.Prelude.{IfOk, OnOk, [], length, ◌+◌, ◌<◌, ◌∷◌, ◌≤◌};

use crate::breaker::left_row;
use crate::constraints::{Atom, Constraint};
use crate::edges::Edges;
use crate::queue::{Queue, all_queued};
use crate::sharing::SharedRows;
use std::alloc::{AllocError, Global};

/// For each unknown the numbers of the written elements that reach it, and how often left sides were looked at.
#[derive(Drop)]
pub struct Reached {
    pub rows: SharedRows,
    pub looks: u64,
}

/// What reaches all unknowns. Each constraint whose right side is an unknown is looked at, and again when a row in its left side has
/// grown: at most once for each written element.
pub fn rows_of<T>(
    alloc: Global,
    edges: &Edges,
    constraints: &[Constraint<T>],
) -> Result<Reached, AllocError>
    requires edges { AreEdges constraints.now edges.now }
    requires range { InRange (length edges.now.written) (length edges.now.unknown)
        constraints.now }
    ensures rows { IfOk result (λ reached. AreRows edges.now reached.rows) }
    ensures looks { IfOk result (λ reached. AreSoFar constraints.now edges.now
        reached.rows [] reached.looks) }
{
    let mut queue = all_queued(alloc, edges, constraints)?;
    let mut reached = Reached {
        rows: SharedRows::new(alloc, edges.written.len(), edges.unknown.len())?,
        looks: 0,
    };
    while let Some(by) = queue.next() {
        reached.look(alloc, edges, constraints, by, &mut queue)?;
    }
    Ok(reached)
}

// Adds all that a left side has to the row of an unknown. The answer is whether that lacked some of it.
fn bring(
    alloc: Global,
    rows: &mut SharedRows,
    count: usize,
    unknown: usize,
    left: &[Atom],
) -> Result<bool, AllocError>
    requires unknown { unknown < length rows.old }
    requires range { AreBelow count (length rows.old) left.now }
    requires sized { AreSized count rows.old }
    ensures { IfOk result (IsBrought rows.old count unknown left.now rows.new) }
{
    if rows.covers(unknown, left) {
        return Ok(false);
    }
    if rows.take_over(unknown, left) {
        return Ok(true);
    }
    bring_all(alloc, rows, count, unknown, left)
}

// Adds all that a left side has to the row of an unknown, by a row of its own. The answer is whether that lacked some of it.
// A call, since most rows are not made so.
#[inline(never)]
fn bring_all(
    alloc: Global,
    rows: &mut SharedRows,
    count: usize,
    unknown: usize,
    left: &[Atom],
) -> Result<bool, AllocError>
    requires unknown { unknown < length rows.old }
    requires range { AreBelow count (length rows.old) left.now }
    requires sized { AreSized count rows.old }
    ensures { IfOk result (IsBrought rows.old count unknown left.now rows.new) }
{
    let all = left_row(alloc, left, rows, count)?;
    let Some(row) = rows.grown(alloc, unknown, all)? else {
        return Ok(false);
    };
    rows.put(alloc, unknown, row, left)?;
    Ok(true)
}

impl Reached {
    // Looks at the left side of a constraint. Where the row of the right side grew, the constraints with it on the left wait.
    fn look<T>(
        &mut self,
        alloc: Global,
        edges: &Edges,
        constraints: &[Constraint<T>],
        by: usize,
        queue: &mut Queue,
    ) -> Result<(), AllocError>
        requires edges { AreEdges constraints.now edges.now }
        requires range { InRange (length edges.now.written)
            (length edges.now.unknown) constraints.now }
        requires right { RightIsUnknown constraints.now by }
        requires work { IsWork constraints.now edges.now self.old.rows
            queue.old.waits.items (order_in queue.old.order) by }
        requires so_far { AreSoFar constraints.now edges.now self.old.rows
            (by ∷ (order_in queue.old.order)) self.old.looks }
        ensures work { OnOk result (IsWork constraints.now edges.now self.new.rows
            queue.new.waits.items (order_in queue.new.order) (length constraints.now)) }
        ensures so_far { OnOk result (AreSoFar constraints.now edges.now self.new.rows
            (order_in queue.new.order) self.new.looks) }
        ensures less { OnOk result (length (order_in queue.new.order)
            + room (written_left constraints.now 0 (length edges.now.written))
            edges.now.unknown self.new.rows
            ≤ length (order_in queue.old.order)
            + room (written_left constraints.now 0 (length edges.now.written))
            edges.now.unknown self.old.rows) }
    {
        let constraint = &constraints[by];
        let Atom::Unknown(unknown) = constraint.right else {
            unreachable!();
        };
        let unknown = unknown as usize;
        let count = edges.written.len();
        let left = constraint.left.as_slice();
        self.looks = self.looks.saturating_add(1);
        let is_more = bring(alloc, &mut self.rows, count, unknown, left)?;
        if is_more {
            queue.add_all(edges.unknown.row(unknown))?;
        }
        Ok(())
    }
}
