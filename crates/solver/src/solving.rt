//! The least solution of constraints, or why there is none.
ghost use Rattle.solver.specs.Breaker.{BreaksAlong, IsBreakChain};
ghost use Rattle.solver.specs.Broken.{AllRightsInside, is_below};
ghost use Rattle.solver.specs.Links.{InRange};
ghost use Rattle.solver.specs.Looks.{AreLooks};
ghost use Rattle.solver.specs.Reach.{AllLeadInside};
ghost use Rattle.common.specs.Answers.{IfRefused};
ghost use Rattle.solver.specs.Constraints.{IsSolution, IsSolveRefusal};
ghost use Rattle.std.specs.Prelude.{IfErr, IfOk, length, ℕ, ◌<◌, ◌≡◌};

use crate::breaker::first_breaker;
use crate::broken::earlier_of_value;
use crate::chain::chain_to;
use crate::constraints::{Constraint, Constraints};
use crate::edges::{Edges, edges_of};
use crate::elements::{ElementsOf, WrittenElements};
use crate::fault::{SolveFault, SolveRefusal};
use crate::search::trace;
use crate::solution::Solution;
use crate::worklist::rows_of;
use common::OrNoMemory;
use lattices::Lattice;
use std::alloc::{AllocError, Global};

/// The least values of the unknowns that fit the constraints whose right side is an unknown, if they fit all constraints. Otherwise
/// the first constraint in order, with a written right side, that they do not fit, and a chain to it that no values fit: so the
/// constraints are refused exactly where no values fit them all. The written elements are compared by their numbers alone. It is a
/// precondition that the numbers of written elements and of unknowns are in range.
///
/// An unknown with few written elements beyond those of one from which it comes takes memory for these alone, and any other one a bit
/// for each written element, each time that more come to it. A constraint whose right side is an unknown is looked at once, and again
/// only when one more written element reaches its left side. The looks are counted up to the greatest number of 64 bits.
///
/// # Errors
///
/// The refusal, or memory ran out.
pub fn solve_by_numbers<W: WrittenElements, T>(
    alloc: Global,
    written: &W,
    unknowns: u32,
    constraints: &[Constraint<T>],
) -> Result<Solution, SolveFault>
    requires { InRange (length (W.elements written.now)) unknowns constraints.now }
    ensures accepted { IfOk result (IsSolution (W.order written.now) (W.elements written.now)
        constraints.now) }
    ensures looks { IfOk result (λ solution. AreLooks (length (W.elements written.now))
        constraints.now solution.looks) }
    ensures rejected { IfErr result (IfRefused (IsSolveRefusal (W.order written.now)
        (W.elements written.now) constraints.now)) }
{
    written.keep_laws();
    let count = written.len();
    let edges = edges_of(alloc, constraints, count, unknowns as usize)?;
    let reached = rows_of(alloc, &edges, constraints)?;
    match first_breaker(alloc, written, constraints, &edges, &reached.rows)? {
        None => Ok(Solution::of(count, reached.rows, reached.looks)),
        Some(value) => {
            let refusal = find_refusal(alloc, written, &edges, value)?;
            Err(OrNoMemory::Refused(refusal))
        }
    }
}

/// The same of written elements that are held in a table: see `solve_by_numbers`.
///
/// # Errors
///
/// The refusal, or memory ran out.
pub fn solve<L: Lattice, T>(
    alloc: Global,
    lattice: &L,
    system: &Constraints<L::Elem, T>,
) -> Result<Solution, SolveFault>
    requires { InRange (length system.now.written.items) system.now.unknowns
        system.now.constraints.items }
    ensures accepted { IfOk result (IsSolution (L.order lattice.now) system.now.written.items
        system.now.constraints.items) }
    ensures looks { IfOk result (λ solution. AreLooks (length system.now.written.items)
        system.now.constraints.items solution.looks) }
    ensures rejected { IfErr result (IfRefused (IsSolveRefusal (L.order lattice.now)
        system.now.written.items system.now.constraints.items)) }
{
    let written = ElementsOf {
        lattice,
        written: system.written.as_slice(),
    };
    solve_by_numbers(
        alloc,
        &written,
        system.unknowns,
        system.constraints.as_slice(),
    )
}

// The refusal for a written element that breaks a constraint: the first one that it breaks.
fn find_refusal<W: WrittenElements>(
    alloc: Global,
    written: &W,
    edges: &Edges,
    value: usize,
) -> Result<SolveRefusal, AllocError>
    requires value { value < length (W.elements written.now) }
    requires written { length edges.now.written ≡ length (W.elements written.now) }
    requires inside { AllLeadInside edges.now }
    requires rights { AllRightsInside (length (W.elements written.now)) edges.now }
    requires breaks { (i : ℕ) × BreaksAlong edges.now
        (is_below (W.order written.now) (W.elements written.now)) value i }
    ensures from { IfOk result (λ refusal. refusal.from ≡ value) }
    ensures chain { IfOk result (λ refusal. IsBreakChain edges.now
        (is_below (W.order written.now) (W.elements written.now)) value refusal.chain.items) }
{
    let found = trace(alloc, edges, value)?;
    let found = found.as_slice();
    let Some(broken) = earlier_of_value(written, edges, found, value, None) else {
        unreachable!();
    };
    let chain = chain_to(alloc, found, broken.parent, broken.by)?;
    Ok(SolveRefusal { from: value, chain })
}
