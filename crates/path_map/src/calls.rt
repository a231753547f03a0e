//! What calls raise: the exceptions that procedures declare.
ghost use Rattle.path_map.specs.Exits.{raised_by};
ghost use Rattle.path_map.specs.Rows.{AreDeclaredRows, HasBound, HaveBound, says};
ghost use Rattle.path_map.specs.Exceptions.{exceptions_of, is_one_of};
ghost use Rattle.path_map.specs.Sets.{IsSum, members};
ghost use Rattle.path_map.specs.Walks.{AreThrownInside, exception_count};
ghost use Rattle.resolved.specs.CoreOf.{program_of};
ghost use Rattle.resolved.specs.Exits.{declared_by};
ghost use Rattle.resolved.specs.Program.{procedure_at};
ghost use Rattle.std.specs.Prelude.{IfOk, OnOk, ℕ, ◌≡◌};

use crate::exits::Raised;
use crate::members::ExceptionSet;
use common::exceptions::BUILT_IN;
use resolved::program::Core;
use resolved::tables::Thrown;
use std::alloc::{AllocError, Global};

// The program along which a walk goes. A procedure that declares more exceptions than a row has words has a row of its own, so that
// a call of it takes no more steps than there are words.
#[derive(Drop)]
pub(crate) struct EndsWalk<'a> {
    pub(crate) alloc: Global,
    pub(crate) core: &'a Core,
    // How many exceptions there are.
    pub(crate) bound: u32,
    rows: Vec<Option<ExceptionSet>>,
    ghost count: { bound ≡ exception_count core.now },
    ghost same: { AreDeclaredRows core.now rows.items },
    ghost bounded: { HaveBound bound rows.items },
}

impl<'a> EndsWalk<'a> {
    pub(crate) fn along(alloc: Global, core: &'a Core) -> Result<EndsWalk<'a>, AllocError>
        ensures { IfOk result (λ walk. walk.core.now ≡ core.now) }
    {
        let bound = core.exceptions.len() as u32 + BUILT_IN;
        let mut rows = Vec::new(alloc);
        for procedure in &core.procedures {
            rows.push(row_of(alloc, &procedure.throws, bound)?)?;
        }
        Ok(EndsWalk {
            alloc,
            core,
            bound,
            rows,
        })
    }

    // The summary of the exceptions that a procedure declares, which are added to a set.
    pub(crate) fn add_declared(
        &self,
        callee: u32,
        set: &mut ExceptionSet,
    ) -> Result<Raised, AllocError>
        requires { set.old.bound ≡ self.now.bound }
        ensures bound { set.new.bound ≡ set.old.bound }
        ensures summary { IfOk result (λ summary. summary
            ≡ raised_by (declared_by (procedure_at (program_of self.now.core.now) callee).throws)) }
        ensures added { OnOk result (IsSum (members set.old)
            (is_one_of (declared_by (procedure_at (program_of self.now.core.now) callee).throws))
            (members set.new)) }
    {
        match self.core.procedures.get(callee as usize) {
            None => Ok(Raised::Nothing),
            Some(procedure) => {
                match self.rows.get(callee as usize) {
                    Some(Some(row)) => set.unite(row)?,
                    _ => insert_all(&procedure.throws, set)?,
                }
                Ok(summary_of(&procedure.throws))
            }
        }
    }
}

// The row of declared exceptions, where they are more than the words of a row of all.
fn row_of(alloc: Global, throws: &[Thrown], bound: u32) -> Result<Option<ExceptionSet>, AllocError>
    requires { AreThrownInside bound throws.now }
    ensures bound { IfOk result (HasBound bound) }
    ensures declared { IfOk result (λ row. (exception : ℕ) →
        says row (exceptions_of throws.now) exception
        ≡ is_one_of (exceptions_of throws.now) exception) }
{
    if throws.len() <= bound as usize / 64 {
        return Ok(None);
    }
    let mut row = ExceptionSet::new(alloc, bound);
    insert_all(throws, &mut row)?;
    Ok(Some(row))
}

// Adds declared exceptions to a set.
fn insert_all(throws: &[Thrown], set: &mut ExceptionSet) -> Result<(), AllocError>
    requires { AreThrownInside set.old.bound throws.now }
    ensures bound { set.new.bound ≡ set.old.bound }
    ensures added { OnOk result (IsSum (members set.old)
        (is_one_of (exceptions_of throws.now)) (members set.new)) }
{
    for thrown in throws {
        set.insert(thrown.exception)?;
    }
    Ok(())
}

// The summary of declared exceptions.
fn summary_of(throws: &[Thrown]) -> Raised
    ensures { result ≡ raised_by (exceptions_of throws.now) }
{
    let mut summary = Raised::Nothing;
    for thrown in throws {
        if let Raised::Several = summary {
            return summary;
        }
        summary = summary.join(Raised::One(thrown.exception));
    }
    summary
}
