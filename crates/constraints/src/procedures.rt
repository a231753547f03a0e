//! The constraints of procedures.
ghost use Rattle.constraints.specs.ByTable.{AreAddedBy, labels_in, program_in};
ghost use Rattle.constraints.specs.ByWalk.{scope_in, IsWalkOf, IsProcedureReadyBy, IsProcedureWalkedBy};
ghost use Rattle.constraints.specs.Procedures.{AreDeclaredExitUnknowns, StaysInPlace, end_exit_unknowns_of, number_in};
ghost use Rattle.constraints.specs.Ready.{most_unknowns};
ghost use Rattle.constraints.specs.ExitUnknowns.{AreWithin};
ghost use Rattle.constraints.specs.Thinned.{ThinnedWhole};
ghost use Rattle.gathering.specs.Walk.{exit_constraints, has_one_exit, program_constraints, thrown_constraints, unknown_count};
ghost use Rattle.labels.specs.Label.{Label};
ghost use Rattle.path_map.specs.EndsOf.{AreEndsOf};
ghost use Rattle.path_map.specs.Walks.{AreThrownInside};
ghost use Rattle.resolved.specs.ProgramOf.{thrown_entry};
ghost use Rattle.resolved.specs.Labelled.{here};
ghost use Rattle.std.specs.Prelude.{IfOk, List, OnOk, length, map, suc, ℕ, ◌+◌, ◌<◌, ◌≡◌, ◌≤◌};
ghost use Rattle.constraints.specs.declared.exit_unknowns.ExitUnknown.{ExitUnknown};

use crate::around::Context;
use crate::exit_unknowns::{ExitUnknown, ExitUnknowns, entry_in, take};
use crate::journal::Journal;
use crate::lefts::left_of_pc;
use crate::progress::Progress;
use crate::statements::ProcedureWalk;
use crate::table::Table;
use crate::walking::walk_block;
use common::exceptions::BUILT_IN;
use path_map::{Ends, PathMap};
use resolved::tables::{Procedure, Thrown};
use resolved::target::Target;
use solver::{Atom, Constraint, Rule};
use std::alloc::{AllocError, Global};

// Gives exit unknowns to declared exceptions, which have the numbers from this on, at a level that no entry has.
fn take_declared(
    alloc: Global,
    throws: &[Thrown],
    number: u32,
    level: u32,
    thrown: &mut Vec<ExitUnknown>,
) -> Result<(), AllocError>
    requires inside { AreThrownInside (length thrown.old.items) throws.now }
    requires room { number + length throws.now ≤ most_unknowns }
    ensures wide { OnOk result (length thrown.new.items ≡ length thrown.old.items) }
    ensures taken { OnOk result ((labels : List Label) (barrier : ℕ) → barrier < level →
        AreWithin barrier thrown.old.items →
        AreDeclaredExitUnknowns (map (thrown_entry labels) throws.now)
        number level thrown.old.items thrown.new.items) }
{
    // What was there is not put back: its level is not above the barrier of this procedure.
    let mut saved = Vec::new(alloc);
    for (i, declared) in throws.iter().enumerate() {
        let entry = ExitUnknown {
            number: number + i as u32,
            level,
        };
        take(declared.exception, entry, thrown, &mut saved)?;
    }
    Ok(())
}

impl<'a> ProcedureWalk<'a> {
    // Adds the demands on the labels of declared exceptions.
    fn add_declared_demands(
        &self,
        at: usize,
        throws: &[Thrown],
        thrown: &[ExitUnknown],
        constraints: &mut Vec<Constraint<Option<Target>>>,
    ) -> Result<(), AllocError>
        ensures { OnOk result (at ≡ (here (scope_in self.now)).at →
            AreAddedBy self.now.table.now (thrown_constraints (scope_in self.now)
            (number_in thrown.now) (map (thrown_entry (labels_in self.now.table.now)) throws.now))
            constraints.old.items constraints.new.items) }
    {
        for declared in throws {
            let exception = declared.exception;
            let exit_unknown = Atom::Unknown(entry_in(thrown, exception).number);
            let left = left_of_pc(self.alloc, exit_unknown)?;
            let target = Target::ToThrown(self.procedure, exception);
            self.table
                .add_rule(at, Rule::ProcedureExits, left, target, constraints)?;
        }
        Ok(())
    }

    // Adds the demands on the exits of a procedure, of which the first has this number, where it has more than one exit.
    fn add_exit_demands(
        &self,
        procedure: &Procedure,
        number: u32,
        only: bool,
        progress: &mut Progress,
    ) -> Result<(), AllocError>
        ensures unchanged { OnOk result (StaysInPlace progress.old progress.new) }
        ensures added { OnOk result ((level : ℕ) (had : List ExitUnknown) →
            IsWalkOf self.now procedure.now → only ≡ has_one_exit (scope_in self.now) →
            AreDeclaredExitUnknowns (here (scope_in self.now)).throws (suc number) level had
            progress.old.thrown.items →
            AreAddedBy self.now.table.now (exit_constraints (scope_in self.now) number)
            progress.old.constraints.items progress.new.constraints.items) }
    {
        if only {
            return Ok(());
        }
        let left = left_of_pc(self.alloc, Atom::Unknown(number))?;
        let target = Target::ToEnd(self.procedure);
        self.table.add_rule(
            procedure.at,
            Rule::ProcedureExits,
            left,
            target,
            &mut progress.constraints,
        )?;
        self.add_declared_demands(
            procedure.at,
            &procedure.throws,
            &progress.thrown,
            &mut progress.constraints,
        )?;
        Ok(())
    }

    // Adds what is gathered of a procedure. No exit unknown has a level above the barrier.
    fn add_procedure(
        &self,
        procedure: &Procedure,
        barrier: u32,
        progress: &mut Progress,
    ) -> Result<(), AllocError>
        requires { IsProcedureReadyBy self.now barrier procedure.now progress.old }
        ensures { OnOk result (IsWalkOf self.now procedure.now →
            IsProcedureWalkedBy self.now barrier progress.old progress.new) }
    {
        let level = barrier + 1;
        let number = progress.number;
        let first = number + 1;
        progress.number = first + procedure.throws.len() as u32;
        take_declared(
            self.alloc,
            &procedure.throws,
            first,
            level,
            &mut progress.thrown,
        )?;
        progress
            .journal
            .note_exceptions(&procedure.throws, &progress.thrown)?;
        let only = self.exits_at(progress.index).is_single_of_procedure();
        let exit_unknowns = end_exit_unknowns(number, barrier, level, only);
        let begin = self.table.part(Target::ToBegin(self.procedure));
        let context = Context {
            pc: begin,
            exit_unknowns: &exit_unknowns,
        };
        walk_block(self, &procedure.body, context, progress)?;
        self.add_exit_demands(procedure, number, only, progress)?;
        Ok(())
    }
}

// The exit unknowns of the exits of a procedure whose end has this number; none where it has one exit only.
fn end_exit_unknowns(number: u32, barrier: u32, level: u32, only: bool) -> ExitUnknowns
    ensures { result ≡ end_exit_unknowns_of number barrier level only }
{
    if only {
        return ExitUnknowns {
            ends: PathMap::of_all(None, level),
            level,
        };
    }
    ExitUnknowns {
        ends: PathMap {
            normal: Some(number),
            returns: Some(number),
            breaks: None,
            continues: None,
            raised: barrier,
        },
        level,
    }
}

// How many constraints a program has at most in most cases: three for two statements and blocks.
fn usual_count(ends: &Ends) -> usize {
    let count = ends.len();
    count.saturating_add(count / 2)
}

/// What is gathered of all procedures, but for the flows of the exceptions that calls raise, in place of which the calls are noted.
pub(crate) fn walk_procedures(
    alloc: Global,
    table: &Table,
    ends: &Ends,
) -> Result<Progress, AllocError>
    requires mapped { AreEndsOf (program_in table.now) ends.now }
    ensures added { IfOk result (λ progress. ThinnedWhole table.now.core.now (labels_in table.now)
        (program_constraints (program_in table.now)) progress) }
    ensures number { IfOk result (λ progress. progress.number
        ≡ unknown_count (program_in table.now)) }
{
    // The exceptions that are declared come after those that are built in.
    let none = ExitUnknown {
        number: 0,
        level: 0,
    };
    let exceptions = table.core.exceptions.len() + BUILT_IN as usize;
    let mut progress = Progress {
        index: 0,
        number: table.unknowns,
        constraints: Vec::with_capacity(alloc, usual_count(ends))?,
        thrown: vec![in alloc; none; exceptions]?,
        journal: Journal::new(alloc, exceptions)?,
    };
    for (i, procedure) in table.core.procedures.iter().enumerate() {
        let number = i as u32;
        let walk = ProcedureWalk {
            alloc,
            table,
            map: ends,
            procedure: number,
        };
        walk.add_procedure(procedure, number, &mut progress)?;
    }
    Ok(progress)
}
