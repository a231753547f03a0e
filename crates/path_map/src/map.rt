//! The path map of a program.
ghost use Rattle.common.specs.Answers.{IfRefused};
ghost use Rattle.path_map.specs.EndsOf.{AreEndsOf};
ghost use Rattle.path_map.specs.Exceptions.{exceptions_of};
ghost use Rattle.path_map.specs.FirstFault.{IsFirstEndFault};
ghost use Rattle.path_map.specs.Paths.{HaveSameExits, block_paths};
ghost use Rattle.path_map.specs.Sets.{AreDeclared, members};
ghost use Rattle.resolved.specs.CoreOf.{program_of};
ghost use Rattle.resolved.specs.ExitFaults.{procedure_faults};
ghost use Rattle.resolved.specs.Labelled.{exit_faults};
ghost use Rattle.resolved.specs.ProgramOf.{procedure_entry};
ghost use Rattle.resolved.specs.WellFormed.{procedure_fits};
ghost use Rattle.std.specs.Prelude.{IfErr, IfOk, IsTrue, OnOk, [], is_some, not, ◌&&◌, ◌++◌, ◌||◌, ◌≡◌};

use crate::calls::EndsWalk;
use crate::exits::{Exits, Raised};
use crate::fault::EndFault;
use crate::members::ExceptionSet;
use crate::table::Ends;
use crate::walk::{refuse, walk_block};
use resolved::ExitRefusalKind;
use resolved::program::Core;
use resolved::tables::{Procedure, Thrown};
use std::alloc::Global;

/// The possible exits of each statement and block of a program, or the first fault of its exits. A block has a number before its
/// statements, and a statement before the blocks in it: so a walk over the same program in the order of the text that counts each
/// block and each statement as it comes to it finds its exits under that number.
///
/// It takes time and memory in proportion to the program, and for each statement and block with several exceptions one step more for
/// each 64 exceptions.
pub fn ends(alloc: Global, core: &Core) -> Result<Ends, EndFault>
    ensures found { IfOk result (AreEndsOf (program_of core.now)) }
    ensures accepted { OnOk result (exit_faults (program_of core.now) ≡ []) }
    ensures first_fault { IfErr result (IfRefused
        (IsFirstEndFault (exit_faults (program_of core.now)))) }
{
    let walk = EndsWalk::along(alloc, core)?;
    let mut table = Ends::new(alloc, walk.bound, &core.procedures)?;
    for procedure in &core.procedures {
        walk_procedure(&walk, procedure, &mut table)?;
    }
    Ok(table)
}

// Finds the exits of a procedure's body and of what is in it.
fn walk_procedure(walk: &EndsWalk, procedure: &Procedure, table: &mut Ends) -> Result<(), EndFault>
    requires { let core = walk.now.core.now in
        IsTrue (procedure_fits (program_of core) (procedure_entry core.labels procedure.now)) }
    ensures found { let core = walk.now.core.now in
        OnOk result (HaveSameExits table.new (table.old
        ++ block_paths (program_of core) (procedure_entry core.labels procedure.now).body)) }
    ensures accepted { let core = walk.now.core.now in
        OnOk result (procedure_faults (program_of core)
        (procedure_entry core.labels procedure.now) ≡ []) }
    ensures first_fault { let core = walk.now.core.now in
        IfErr result (IfRefused (IsFirstEndFault (procedure_faults (program_of core)
        (procedure_entry core.labels procedure.now)))) }
{
    let mut raised = ExceptionSet::new(walk.alloc, walk.bound);
    let exits = walk_block(walk, false, &procedure.body, table, &mut raised)?;
    if lacks_value(procedure, exits) {
        return Err(refuse(ExitRefusalKind::NoValueReturned, procedure.at));
    }
    let declared = are_declared(&procedure.throws, &mut raised);
    if lets_out(exits, declared) {
        return Err(refuse(ExitRefusalKind::Undeclared, procedure.at));
    }
    Ok(())
}

// Whether a procedure has a value and its body, with these exits, can end without one.
fn lacks_value(procedure: &Procedure, exits: Exits) -> bool
    ensures { result ≡ (is_some procedure.now.result && exits.normal) }
{
    procedure.result.is_some() && exits.normal
}

// Whether a body with these exits can end as no procedure may. Its exceptions are declared or not.
fn lets_out(exits: Exits, declared: bool) -> bool
    ensures { result ≡ (exits.breaks || (exits.continues || not declared)) }
{
    exits.breaks || exits.continues || !declared
}

// Whether all exceptions of a set are declared. Those that are, are taken out.
fn are_declared(throws: &[Thrown], set: &mut ExceptionSet) -> bool
    ensures { AreDeclared (members set.old)
        (exceptions_of throws.now) result }
{
    for thrown in throws {
        let _there = set.remove(thrown.exception);
    }
    set.summary() == Raised::Nothing
}
