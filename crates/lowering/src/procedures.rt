//! Procedures: what they take and give, the slots of their frames, their code and their handlers.
ghost use Rattle.labels.specs.Label.{Label};
ghost use Rattle.resolved.specs.CoreOf.{program_of};
ghost use Rattle.resolved.specs.ProgramOf.{procedure_entry, result_entry, slot_entry};
ghost use Rattle.resolved.specs.TreeOf.{block_of};
ghost use Rattle.lowering.specs.Code.{block_size};
ghost use Rattle.lowering.specs.Graphs.{end_code, procedure_contents};
ghost use Rattle.lowering.specs.Interface.{declared_slot, returned_kind, slot_contents};
ghost use Rattle.std.specs.Prelude.{IfOk, List, OnOk, map, ◌++◌, ◌+◌, ◌<◌, ◌^◌, ◌≡◌};

use crate::emission::{LoopPositions, push_block};
use crate::emitter::push;
use crate::endings::block_falls;
use crate::threading::thread;
use common::BaseType;
use modules::{Instruction, Procedure, Slot};
use resolved::program::Core;
use resolved::tables;
use std::alloc::{AllocError, Global};

/// A slot for values of a base type: one, or as many as an array has elements.
fn declared_slot(base: BaseType, size: Option<u32>) -> Slot
    ensures { result ≡ declared_slot base size }
{
    match size {
        None => Slot::Scalar(base),
        Some(count) => Slot::Array(base, count),
    }
}

/// The slots of a frame, in their order.
fn slots_of(alloc: Global, slots: &[tables::Slot]) -> Result<Vec<Slot>, AllocError>
    ensures { (labels : List Label) → IfOk result (λ made.
        made.items ≡ map slot_contents (map (slot_entry labels) slots.now)) }
{
    let mut made = Vec::with_capacity(alloc, slots.len())?;
    for slot in slots {
        made.push(declared_slot(slot.base, slot.size))?;
    }
    Ok(made)
}

/// The kind of value that a procedure gives, if it gives one.
fn returned_kind(given: &Option<tables::ResultType>) -> Option<BaseType>
    ensures { (labels : List Label) → result ≡ returned_kind (result_entry labels given.now) }
{
    given.as_ref().map(|given| given.base)
}

/// Adds a return, where a body may end normally.
fn push_end(code: &mut Vec<Instruction>, falls: bool) -> Result<(), AllocError>
    ensures { OnOk result (code.new.items ≡ code.old.items ++ end_code falls) }
{
    if falls {
        push(code, Instruction::Return)?;
    }
    Ok(())
}

/// The procedure of a graph for a procedure of a program. Its code is first put where that of others was, so that no list grows anew for
/// each procedure.
fn procedure_of(
    alloc: Global,
    core: &Core,
    code: &mut Vec<Instruction>,
    procedure: &tables::Procedure,
) -> Result<Procedure, AllocError>
    requires { block_size (program_of core.now) (block_of procedure.now.body.items) + 1 < 2 ^ 32 }
    ensures { IfOk result (λ made. made ≡ procedure_contents (program_of core.now)
        (procedure_entry core.now.labels procedure.now)) }
{
    let outside = LoopPositions { beyond: 0, test: 0 };
    let mut handlers = Vec::new(alloc);
    code.clear();
    push_block(core, outside, code, &mut handlers, &procedure.body)?;
    push_end(code, block_falls(&procedure.body))?;
    let code = thread(alloc, code)?;
    let returned = returned_kind(&procedure.result);
    let slots = slots_of(alloc, &procedure.slots)?;
    Ok(Procedure::new(returned, procedure.parameters, slots, code, handlers))
}

/// The procedures of a graph, in the order of the program's.
pub(crate) fn procedures_of(alloc: Global, core: &Core) -> Result<Vec<Procedure>, AllocError>
    ensures { IfOk result (λ made. made.items
        ≡ map (procedure_contents (program_of core.now)) (program_of core.now).procedures) }
{
    let mut code = Vec::new(alloc);
    let mut made = Vec::with_capacity(alloc, core.procedures.len())?;
    for procedure in &core.procedures {
        made.push(procedure_of(alloc, core, &mut code, procedure)?)?;
    }
    Ok(made)
}
