//! Procedures with byte offsets instead of positions.
ghost use Rattle.modules.specs.Code.{code_length};
ghost use Rattle.layout.specs.Graph.{HasPositions, HasTargetIn, IsHandlerIn};
ghost use Rattle.layout.specs.Offsets.{laid_out_procedure, offset};
ghost use Rattle.layout.specs.Tables.{IsTableOf};
ghost use Rattle.modules.specs.Targets.{renamed_handler, renamed_instruction, target_of};
ghost use Rattle.std.specs.Prelude.{All, IfOk, IfSome, OnOk, length, map, slice_index, ◌<◌, ◌^◌, ◌≡◌};

use modules::{Handler, Instruction, Procedure};
use std::alloc::{AllocError, Global};

/// Makes a table that of the code: the offset of each position, and of the end.
fn fill_table(table: &mut Vec<u32>, code: &[Instruction]) -> Result<(), AllocError>
    requires { code_length code.now < 2 ^ 32 }
    ensures { OnOk result (IsTableOf code.now table.new.items) }
{
    table.clear();
    table.reserve(code.len() + 1)?;
    let mut next = 0;
    for instruction in code {
        table.push(next)?;
        next += instruction.width() as u32;
    }
    table.push(next)?;
    Ok(())
}

/// Puts the offset of its target into an instruction.
fn lay_out_instruction(table: &[u32], instruction: &mut Instruction)
    requires { IfSome (target_of instruction.old) (λ target. target < length table.now) }
    ensures { instruction.new ≡
        renamed_instruction (λ position. slice_index table.now position) instruction.old }
{
    match instruction {
        Instruction::Jump(target) => *target = table[*target as usize],
        Instruction::JumpIfFalse(target) => *target = table[*target as usize],
        _ => {}
    }
}

/// The handler with the offsets of its range and its target.
fn lay_out_handler(table: &[u32], handler: Handler) -> Handler
    requires start { handler.start < length table.now }
    requires end { handler.end < length table.now }
    requires target { handler.target < length table.now }
    ensures { result ≡ renamed_handler (λ position. slice_index table.now position) handler }
{
    Handler {
        start: table[handler.start as usize],
        end: table[handler.end as usize],
        exception: handler.exception,
        target: table[handler.target as usize],
    }
}

/// The code with the offset of each target.
fn lay_out_code(
    alloc: Global,
    table: &[u32],
    code: &[Instruction],
) -> Result<Vec<Instruction>, AllocError>
    requires table { IsTableOf code.now table.now }
    requires targets { All (HasTargetIn code.now) code.now }
    ensures { IfOk result (λ made. made.items ≡ map (renamed_instruction (offset code.now))
        code.now) }
{
    let mut made = Vec::from_slice(alloc, code)?;
    for instruction in made.iter_mut() {
        lay_out_instruction(table, instruction);
    }
    Ok(made)
}

/// The handlers of code with the offsets of their ranges and targets.
fn lay_out_handlers(
    alloc: Global,
    table: &[u32],
    code: &[Instruction],
    handlers: &[Handler],
) -> Result<Vec<Handler>, AllocError>
    requires table { IsTableOf code.now table.now }
    requires handlers { All (IsHandlerIn (length code.now)) handlers.now }
    ensures { IfOk result (λ made. made.items ≡ map (renamed_handler (offset code.now))
        handlers.now) }
{
    let mut made = Vec::with_capacity(alloc, handlers.len())?;
    for handler in handlers {
        made.push(lay_out_handler(table, *handler))?;
    }
    Ok(made)
}

/// The procedure with byte offsets instead of positions. The table of its offsets takes the place of another procedure's.
pub(crate) fn lay_out_procedure(
    alloc: Global,
    table: &mut Vec<u32>,
    procedure: &Procedure,
) -> Result<Procedure, AllocError>
    requires short { code_length procedure.now.code < 2 ^ 32 }
    requires positions { HasPositions procedure.now }
    ensures { IfOk result (λ made. made ≡ laid_out_procedure procedure.now) }
{
    fill_table(table, procedure.code())?;
    let slots = Vec::from_slice(alloc, procedure.slots())?;
    let code = lay_out_code(alloc, table, procedure.code())?;
    let handlers = lay_out_handlers(alloc, table, procedure.code(), procedure.handlers())?;
    Ok(Procedure::new(
        procedure.returned(),
        procedure.parameters(),
        slots,
        code,
        handlers,
    ))
}
