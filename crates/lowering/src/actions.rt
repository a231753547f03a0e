//! Code of statements without blocks.
ghost use Rattle.resolved.specs.CoreOf.{program_of};
ghost use Rattle.resolved.specs.Program.{procedure_at};
ghost use Rattle.resolved.specs.TreeOf.{expression_of, some_expression_of};
ghost use Rattle.modules.specs.declared.instruction.Instruction.TheVariants as instruction;
ghost use Rattle.lowering.specs.Code.{kept_code, result_code, result_size, return_code, return_size};
ghost use Rattle.lowering.specs.Expressions.{arguments_code, arguments_size, store_element_of, store_of, value_code, value_size};
ghost use Rattle.std.specs.Prelude.{OnOk, [], if◌then◌else◌, length, map, ◌++◌, ◌+◌, ◌<◌, ◌^◌, ◌∷◌, ◌≡◌};

use crate::emitter::push;
use crate::instructions::{store_element_of, store_of};
use crate::operands::{push_arguments, push_value};
use modules::Instruction;
use resolved::expression::{Expression, Variable};
use resolved::program::Core;
use std::alloc::AllocError;

/// Adds the code of `x = e;`.
pub(crate) fn push_assign(
    code: &mut Vec<Instruction>,
    variable: Variable,
    value: &Expression,
) -> Result<(), AllocError>
    requires { length code.now.items + (value_size (expression_of value.now) + 1) < 2 ^ 32 }
    ensures { OnOk result (code.new.items ≡ code.old.items ++
        (value_code (length code.old.items) (expression_of value.now) ++ store_of variable ∷ [])) }
{
    push_value(code, value)?;
    push(code, store_of(variable))
}

/// Adds the code of `a[i] = e;`.
#[tactic(auto, using(crate::proofs::Appending::growing))]
pub(crate) fn push_store(
    code: &mut Vec<Instruction>,
    array: Variable,
    index: &Expression,
    value: &Expression,
) -> Result<(), AllocError>
    requires { length code.now.items
        + (value_size (expression_of index.now) + (value_size (expression_of value.now) + 1))
        < 2 ^ 32 }
    ensures { OnOk result (code.new.items ≡ code.old.items ++
        (value_code (length code.old.items) (expression_of index.now)
        ++ (value_code (length code.old.items + value_size (expression_of index.now))
        (expression_of value.now)
        ++ store_element_of array ∷ []))) }
{
    push_value(code, index)?;
    push_value(code, value)?;
    push(code, store_element_of(array))
}

/// The instruction that stores a value or drops it.
fn kept_code(target: Option<Variable>) -> Instruction
    ensures { result ≡ kept_code target }
{
    match target {
        None => Instruction::Pop,
        Some(variable) => store_of(variable),
    }
}

/// Adds the code of `x = receive c;`, or of `receive c;`.
pub(crate) fn push_receive(
    code: &mut Vec<Instruction>,
    channel: u32,
    target: Option<Variable>,
) -> Result<(), AllocError>
    ensures { OnOk result (code.new.items ≡
        code.old.items ++ instruction.Receive channel ∷ kept_code target ∷ []) }
{
    push(code, Instruction::Receive(channel))?;
    push(code, kept_code(target))
}

/// Adds the code of `send c, e;`.
pub(crate) fn push_send(
    code: &mut Vec<Instruction>,
    channel: u32,
    value: &Expression,
) -> Result<(), AllocError>
    requires { length code.now.items + (value_size (expression_of value.now) + 1) < 2 ^ 32 }
    ensures { OnOk result (code.new.items ≡ code.old.items ++
        (value_code (length code.old.items) (expression_of value.now)
        ++ instruction.Send channel ∷ [])) }
{
    push_value(code, value)?;
    push(code, Instruction::Send(channel))
}

/// Whether a procedure gives a value. One that is not there gives none.
pub(crate) fn gives_value(core: &Core, procedure: u32) -> bool
    ensures { (if result then 1 else 0)
        ≡ result_size (procedure_at (program_of core.now) procedure).result }
{
    match core.procedures.get(procedure as usize) {
        None => false,
        Some(callee) => callee.result.is_some(),
    }
}

/// Adds the code of a call.
pub(crate) fn push_call(
    core: &Core,
    code: &mut Vec<Instruction>,
    procedure: u32,
    arguments: &[Expression],
    target: Option<Variable>,
) -> Result<(), AllocError>
    requires { length code.now.items + arguments_size (map expression_of arguments.now) < 2 ^ 32 }
    ensures { OnOk result (code.new.items ≡ code.old.items ++
        (arguments_code (length code.old.items) (map expression_of arguments.now)
        ++ instruction.Call procedure
        ∷ result_code (procedure_at (program_of core.now) procedure).result target)) }
{
    push_arguments(code, arguments)?;
    push(code, Instruction::Call(procedure))?;
    if gives_value(core, procedure) {
        push(code, kept_code(target))?;
    }
    Ok(())
}

/// Adds the code of `return e;` or `return;`.
pub(crate) fn push_return(
    code: &mut Vec<Instruction>,
    value: &Option<Expression>,
) -> Result<(), AllocError>
    requires { length code.now.items + return_size (some_expression_of value.now) < 2 ^ 32 }
    ensures { OnOk result (code.new.items ≡ code.old.items ++
        return_code (length code.old.items) (some_expression_of value.now)) }
{
    match value {
        None => push(code, Instruction::Return),
        Some(value) => {
            push_value(code, value)?;
            push(code, Instruction::ReturnValue)
        }
    }
}
