//! Code of expressions: of their values, and of conditions that go to a position.
ghost use Rattle.resolved.specs.TreeOf.{expression_of};
ghost use Rattle.lowering.specs.Expressions.{arguments_code, arguments_size, rest_of_short, value_code, value_size};
ghost use Rattle.common.specs.declared.operator.Connective.TheVariants.{And, Or};
ghost use Rattle.std.specs.Prelude.{OnOk, length, map, ◌++◌, ◌+◌, ◌<◌, ◌^◌, ◌≡◌};

use crate::emitter::{next_position, push};
use crate::instructions::{load_element_of, load_of, operator_instruction, prefix_instruction};
use common::Connective;
use modules::Instruction;
use resolved::expression::Expression;
use std::alloc::AllocError;

/// How many instructions the code of the expression's value has.
pub(crate) fn value_size(expression: &Expression) -> u32
    requires { value_size (expression_of expression.now) < 2 ^ 32 }
    ensures { result ≡ value_size (expression_of expression.now) }
{
    match expression {
        Expression::Integer(_) => 1,
        Expression::Logical(_) => 1,
        Expression::Read(_) => 1,
        Expression::Element(_, _, index) => value_size(index) + 1,
        Expression::Unary(_, operand) => value_size(operand) + 1,
        Expression::Binary(_, operands) => value_size(&operands.0) + (value_size(&operands.1) + 1),
        Expression::Short(_, operands) => {
            value_size(&operands.0) + (1 + (value_size(&operands.1) + 2))
        }
    }
}

/// Adds code that pushes the value of an expression.
#[cycle(value)]
#[tactic(auto, using(crate::proofs::Appending::growing))]
pub(crate) fn push_value(
    code: &mut Vec<Instruction>,
    expression: &Expression,
) -> Result<(), AllocError>
    requires { length code.now.items + value_size (expression_of expression.now) < 2 ^ 32 }
    ensures { OnOk result (code.new.items ≡
        code.old.items ++ value_code (length code.old.items) (expression_of expression.now)) }
{
    match expression {
        Expression::Integer(literal) => push(code, Instruction::Push(literal.cast_signed())),
        Expression::Logical(truth) => push(code, Instruction::PushBoolean(*truth)),
        Expression::Read(variable) => push(code, load_of(*variable)),
        Expression::Element(array, _, index) => {
            push_value(code, index)?;
            push(code, load_element_of(*array))
        }
        Expression::Unary(prefix, operand) => {
            push_value(code, operand)?;
            push(code, prefix_instruction(*prefix))
        }
        Expression::Binary(operator, operands) => {
            push_value(code, &operands.0)?;
            push_value(code, &operands.1)?;
            push(code, operator_instruction(*operator))
        }
        Expression::Short(connective, operands) => {
            push_value(code, &operands.0)?;
            match connective {
                Connective::And => push_rest_of_and(code, &operands.1),
                Connective::Or => push_rest_of_or(code, &operands.1),
            }
        }
    }
}

/// Adds the code after the left operand of `&&`.
#[cycle(value)]
fn push_rest_of_and(code: &mut Vec<Instruction>, right: &Expression) -> Result<(), AllocError>
    requires { length code.now.items + (1 + (value_size (expression_of right.now) + 2)) < 2 ^ 32 }
    ensures { OnOk result (code.new.items ≡ code.old.items ++
        rest_of_short And (length code.old.items) (value_size (expression_of right.now))
        (λ at. value_code at (expression_of right.now))) }
{
    let decided = next_position(code) + 1 + value_size(right) + 1;
    push(code, Instruction::JumpIfFalse(decided))?;
    push_value(code, right)?;
    push(code, Instruction::Jump(decided + 1))?;
    push(code, Instruction::PushBoolean(false))
}

/// Adds the code after the left operand of `||`.
#[cycle(value)]
fn push_rest_of_or(code: &mut Vec<Instruction>, right: &Expression) -> Result<(), AllocError>
    requires { length code.now.items + (1 + (value_size (expression_of right.now) + 2)) < 2 ^ 32 }
    ensures { OnOk result (code.new.items ≡ code.old.items ++
        rest_of_short Or (length code.old.items) (value_size (expression_of right.now))
        (λ at. value_code at (expression_of right.now))) }
{
    let undecided = next_position(code) + 1 + 1 + 1;
    push(code, Instruction::JumpIfFalse(undecided))?;
    push(code, Instruction::PushBoolean(true))?;
    push(code, Instruction::Jump(undecided + value_size(right)))?;
    push_value(code, right)
}

/// Adds code that pushes the values of arguments, from the left.
pub(crate) fn push_arguments(
    code: &mut Vec<Instruction>,
    arguments: &[Expression],
) -> Result<(), AllocError>
    requires { length code.now.items + arguments_size (map expression_of arguments.now) < 2 ^ 32 }
    ensures { OnOk result (code.new.items ≡ code.old.items ++
        arguments_code (length code.old.items) (map expression_of arguments.now)) }
{
    for argument in arguments {
        push_value(code, argument)?;
    }
    Ok(())
}

/// How many instructions the code of arguments has.
pub(crate) fn arguments_size(arguments: &[Expression]) -> u32
    requires { arguments_size (map expression_of arguments.now) < 2 ^ 32 }
    ensures { result ≡ arguments_size (map expression_of arguments.now) }
{
    let mut size = 0;
    for argument in arguments {
        size += value_size(argument);
    }
    size
}
