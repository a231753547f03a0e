//! The version of a program's module.
ghost use Rattle.lowering.specs.Interface.{module_version};
ghost use Rattle.resolved.specs.BitUse.{block_uses_bits, expression_uses_bits, handlers_use_bits, procedures_use_bits, statement_uses_bits};
ghost use Rattle.resolved.specs.CoreOf.{program_of};
ghost use Rattle.resolved.specs.TreeOf.{block_of, expression_of, handlers_of, statement_of};
ghost use Rattle.std.specs.List.{list_any};
ghost use Rattle.std.specs.Prelude.{map, ◌≡◌};

use common::{Arithmetic, Operator};
use modules::Version;
use resolved::expression::Expression;
use resolved::program::Core;
use resolved::statement::{Handler, Statement};

/// The version of the module file for a program: the second exactly where the program uses an operator on bits.
pub(crate) fn module_version(core: &Core) -> Version
    ensures { result ≡ module_version (program_of core.now) }
{
    if uses_bits(core) {
        Version::Two
    } else {
        Version::One
    }
}

/// Whether a program uses an operator on bits somewhere.
fn uses_bits(core: &Core) -> bool
    ensures { result ≡ procedures_use_bits (program_of core.now).procedures }
{
    for procedure in &core.procedures {
        if block_uses_bits(&procedure.body) {
            return true;
        }
    }
    false
}

fn expression_uses_bits(expression: &Expression) -> bool
    ensures { result ≡ expression_uses_bits (expression_of expression.now) }
{
    match expression {
        Expression::Integer(_) | Expression::Logical(_) | Expression::Read(_) => false,
        Expression::Element(_, _, index) => expression_uses_bits(index),
        Expression::Unary(_, operand) => expression_uses_bits(operand),
        Expression::Binary(Operator::Compute(Arithmetic::Bits(_)), _) => true,
        Expression::Binary(_, operands) => {
            expression_uses_bits(&operands.0) || expression_uses_bits(&operands.1)
        }
        Expression::Short(_, operands) => {
            expression_uses_bits(&operands.0) || expression_uses_bits(&operands.1)
        }
    }
}

fn arguments_use_bits(arguments: &[Expression]) -> bool
    ensures { result ≡ list_any expression_uses_bits (map expression_of arguments.now) }
{
    for argument in arguments {
        if expression_uses_bits(argument) {
            return true;
        }
    }
    false
}

#[cycle(bits)]
#[tactic(auto, using(crate::proofs::BitForms::bit_forms))]
fn statement_uses_bits(statement: &Statement) -> bool
    ensures { result ≡ statement_uses_bits (statement_of statement.now) }
{
    match statement {
        Statement::Assign(_, _, value) | Statement::Send(_, _, value) => {
            expression_uses_bits(value)
        }
        Statement::Clear(_, _) | Statement::Receive(_, _, _) | Statement::Leave(_, _) => false,
        Statement::Store(_, _, _, index, value) => {
            expression_uses_bits(index) || expression_uses_bits(value)
        }
        Statement::Call(_, _, arguments, _) => arguments_use_bits(arguments),
        Statement::If(_, condition, then_block, else_block) => {
            if expression_uses_bits(condition) {
                return true;
            }
            block_uses_bits(then_block) || block_uses_bits(else_block)
        }
        Statement::While(_, _, condition, body) => {
            expression_uses_bits(condition) || block_uses_bits(body)
        }
        Statement::Return(_, None) => false,
        Statement::Return(_, Some(value)) => expression_uses_bits(value),
        Statement::Try(_, block, handlers) => {
            block_uses_bits(block) || handlers_use_bits(handlers)
        }
        Statement::Nested(_, block) => block_uses_bits(block),
    }
}

#[cycle(bits)]
#[tactic(auto, using(crate::proofs::BitForms::bit_forms))]
fn block_uses_bits(block: &[Statement]) -> bool
    ensures { result ≡ block_uses_bits (block_of block.now) }
{
    for statement in block {
        if statement_uses_bits(statement) {
            return true;
        }
    }
    false
}

#[cycle(bits)]
#[tactic(auto, using(crate::proofs::BitForms::bit_forms))]
fn handlers_use_bits(handlers: &[Handler]) -> bool
    ensures { result ≡ handlers_use_bits (handlers_of handlers.now) }
{
    for handler in handlers {
        if block_uses_bits(&handler.body) {
            return true;
        }
    }
    false
}
