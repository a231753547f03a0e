//! Code of conditions, which goes to a position where the condition has a wanted truth.
ghost use Rattle.common.specs.Functions.{same_truth};
ghost use Rattle.resolved.specs.TreeOf.{expression_of};
ghost use Rattle.lowering.specs.Expressions.{branch_code, branch_size, deciding, test_code, tested, negated, negated_operator, value_code, value_size};
ghost use Rattle.std.specs.Prelude.{OnOk, if◌then◌else◌, length, ◌++◌, ◌+◌, ◌<◌, ◌^◌, ◌≡◌};

use crate::emitter::push;
use crate::instructions::operator_instruction;
use crate::operands::{push_value, value_size};
use common::{Connective, Operator, Prefix};
use modules::{Instruction, MachineOperator};
use resolved::expression::Expression;
use std::alloc::AllocError;

/// The operator that is true exactly where an operator is false; one that gives a number stays.
fn negated_operator(operator: Operator) -> Operator
    ensures { result ≡ negated_operator operator }
{
    match operator {
        Operator::Compute(_) => operator,
        Operator::Compare(comparison) => Operator::Compare(comparison.opposite()),
        Operator::Match(sameness) => Operator::Match(sameness.opposite()),
    }
}

/// The truth at which the left operand of a connective decides.
fn decides_at(connective: Connective) -> bool
    ensures { result ≡ deciding connective }
{
    match connective {
        Connective::And => false,
        Connective::Or => true,
    }
}

/// How many instructions the code has that pushes what is tested.
fn tested_size(wanted: bool, condition: &Expression) -> u32
    requires { value_size (tested wanted (expression_of condition.now)) < 2 ^ 32 }
    ensures { result ≡ value_size (tested wanted (expression_of condition.now)) }
{
    if !wanted {
        return value_size(condition);
    }
    match condition {
        Expression::Integer(_) => value_size(condition) + 1,
        Expression::Logical(_) => value_size(condition),
        Expression::Read(_) => value_size(condition) + 1,
        Expression::Element(_, _, _) => value_size(condition) + 1,
        Expression::Unary(_, _) => value_size(condition) + 1,
        Expression::Binary(_, _) => value_size(condition),
        Expression::Short(_, _) => value_size(condition) + 1,
    }
}

/// How many instructions the code of a condition has.
pub(crate) fn branch_size(wanted: bool, condition: &Expression) -> u32
    requires { branch_size wanted (expression_of condition.now) < 2 ^ 32 }
    ensures { result ≡ branch_size wanted (expression_of condition.now) }
{
    match condition {
        Expression::Integer(_) => tested_size(wanted, condition) + 1,
        Expression::Logical(_) => tested_size(wanted, condition) + 1,
        Expression::Read(_) => tested_size(wanted, condition) + 1,
        Expression::Element(_, _, _) => tested_size(wanted, condition) + 1,
        Expression::Unary(Prefix::Negate, _) => tested_size(wanted, condition) + 1,
        Expression::Unary(Prefix::Not, operand) => branch_size(!wanted, operand),
        Expression::Binary(_, _) => tested_size(wanted, condition) + 1,
        Expression::Short(connective, operands) => {
            branch_size(decides_at(*connective), &operands.0) + branch_size(wanted, &operands.1)
        }
    }
}

/// Adds code that pushes the value of a negated condition.
#[tactic(auto, using(crate::proofs::Appending::growing))]
fn push_negated(code: &mut Vec<Instruction>, condition: &Expression) -> Result<(), AllocError>
    requires { length code.now.items + value_size (negated (expression_of condition.now)) < 2 ^ 32 }
    ensures { OnOk result (code.new.items ≡
        code.old.items ++ value_code (length code.old.items)
        (negated (expression_of condition.now))) }
{
    match condition {
        Expression::Logical(truth) => return push(code, Instruction::PushBoolean(!*truth)),
        Expression::Binary(operator, operands) => {
            push_value(code, &operands.0)?;
            push_value(code, &operands.1)?;
            return push(code, operator_instruction(negated_operator(*operator)));
        }
        Expression::Integer(_) => {}
        Expression::Read(_) => {}
        Expression::Element(_, _, _) => {}
        Expression::Unary(_, _) => {}
        Expression::Short(_, _) => {}
    }
    push_value(code, condition)?;
    push(code, Instruction::Operate(MachineOperator::Not))
}

/// Adds code that goes to the target where what is tested is false.
fn push_test(
    code: &mut Vec<Instruction>,
    wanted: bool,
    target: u32,
    condition: &Expression,
) -> Result<(), AllocError>
    requires { length code.now.items + (value_size (tested wanted (expression_of condition.now))
        + 1) < 2 ^ 32 }
    ensures { OnOk result (code.new.items ≡ code.old.items ++
        test_code wanted (length code.old.items) target (expression_of condition.now)) }
{
    if wanted {
        push_negated(code, condition)?;
    } else {
        push_value(code, condition)?;
    }
    push(code, Instruction::JumpIfFalse(target))
}

/// Where the left operand of a connective goes where it decides: the whole condition then has that truth.
fn inner_target(wanted: bool, decides: bool, target: u32, beyond: u32) -> u32
    ensures { result ≡ (if same_truth wanted decides then target else beyond) }
{
    match (wanted, decides) {
        (true, true) => target,
        (true, false) => beyond,
        (false, true) => beyond,
        (false, false) => target,
    }
}

/// Adds code that goes to the target where the condition has the wanted truth. What stands after that code is given, so that no left
/// operand is measured again for each connective that it stands in.
#[tactic(auto, using(crate::proofs::Appending::growing))]
pub(crate) fn push_branch(
    code: &mut Vec<Instruction>,
    wanted: bool,
    target: u32,
    beyond: u32,
    condition: &Expression,
) -> Result<(), AllocError>
    requires { beyond ≡ length code.now.items + branch_size wanted (expression_of condition.now) }
    ensures { OnOk result (code.new.items ≡ code.old.items ++
        branch_code wanted (length code.old.items) target (expression_of condition.now)) }
{
    match condition {
        Expression::Integer(_) => push_test(code, wanted, target, condition),
        Expression::Logical(_) => push_test(code, wanted, target, condition),
        Expression::Read(_) => push_test(code, wanted, target, condition),
        Expression::Element(_, _, _) => push_test(code, wanted, target, condition),
        Expression::Unary(Prefix::Negate, _) => push_test(code, wanted, target, condition),
        Expression::Unary(Prefix::Not, operand) => {
            push_branch(code, !wanted, target, beyond, operand)
        }
        Expression::Binary(_, _) => push_test(code, wanted, target, condition),
        Expression::Short(connective, operands) => {
            let decides = decides_at(*connective);
            let between = beyond - branch_size(wanted, &operands.1);
            let inner = inner_target(wanted, decides, target, beyond);
            push_branch(code, decides, inner, between, &operands.0)?;
            push_branch(code, wanted, target, beyond, &operands.1)
        }
    }
}
