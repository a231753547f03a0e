//! Single instructions: those of operators, and those that move values between variables and operands.
ghost use Rattle.lowering.specs.Expressions.{load_element_of, load_of, machine_operator, operator_instruction, prefix_instruction, store_element_of, store_of};
ghost use Rattle.std.specs.Prelude.{◌≡◌};

use common::{Operator, Prefix};
use modules::{Instruction, MachineOperator, Storage};
use resolved::expression::Variable;

/// The instruction of an operator before its operand.
pub(crate) fn prefix_instruction(prefix: Prefix) -> Instruction
    ensures { result ≡ prefix_instruction prefix }
{
    match prefix {
        Prefix::Negate => Instruction::Operate(MachineOperator::Negate),
        Prefix::Not => Instruction::Operate(MachineOperator::Not),
    }
}

/// The instruction of an operator that evaluates both operands.
pub(crate) fn operator_instruction(operator: Operator) -> Instruction
    ensures { result ≡ operator_instruction operator }
{
    Instruction::Operate(machine_operator(operator))
}

fn machine_operator(operator: Operator) -> MachineOperator
    ensures { result ≡ machine_operator operator }
{
    match operator {
        Operator::Compute(operator) => MachineOperator::Compute(operator),
        Operator::Compare(comparison) => MachineOperator::Compare(comparison),
        Operator::Match(sameness) => MachineOperator::Match(sameness),
    }
}

/// The instruction that pushes a scalar.
pub(crate) fn load_of(variable: Variable) -> Instruction
    ensures { result ≡ load_of variable }
{
    match variable {
        Variable::Global(number) => Instruction::Load(Storage::Global, number),
        Variable::Local(slot) => Instruction::Load(Storage::Local, slot),
    }
}

/// The instruction that pops into a scalar.
pub(crate) fn store_of(variable: Variable) -> Instruction
    ensures { result ≡ store_of variable }
{
    match variable {
        Variable::Global(number) => Instruction::Store(Storage::Global, number),
        Variable::Local(slot) => Instruction::Store(Storage::Local, slot),
    }
}

/// The instruction that pushes an element of an array.
pub(crate) fn load_element_of(variable: Variable) -> Instruction
    ensures { result ≡ load_element_of variable }
{
    match variable {
        Variable::Global(number) => Instruction::LoadElement(Storage::Global, number),
        Variable::Local(slot) => Instruction::LoadElement(Storage::Local, slot),
    }
}

/// The instruction that pops into an element of an array.
pub(crate) fn store_element_of(variable: Variable) -> Instruction
    ensures { result ≡ store_element_of variable }
{
    match variable {
        Variable::Global(number) => Instruction::StoreElement(Storage::Global, number),
        Variable::Local(slot) => Instruction::StoreElement(Storage::Local, slot),
    }
}
