//! The left sides that expressions ask for: the labels of their values, and what decides whether they raise an exception.
ghost use Rattle.constraints.specs.ByTable.{scope_at, program_in, IsJoinedBy};
ghost use Rattle.gathering.specs.Walk.{raise_atoms, raise_atoms_all};
ghost use Rattle.resolved.specs.Exits.{divisor_can_raise, is_division, raises};
ghost use Rattle.resolved.specs.Labelled.{any_of, label_of, one, value_label};
ghost use Rattle.resolved.specs.TreeOf.{expression_of};
ghost use Rattle.std.specs.Prelude.{IfOk, OnOk, map, ◌&&◌, ◌||◌, ◌≡◌};

use crate::table::Table;
use common::Operator;
use path_map::raises::{divisor_can_raise, index_can_raise, is_division};
use resolved::expression::Expression;
use resolved::target::Target;
use solver::Left;
use std::alloc::AllocError;

// A function of its own, so that a proof about its caller need not follow both ways of `||`.
fn either(first: bool, second: bool) -> bool
    ensures { result ≡ (first || second) }
{
    first || second
}

// Whether an operator divides by what may be 0.
fn can_divide_by_zero(operator: Operator, divisor: &Expression) -> bool
    ensures { result
        ≡ (is_division operator && divisor_can_raise (expression_of divisor.now)) }
{
    is_division(operator) && divisor_can_raise(divisor)
}

impl<'a> Table<'a> {
    /// Adds the label of what a rule names.
    #[inline(always)]
    pub fn add_label(&self, target: Target, left: &mut Left) -> Result<(), AllocError>
        ensures { OnOk result (IsJoinedBy self.now (one (label_of (program_in self.now) target))
            left.old.items left.new.items) }
    {
        left.push(self.part(target))?;
        Ok(())
    }

    /// Adds the label of the value of an expression in this procedure.
    pub fn add_value(
        &self,
        procedure: u32,
        expression: &Expression,
        left: &mut Left,
    ) -> Result<(), AllocError>
        ensures { OnOk result (IsJoinedBy self.now
            (value_label (scope_at self.now procedure) (expression_of expression.now))
            left.old.items left.new.items) }
    {
        match expression {
            Expression::Integer(_) | Expression::Logical(_) => Ok(()),
            Expression::Read(variable) => {
                self.add_label(Target::ToVariable(procedure, *variable), left)
            }
            Expression::Element(array, _, index) => {
                self.add_label(Target::ToVariable(procedure, *array), left)?;
                self.add_value(procedure, index, left)
            }
            Expression::Unary(_, operand) => self.add_value(procedure, operand, left),
            Expression::Binary(_, operands) => {
                self.add_value(procedure, &operands.0, left)?;
                self.add_value(procedure, &operands.1, left)
            }
            Expression::Short(_, operands) => {
                self.add_value(procedure, &operands.0, left)?;
                self.add_value(procedure, &operands.1, left)
            }
        }
    }

    /// Adds what decides whether an expression in this procedure raises an exception, each part of it once, and answers whether it can
    /// raise one.
    pub fn add_raise(
        &self,
        procedure: u32,
        expression: &Expression,
        left: &mut Left,
    ) -> Result<bool, AllocError>
        ensures joined { OnOk result (IsJoinedBy self.now
            (raise_atoms (scope_at self.now procedure) (expression_of expression.now))
            left.old.items left.new.items) }
        ensures raises { IfOk result (λ raised. raised
            ≡ any_of (raises (expression_of expression.now))) }
    {
        match expression {
            Expression::Integer(_) | Expression::Logical(_) | Expression::Read(_) => Ok(false),
            Expression::Element(_, length, index) => {
                if index_can_raise(index, *length) {
                    self.add_value(procedure, index, left)?;
                    return Ok(true);
                }
                self.add_raise(procedure, index, left)
            }
            Expression::Unary(_, operand) => self.add_raise(procedure, operand, left),
            Expression::Binary(operator, operands) => {
                let raised = self.add_raise(procedure, &operands.0, left)?;
                if can_divide_by_zero(*operator, &operands.1) {
                    self.add_value(procedure, &operands.1, left)?;
                    return Ok(true);
                }
                let again = self.add_raise(procedure, &operands.1, left)?;
                Ok(either(raised, again))
            }
            Expression::Short(_, operands) => {
                let right = self.add_raise(procedure, &operands.1, left)?;
                if right {
                    self.add_value(procedure, &operands.0, left)?;
                    return Ok(true);
                }
                self.add_raise(procedure, &operands.0, left)
            }
        }
    }

    /// Adds what decides whether one of several expressions in this procedure raises an exception.
    pub fn add_raise_all(
        &self,
        procedure: u32,
        expressions: &[Expression],
        left: &mut Left,
    ) -> Result<(), AllocError>
        ensures { OnOk result (IsJoinedBy self.now
            (raise_atoms_all (scope_at self.now procedure) (map expression_of expressions.now))
            left.old.items left.new.items) }
    {
        for expression in expressions {
            self.add_raise(procedure, expression, left)?;
        }
        Ok(())
    }
}
