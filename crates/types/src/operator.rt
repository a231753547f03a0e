//! What operators are made to.

ghost use Rattle.types.specs.Expressions as spec;
ghost use Rattle.resolved.specs.WellFormed.{prefix_base, same_base};
ghost use Rattle.resolved.specs.TreeOf.{expression_of};
ghost use Rattle.std.specs.Prelude.{IfOk, ◌≡◌};

use common::{BaseType, Comparison, Operator, Prefix};
use resolved::expression::Expression;
use std::alloc::{AllocError, Global};
use syntax::BinaryOperator;

/// Finds the type that an operator wants of its one operand, which is that of its value too.
pub fn base_of_prefix(prefix: Prefix) -> BaseType
    ensures { result ≡ prefix_base prefix }
{
    match prefix {
        Prefix::Negate => BaseType::Int,
        Prefix::Not => BaseType::Boolean,
    }
}

/// Tests whether two types are the same.
pub fn is_same(one: BaseType, other: BaseType) -> bool
    ensures { result ≡ same_base one other }
{
    match (one, other) {
        (BaseType::Int, BaseType::Int) | (BaseType::Boolean, BaseType::Boolean) => true,
        (BaseType::Int, BaseType::Boolean) | (BaseType::Boolean, BaseType::Int) => false,
    }
}

/// Finds the type that both operands of an operator have to have, where the left one has the type `left`.
pub fn operands_base(operator: BinaryOperator, left: BaseType) -> BaseType
    ensures { result ≡ spec.operands_base operator left }
{
    match operator {
        BinaryOperator::Compute(_) => BaseType::Int,
        BinaryOperator::Compare(Comparison::Ordered(_)) => BaseType::Int,
        BinaryOperator::Compare(Comparison::Matched(_)) => left,
        BinaryOperator::Connect(_) => BaseType::Boolean,
    }
}

/// Finds the type of the values that a written operator between its operands gives, where the left one has the type `left`.
pub fn value_base(operator: BinaryOperator, left: BaseType) -> BaseType
    ensures { result ≡ spec.value_base operator left }
{
    match operator {
        BinaryOperator::Compute(_) => BaseType::Int,
        BinaryOperator::Compare(_) | BinaryOperator::Connect(_) => BaseType::Boolean,
    }
}

/// Makes the expression of an operator on its two operands, which both have the type `base` where that is left open.
///
/// # Errors
///
/// Out of memory.
#[inline(always)]
pub fn combine(
    alloc: Global,
    operator: BinaryOperator,
    base: BaseType,
    left: Expression,
    right: Expression,
) -> Result<Expression, AllocError>
    ensures { IfOk result (λ made. expression_of made ≡
        spec.combined operator base (expression_of left) (expression_of right)) }
{
    let operands = Box::new(alloc, (left, right))?;
    Ok(match (operator, base) {
        (BinaryOperator::Compute(operator), _) => {
            Expression::Binary(Operator::Compute(operator), operands)
        }
        (BinaryOperator::Compare(Comparison::Matched(sameness)), BaseType::Boolean) => {
            Expression::Binary(Operator::Match(sameness), operands)
        }
        (BinaryOperator::Compare(comparison), _) => {
            Expression::Binary(Operator::Compare(comparison), operands)
        }
        (BinaryOperator::Connect(connective), _) => Expression::Short(connective, operands),
    })
}
