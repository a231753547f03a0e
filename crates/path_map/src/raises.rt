//! The exceptions that expressions can raise.
ghost use Rattle.path_map.specs.Exits.{raised_by};
ghost use Rattle.path_map.specs.Exceptions.{AreRaised, is_one_of, raised_list};
ghost use Rattle.path_map.specs.Joins.{raises_some};
ghost use Rattle.path_map.specs.Sets.{IsSum, members};
ghost use Rattle.common.specs.declared.exceptions.TheConstants.{BUILT_IN};
ghost use Rattle.resolved.specs.Exits.{divisor_can_raise, index_can_raise, index_raises, is_division, raises};
ghost use Rattle.resolved.specs.TreeOf.{expression_of, some_expression_of};
ghost use Rattle.resolved.specs.Value.{in_range, literal_number};
ghost use Rattle.common.specs.Integers.{is_zero};
ghost use Rattle.std.specs.Prelude.{IfOk, OnOk, map, ℕ, ◌++◌, ◌||◌, ◌≡◌, ◌≤◌, flat_map};

use crate::exits::Raised;
use crate::members::ExceptionSet;
use common::exceptions::{ARITH, BOUNDS};
use common::limits::MAX_INTEGER;
use common::{Arithmetic, Operator, Prefix};
use resolved::expression::Expression;
use std::alloc::AllocError;

/// Whether an expression, or one of several, can raise `Arith` and `Bounds`. It can raise no other exception.
#[derive(Clone, Copy, Debug, PartialEq, Eq)]
pub struct Raises {
    pub arith: bool,
    pub bounds: bool,
}

impl Raises {
    /// No exception.
    pub const NONE: Raises = Raises {
        arith: false,
        bounds: false,
    };

    /// What is raised of this or of another, or of both.
    pub fn or(self, other: Raises) -> Raises
        ensures { (exception : ℕ) →
            is_one_of (raised_list result.arith result.bounds) exception
            ≡ (is_one_of (raised_list self.arith self.bounds) exception
            || is_one_of (raised_list other.arith other.bounds) exception) }
    {
        Raises {
            arith: self.arith || other.arith,
            bounds: self.bounds || other.bounds,
        }
    }

    // The summary of these exceptions, which are added to a set.
    pub(crate) fn add_to(self, set: &mut ExceptionSet) -> Result<Raised, AllocError>
        requires { BUILT_IN ≤ set.old.bound }
        ensures bound { set.new.bound ≡ set.old.bound }
        ensures summary { IfOk result (λ summary. summary
            ≡ raised_by (raised_list self.arith self.bounds)) }
        ensures added { OnOk result (IsSum (members set.old)
            (is_one_of (raised_list self.arith self.bounds)) (members set.new)) }
    {
        if self.arith {
            set.insert(ARITH)?;
        }
        if self.bounds {
            set.insert(BOUNDS)?;
        }
        Ok(match (self.arith, self.bounds) {
            (false, false) => Raised::Nothing,
            (true, false) => Raised::One(ARITH),
            (false, true) => Raised::One(BOUNDS),
            (true, true) => Raised::Several,
        })
    }
}

/// What an expression can raise.
pub fn raises_of(expression: &Expression) -> Raises
    ensures { AreRaised result (raises (expression_of expression.now)) }
{
    match expression {
        Expression::Integer(_) | Expression::Logical(_) | Expression::Read(_) => Raises::NONE,
        Expression::Element(_, length, index) => raises_of(index).or(Raises {
            arith: false,
            bounds: index_can_raise(index, *length),
        }),
        Expression::Unary(_, operand) => raises_of(operand),
        Expression::Binary(operator, operands) => {
            raises_of(&operands.0)
                .or(raises_of(&operands.1))
                .or(Raises {
                    arith: is_division(*operator) && divisor_can_raise(&operands.1),
                    bounds: false,
                })
        }
        Expression::Short(_, operands) => raises_of(&operands.0).or(raises_of(&operands.1)),
    }
}

// What a store into an array of this length can raise.
pub(crate) fn raises_of_store(length: u32, index: &Expression, value: &Expression) -> Raises
    ensures { AreRaised result (raises (expression_of index.now)
        ++ raises (expression_of value.now)
        ++ index_raises (expression_of index.now) length) }
{
    let access = Raises {
        arith: false,
        bounds: index_can_raise(index, length),
    };
    raises_of(index).or(raises_of(value)).or(access)
}

// What an expression can raise, if there is one.
pub(crate) fn raises_of_some(expression: &Option<Expression>) -> Raises
    ensures { AreRaised result (raises_some (some_expression_of expression.now)) }
{
    match expression {
        None => Raises::NONE,
        Some(expression) => raises_of(expression),
    }
}

/// What several expressions can raise.
pub fn raises_of_all(expressions: &[Expression]) -> Raises
    ensures { AreRaised result (flat_map raises (map expression_of expressions.now)) }
{
    let mut found = Raises::NONE;
    for expression in expressions {
        found = found.or(raises_of(expression));
    }
    found
}

/// Whether an index of an array of this length may be out of range: not if it is a literal in range.
pub fn index_can_raise(index: &Expression, length: u32) -> bool
    ensures { result ≡ index_can_raise (expression_of index.now) length }
{
    match index {
        Expression::Integer(literal) => !is_in_range(*literal, length),
        _ => true,
    }
}

// Whether a literal is an index of an array of this length.
fn is_in_range(literal: u32, length: u32) -> bool
    ensures { result ≡ in_range (literal_number literal) length }
{
    literal <= MAX_INTEGER && literal < length
}

/// Whether a divisor may be 0: not if it is a nonzero literal, or a minus sign before one.
pub fn divisor_can_raise(divisor: &Expression) -> bool
    ensures { result ≡ divisor_can_raise (expression_of divisor.now) }
{
    match divisor {
        Expression::Integer(literal) => is_zero(*literal),
        Expression::Unary(Prefix::Negate, operand) => match &**operand {
            Expression::Integer(literal) => is_zero(*literal),
            _ => true,
        },
        _ => true,
    }
}

// Whether a literal is 0.
fn is_zero(literal: u32) -> bool
    ensures { result ≡ is_zero (literal_number literal) }
{
    literal == 0
}

/// Whether an operator divides.
pub fn is_division(operator: Operator) -> bool
    ensures { result ≡ is_division operator }
{
    matches!(
        operator,
        Operator::Compute(Arithmetic::Divide) | Operator::Compute(Arithmetic::Remainder)
    )
}
