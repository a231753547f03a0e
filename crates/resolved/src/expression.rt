//! Expressions and what they are made of.

use common::{Connective, Operator, Prefix};

/// A variable, a parameter or an array: a global, or a slot of the frame, by its number.
#[derive(Clone, Copy, Debug, PartialEq, Eq)]
pub enum Variable {
    Global(u32),
    Local(u32),
}

/// An expression. Parentheses leave no trace.
#[derive(Debug, PartialEq, Eq, Drop)]
pub enum Expression {
    /// A number that is written out.
    Integer(u32),
    /// `true` or `false`.
    Logical(bool),
    /// The value of a scalar.
    Read(Variable),
    /// An element: the array, its declared length, and the index.
    Element(Variable, u32, Box<Expression>),
    Unary(Prefix, Box<Expression>),
    /// An operator with both of its operands.
    Binary(Operator, Box<(Expression, Expression)>),
    /// A connective with both of its operands.
    Short(Connective, Box<(Expression, Expression)>),
}
