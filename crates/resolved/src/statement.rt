//! Statements and handlers.

ghost use Rattle.resolved.specs.FaultParts.{place_of};
ghost use Rattle.resolved.specs.TreeOf.{statement_of};
ghost use Rattle.std.specs.Prelude.{◌≡◌};

use crate::expression::{Expression, Variable};

/// An exit of a statement. Exceptions 0, 1 and 2 are `Arith`, `Bounds` and `End`, the declared ones follow in order.
#[derive(Clone, Copy, Debug, PartialEq, Eq)]
pub enum Exit {
    Normal,
    Return,
    Break,
    Continue,
    Throw(u32),
}

/// A statement. Its first number is the byte at which its first token begins in the source.
#[cycle(ast)]
#[derive(Debug, PartialEq, Eq, Drop)]
pub enum Statement {
    /// `x = e;`, also as a declaration.
    Assign(usize, Variable, Expression),
    /// The declaration of the array in a slot of the frame, which clears it.
    Clear(usize, u32),
    /// `a[i] = e;`: the array, its declared length, the index and the value.
    Store(usize, Variable, u32, Expression, Expression),
    /// `x = receive c;`, or `receive c;` without a target.
    Receive(usize, u32, Option<Variable>),
    /// `send c, e;`
    Send(usize, u32, Expression),
    /// `x = f(..);`, or `f(..);` without a target.
    Call(usize, u32, Vec<Expression>, Option<Variable>),
    If(usize, Expression, Vec<Statement>, Vec<Statement>),
    /// A loop with its number among the loops of the procedure, in the order of the text.
    While(usize, u32, Expression, Vec<Statement>),
    /// `break;`, `continue;` or `throw E;`, by the exit that it takes.
    Leave(usize, Exit),
    Return(usize, Option<Expression>),
    Try(usize, Vec<Statement>, Vec<Handler>),
    Nested(usize, Vec<Statement>),
}

/// A handler: the byte at which the name of its exception begins, the exception, and the body.
#[cycle(ast)]
#[derive(Debug, PartialEq, Eq, Drop)]
pub struct Handler {
    pub at: usize,
    pub exception: u32,
    pub body: Vec<Statement>,
}

impl Statement {
    /// The byte at which the statement begins in the source.
    pub fn at(&self) -> usize
        ensures { result ≡ place_of (statement_of self.now) }
    {
        match self {
            Statement::Assign(at, _, _) => *at,
            Statement::Clear(at, _) => *at,
            Statement::Store(at, _, _, _, _) => *at,
            Statement::Receive(at, _, _) => *at,
            Statement::Send(at, _, _) => *at,
            Statement::Call(at, _, _, _) => *at,
            Statement::If(at, _, _, _) => *at,
            Statement::While(at, _, _, _) => *at,
            Statement::Leave(at, _) => *at,
            Statement::Return(at, _) => *at,
            Statement::Try(at, _, _) => *at,
            Statement::Nested(at, _) => *at,
        }
    }
}
