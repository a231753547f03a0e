//! What can be wrong with the exits of a program's statements.

use common::RefusalAt;

/// What is wrong with the exits of a program's statements.
#[derive(Clone, Copy, Debug, PartialEq, Eq, Drop)]
pub enum ExitRefusalKind {
    /// 501: a statement that is never reached.
    Unreachable,
    /// 502: a procedure with a value that can end without one.
    NoValueReturned,
    /// 503: a procedure that lets out an exception which it does not declare.
    Undeclared,
    /// 504: a handler of an exception that is no exit of its block, or that a handler before it has taken.
    NeverRaised,
    /// 505: `break` or `continue` outside a loop.
    OutsideLoop,
}

/// A program whose exits have a fault: what is wrong, and the byte of the token at which it stands.
pub type ExitRefusal = RefusalAt<ExitRefusalKind>;
