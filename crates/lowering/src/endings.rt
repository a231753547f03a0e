//! Whether code may end normally, by the form of what it is made of.
ghost use Rattle.resolved.specs.TreeOf.{block_of, handlers_of, statement_of};
ghost use Rattle.lowering.specs.Code.{block_falls, handlers_fall, jumps_after, jumps_over, statement_falls};
ghost use Rattle.std.specs.Prelude.{◌≡◌};

use resolved::statement::{Handler, Statement};

/// Whether a statement may end normally.
#[cycle(falls)]
fn statement_falls(statement: &Statement) -> bool
    ensures { result ≡ statement_falls (statement_of statement.now) }
{
    match statement {
        Statement::Assign(_, _, _) => true,
        Statement::Clear(_, _) => true,
        Statement::Store(_, _, _, _, _) => true,
        Statement::Receive(_, _, _) => true,
        Statement::Send(_, _, _) => true,
        Statement::Call(_, _, _, _) => true,
        Statement::If(_, _, then_block, else_block) => block_falls(then_block)
            || block_falls(else_block),
        Statement::While(_, _, _, _) => true,
        Statement::Leave(_, _) => false,
        Statement::Return(_, _) => false,
        Statement::Try(_, block, handlers) => block_falls(block) || handlers_fall(handlers),
        Statement::Nested(_, block) => block_falls(block),
    }
}

/// Whether a block may end normally.
#[cycle(falls)]
pub(crate) fn block_falls(block: &[Statement]) -> bool
    ensures { result ≡ block_falls (block_of block.now) }
{
    for statement in block {
        if !statement_falls(statement) {
            return false;
        }
    }
    true
}

/// Whether one of the handlers may end normally.
#[cycle(falls)]
fn handlers_fall(handlers: &[Handler]) -> bool
    ensures { result ≡ handlers_fall (handlers_of handlers.now) }
{
    for handler in handlers {
        if block_falls(&handler.body) {
            return true;
        }
    }
    false
}

/// Whether the first block of an `if` jumps over the second one.
pub(crate) fn jumps_over(then_block: &[Statement], else_block: &[Statement]) -> bool
    ensures { result ≡ jumps_over (block_of then_block.now) (block_of else_block.now) }
{
    !else_block.is_empty() && block_falls(then_block)
}

/// Whether the block of a `try` or a handler jumps over the handlers after it.
pub(crate) fn jumps_after(block: &[Statement], beyond: &[Handler]) -> bool
    ensures { result ≡ jumps_after (block_of block.now) (handlers_of beyond.now) }
{
    !beyond.is_empty() && block_falls(block)
}
