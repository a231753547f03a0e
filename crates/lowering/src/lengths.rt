//! How many instructions the code of statements, blocks and handlers has.
ghost use Rattle.resolved.specs.CoreOf.{program_of};
ghost use Rattle.resolved.specs.Program.{procedure_at};
ghost use Rattle.resolved.specs.TreeOf.{block_of, handlers_of, some_expression_of, statement_of};
ghost use Rattle.lowering.specs.Code.{block_size, handlers_size, jump_size, result_size, return_size, statement_size};
ghost use Rattle.std.specs.Prelude.{◌<◌, ◌^◌, ◌≡◌};

use crate::actions::gives_value;
use crate::conditions::branch_size;
use crate::endings::{jumps_after, jumps_over};
use crate::operands::{arguments_size, value_size};
use resolved::expression::Expression;
use resolved::program::Core;
use resolved::statement::{Handler, Statement};

/// How many instructions a jump has, where one is wanted.
pub(crate) fn jump_size(wanted: bool) -> u32
    ensures { result ≡ jump_size wanted }
{
    if wanted { 1 } else { 0 }
}

/// How many instructions store or drop the value of a call.
fn result_size(core: &Core, procedure: u32) -> u32
    ensures { result ≡ result_size (procedure_at (program_of core.now) procedure).result }
{
    if gives_value(core, procedure) { 1 } else { 0 }
}

/// How many instructions the code of `return e;` or `return;` has.
fn return_size(value: &Option<Expression>) -> u32
    requires { return_size (some_expression_of value.now) < 2 ^ 32 }
    ensures { result ≡ return_size (some_expression_of value.now) }
{
    match value {
        None => 1,
        Some(value) => value_size(value) + 1,
    }
}

/// How many instructions the code of a statement has.
#[cycle(size)]
#[tactic(auto, using(crate::proofs::Forms::size_forms))]
fn statement_size(core: &Core, statement: &Statement) -> u32
    requires { statement_size (program_of core.now) (statement_of statement.now) < 2 ^ 32 }
    ensures { result ≡ statement_size (program_of core.now) (statement_of statement.now) }
{
    match statement {
        Statement::Assign(_, _, value) => value_size(value) + 1,
        Statement::Clear(_, _) => 1,
        Statement::Store(_, _, _, index, value) => value_size(index) + (value_size(value) + 1),
        Statement::Receive(_, _, _) => 2,
        Statement::Send(_, _, value) => value_size(value) + 1,
        Statement::Call(_, procedure, arguments, _) => {
            arguments_size(arguments) + (1 + result_size(core, *procedure))
        }
        Statement::If(_, condition, then_block, else_block) => {
            let jump = jump_size(jumps_over(then_block, else_block));
            let test = branch_size(false, condition);
            let yes_size = block_size(core, then_block);
            let no_size = block_size(core, else_block);
            test + (yes_size + (jump + no_size))
        }
        Statement::While(_, _, condition, body) => {
            let test = branch_size(true, condition);
            let body_size = block_size(core, body);
            1 + (body_size + test)
        }
        Statement::Leave(_, _) => 1,
        Statement::Return(_, value) => return_size(value),
        Statement::Try(_, block, handlers) => {
            let jump = jump_size(jumps_after(block, handlers));
            let tried_size = block_size(core, block);
            let caught_size = handlers_size(core, handlers);
            tried_size + (jump + caught_size)
        }
        Statement::Nested(_, block) => block_size(core, block),
    }
}

/// How many instructions the code of a block has.
#[cycle(size)]
#[tactic(auto, using(crate::proofs::Forms::size_forms))]
pub(crate) fn block_size(core: &Core, block: &[Statement]) -> u32
    requires { block_size (program_of core.now) (block_of block.now) < 2 ^ 32 }
    ensures { result ≡ block_size (program_of core.now) (block_of block.now) }
{
    let mut size = 0;
    for statement in block {
        size += statement_size(core, statement);
    }
    size
}

/// How many instructions the code of handlers has.
#[cycle(size)]
#[tactic(auto, using(crate::proofs::Forms::size_forms))]
pub(crate) fn handlers_size(core: &Core, handlers: &[Handler]) -> u32
    requires { handlers_size (program_of core.now) (handlers_of handlers.now) < 2 ^ 32 }
    ensures { result ≡ handlers_size (program_of core.now) (handlers_of handlers.now) }
{
    let mut size = 0;
    let mut next = 0;
    for handler in handlers {
        next += 1;
        let jump = jump_size(jumps_after(&handler.body, &handlers[next..]));
        size += block_size(core, &handler.body) + jump;
    }
    size
}
