//! Code of statements, blocks and handlers.
ghost use Rattle.resolved.specs.CoreOf.{program_of};
ghost use Rattle.resolved.specs.TreeOf.{block_of, expression_of, handlers_of, statement_of};
ghost use Rattle.lowering.specs.Added.{AreHandlersAdded, IsBlockAdded, IsStatementAdded};
ghost use Rattle.lowering.specs.Code.{Loop, block_size, entry_of, handlers_size, jump_code, leave_code, statement_size};
ghost use Rattle.resolved.specs.Tree.{Placed, If, Try, While};
ghost use Rattle.std.specs.Prelude.{OnOk, length, ◌++◌, ◌+◌, ◌<◌, ◌^◌, ◌≡◌};

use crate::actions::{push_assign, push_call, push_receive, push_return, push_send, push_store};
use crate::conditions::{branch_size, push_branch};
use crate::emitter::{next_position, push};
use crate::endings::{jumps_after, jumps_over};
use crate::lengths::{block_size, handlers_size, jump_size};
use modules::{Handler, Instruction};
use resolved::expression::Expression;
use resolved::program::Core;
use resolved::statement::{self, Exit, Statement};
use std::alloc::AllocError;

/// Where `break` and `continue` go: after the innermost loop, and to its test.
#[derive(Clone, Copy)]
pub(crate) struct LoopPositions {
    pub beyond: u32,
    pub test: u32,
}

/// The block of a `try`, from its first instruction to the position after its last one, and where code goes after its handlers.
#[derive(Clone, Copy)]
struct TryPositions {
    start: u32,
    end: u32,
    beyond: u32,
}

/// The condition of an `if`, and its blocks: for where it holds, and for where it does not.
#[derive(Clone, Copy)]
struct Branches<'a> {
    condition: &'a Expression,
    then_block: &'a [Statement],
    else_block: &'a [Statement],
}

/// The instruction of `break`, `continue` and `throw`.
fn leave_code(around: LoopPositions, exit: Exit) -> Instruction
    ensures { result ≡ leave_code (record { beyond = around.beyond; test = around.test }) exit }
{
    match exit {
        Exit::Normal => Instruction::Return,
        Exit::Return => Instruction::Return,
        Exit::Break => Instruction::Jump(around.beyond),
        Exit::Continue => Instruction::Jump(around.test),
        Exit::Throw(exception) => Instruction::Throw(exception),
    }
}

/// Adds a jump, where one is wanted.
fn push_jump(code: &mut Vec<Instruction>, wanted: bool, target: u32) -> Result<(), AllocError>
    ensures { OnOk result (code.new.items ≡ code.old.items ++ jump_code wanted target) }
{
    if wanted {
        push(code, Instruction::Jump(target))?;
    }
    Ok(())
}

/// Adds the entry of a catch, unless no instruction stands in the block.
fn push_entry(
    table: &mut Vec<Handler>,
    tried: TryPositions,
    exception: u32,
    target: u32,
) -> Result<(), AllocError>
    ensures { OnOk result (table.new.items ≡
        table.old.items ++ entry_of tried.start tried.end exception target) }
{
    if tried.start < tried.end {
        table.push(Handler {
            start: tried.start,
            end: tried.end,
            exception,
            target,
        })?;
    }
    Ok(())
}

/// Adds the code of a statement, and the handlers of what is in it.
#[cycle(statement)]
#[tactic(auto, using(crate::proofs::Forms::size_forms, crate::proofs::Adding::grown, crate::proofs::Appending::growing))]
fn push_statement(
    core: &Core,
    around: LoopPositions,
    code: &mut Vec<Instruction>,
    table: &mut Vec<Handler>,
    statement: &Statement,
) -> Result<(), AllocError>
    requires { length code.now.items
        + statement_size (program_of core.now) (statement_of statement.now) < 2 ^ 32 }
    ensures { OnOk result (IsStatementAdded (program_of core.now)
        (record { beyond = around.beyond; test = around.test }) (statement_of statement.now)
        code.old.items code.new.items table.old.items table.new.items) }
{
    match statement {
        Statement::Assign(_, variable, value) => push_assign(code, *variable, value),
        Statement::Clear(_, slot) => push(code, Instruction::Clear(*slot)),
        Statement::Store(_, array, _, index, value) => push_store(code, *array, index, value),
        Statement::Receive(_, channel, target) => push_receive(code, *channel, *target),
        Statement::Send(_, channel, value) => push_send(code, *channel, value),
        Statement::Call(_, procedure, arguments, target) => {
            push_call(core, code, *procedure, arguments, *target)
        }
        Statement::If(_, condition, then_block, else_block) => {
            let branches = Branches {
                condition,
                then_block,
                else_block,
            };
            push_if(core, around, code, table, &branches)
        }
        Statement::While(_, _, condition, body) => push_while(core, code, table, condition, body),
        Statement::Leave(_, exit) => push(code, leave_code(around, *exit)),
        Statement::Return(_, value) => push_return(code, value),
        Statement::Try(_, block, handlers) => {
            push_try(core, around, code, table, block, handlers)
        }
        Statement::Nested(_, block) => push_block(core, around, code, table, block),
    }
}

/// Adds the code of a block.
#[cycle(statement)]
#[tactic(auto, using(crate::proofs::Forms::size_forms, crate::proofs::Adding::grown, crate::proofs::Appending::growing))]
pub(crate) fn push_block(
    core: &Core,
    around: LoopPositions,
    code: &mut Vec<Instruction>,
    table: &mut Vec<Handler>,
    block: &[Statement],
) -> Result<(), AllocError>
    requires { length code.now.items
        + block_size (program_of core.now) (block_of block.now) < 2 ^ 32 }
    ensures { OnOk result (IsBlockAdded (program_of core.now)
        (record { beyond = around.beyond; test = around.test }) (block_of block.now)
        code.old.items code.new.items table.old.items table.new.items) }
{
    for statement in block {
        push_statement(core, around, code, table, statement)?;
    }
    Ok(())
}

/// Adds the code of an `if`.
#[cycle(statement)]
#[tactic(auto, using(crate::proofs::Forms::size_forms, crate::proofs::Adding::grown, crate::proofs::Appending::growing))]
fn push_if(
    core: &Core,
    around: LoopPositions,
    code: &mut Vec<Instruction>,
    table: &mut Vec<Handler>,
    branches: &Branches,
) -> Result<(), AllocError>
    requires { length code.now.items + statement_size (program_of core.now)
        (Placed 0 (If (expression_of branches.now.condition.now)
        (block_of branches.now.then_block.now) (block_of branches.now.else_block.now))) < 2 ^ 32 }
    ensures { OnOk result (IsStatementAdded (program_of core.now)
        (record { beyond = around.beyond; test = around.test })
        (Placed 0 (If (expression_of branches.now.condition.now)
        (block_of branches.now.then_block.now) (block_of branches.now.else_block.now)))
        code.old.items code.new.items table.old.items table.new.items) }
{
    let Branches {
        condition,
        then_block,
        else_block,
    } = *branches;
    let jumps = jumps_over(then_block, else_block);
    let test_end = next_position(code) + branch_size(false, condition);
    let second = test_end + block_size(core, then_block) + jump_size(jumps);
    push_branch(code, false, second, test_end, condition)?;
    push_block(core, around, code, table, then_block)?;
    push_jump(code, jumps, second + block_size(core, else_block))?;
    push_block(core, around, code, table, else_block)
}

/// Adds the code of a loop: a jump to the test, the body, and the test, which goes back to the body.
#[cycle(statement)]
#[tactic(auto, using(crate::proofs::Forms::size_forms, crate::proofs::Adding::grown, crate::proofs::Appending::growing))]
fn push_while(
    core: &Core,
    code: &mut Vec<Instruction>,
    table: &mut Vec<Handler>,
    condition: &Expression,
    body: &[Statement],
) -> Result<(), AllocError>
    requires { length code.now.items + statement_size (program_of core.now)
        (Placed 0 (While 0 (expression_of condition.now) (block_of body.now))) < 2 ^ 32 }
    ensures { OnOk result ((loop : Loop) → IsStatementAdded (program_of core.now) loop
        (Placed 0 (While 0 (expression_of condition.now) (block_of body.now)))
        code.old.items code.new.items table.old.items table.new.items) }
{
    let start = next_position(code) + 1;
    let test = start + block_size(core, body);
    let beyond = test + branch_size(true, condition);
    let inner = LoopPositions { beyond, test };
    push(code, Instruction::Jump(test))?;
    push_block(core, inner, code, table, body)?;
    push_branch(code, true, start, beyond, condition)
}

/// Adds the code of a `try` with its handlers.
#[cycle(statement)]
#[tactic(auto, using(crate::proofs::Forms::size_forms, crate::proofs::Adding::grown, crate::proofs::Appending::growing))]
fn push_try(
    core: &Core,
    around: LoopPositions,
    code: &mut Vec<Instruction>,
    table: &mut Vec<Handler>,
    block: &[Statement],
    handlers: &[statement::Handler],
) -> Result<(), AllocError>
    requires { length code.now.items + statement_size (program_of core.now)
        (Placed 0 (Try (block_of block.now) (handlers_of handlers.now))) < 2 ^ 32 }
    ensures { OnOk result (IsStatementAdded (program_of core.now)
        (record { beyond = around.beyond; test = around.test })
        (Placed 0 (Try (block_of block.now) (handlers_of handlers.now)))
        code.old.items code.new.items table.old.items table.new.items) }
{
    let start = next_position(code);
    push_block(core, around, code, table, block)?;
    let end = next_position(code);
    let jumps = jumps_after(block, handlers);
    let beyond = end + jump_size(jumps) + handlers_size(core, handlers);
    push_jump(code, jumps, beyond)?;
    push_handlers(
        core,
        around,
        TryPositions { start, end, beyond },
        code,
        table,
        handlers,
    )
}

/// Adds the code of handlers, with the entry of each before those of its body.
#[cycle(statement)]
#[tactic(auto, using(crate::proofs::Forms::size_forms, crate::proofs::Adding::grown, crate::proofs::Appending::growing))]
fn push_handlers(
    core: &Core,
    around: LoopPositions,
    tried: TryPositions,
    code: &mut Vec<Instruction>,
    table: &mut Vec<Handler>,
    handlers: &[statement::Handler],
) -> Result<(), AllocError>
    requires { length code.now.items
        + handlers_size (program_of core.now) (handlers_of handlers.now) < 2 ^ 32 }
    ensures { OnOk result (AreHandlersAdded (program_of core.now)
        (record { beyond = around.beyond; test = around.test }) tried.beyond tried.start tried.end
        (handlers_of handlers.now)
        code.old.items code.new.items table.old.items table.new.items) }
{
    let mut next = 0;
    for handler in handlers {
        next += 1;
        push_entry(table, tried, handler.exception, next_position(code))?;
        push_block(core, around, code, table, &handler.body)?;
        push_jump(
            code,
            jumps_after(&handler.body, &handlers[next..]),
            tried.beyond,
        )?;
    }
    Ok(())
}
