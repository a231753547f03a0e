//! The walk along blocks, statements and handlers that adds what is gathered of them.
ghost use Rattle.constraints.specs.ByWalk.{entries_in, IsBlockReadyBy, AreStatementsReadyBy, IsStatementReadyBy, IsFormReadyBy, AreHandlersReadyBy, IsBlockWalkedBy, AreStatementsWalkedBy, IsStatementWalkedBy, IsFormWalkedBy, AreHandlersWalkedBy};
ghost use Rattle.path_map.specs.Exits.{Exits};
ghost use Rattle.resolved.specs.Tree.{Placed, If, Try, While};
ghost use Rattle.resolved.specs.TreeOf.{block_of, expression_of, handlers_of, statement_of};
ghost use Rattle.resolved.specs.declared.statement.Handler.{Handler};
ghost use Rattle.std.specs.Prelude.{IfOk, List, OnOk, drop, length, map, ℕ, ◌∷◌, ◌≡◌};

use crate::around::Context;
use crate::exit_unknowns::{ExitUnknowns, put_back};
use crate::forms::{ArrayStore, CallSite, Demand, LoopSite};
use crate::progress::Progress;
use crate::statements::ProcedureWalk;
use path_map::Exits;
use resolved::expression::Expression;
use resolved::statement::{Exit, Handler, Statement};
use solver::Atom;
use std::alloc::AllocError;

/// Adds what is gathered of a block of its own that is reached at this pc. It takes the block's entries of the path map and its inner
/// unknowns from the progress on, and leaves the exit unknowns of exceptions as they are. It is a precondition that the block is of the
/// program, and that the path map goes on with its entries.
#[cycle(walk)]
pub(crate) fn walk_block(
    walk: &ProcedureWalk,
    block: &[Statement],
    context: Context,
    progress: &mut Progress,
) -> Result<(), AllocError>
    requires { IsBlockReadyBy walk.now context.exit_unknowns.now (block_of block.now) progress.old }
    ensures { OnOk result (IsBlockWalkedBy walk.now context.entry (block_of block.now)
        progress.old progress.new) }
{
    let exits = walk.begin(context, progress)?;
    let exit_unknowns = context.exit_unknowns.within_single(exits.is_single());
    let inner = Context {
        exit_unknowns: &exit_unknowns,
        ..context
    };
    walk_statements(walk, block, inner, progress)?;
    Ok(())
}

// Walks along the statements of a block.
#[cycle(walk)]
fn walk_statements(
    walk: &ProcedureWalk,
    block: &[Statement],
    context: Context,
    progress: &mut Progress,
) -> Result<(), AllocError>
    requires { AreStatementsReadyBy walk.now context.exit_unknowns.now (block_of block.now)
        progress.old }
    ensures { OnOk result (AreStatementsWalkedBy walk.now context.entry (block_of block.now)
        progress.old progress.new) }
{
    let mut reached = true;
    let mut onward = context.pc;
    for statement in block {
        let number = progress.make(1);
        let here = Context {
            pc: onward,
            ..context
        };
        let exits = walk_statement(walk, statement, number, here, progress)?;
        reached = exits.normal;
        onward = walk.onward_pc(exits, onward, number);
    }
    let end = Context {
        pc: onward,
        ..context
    };
    walk.end_block(reached, end, progress)?;
    Ok(())
}

// Walks past a statement, and gives its possible exits. Its normal exit has the exit unknown with this number.
#[cycle(walk)]
fn walk_statement(
    walk: &ProcedureWalk,
    statement: &Statement,
    number: u32,
    context: Context,
    progress: &mut Progress,
) -> Result<Exits, AllocError>
    requires { IsStatementReadyBy walk.now context.exit_unknowns.now (statement_of statement.now)
        progress.old }
    ensures exits { IfOk result (λ exits. (first : Exits) (left : List Exits) →
        drop progress.old.index (entries_in walk.now) ≡ first ∷ left → exits ≡ first) }
    ensures added { OnOk result (IsStatementWalkedBy walk.now context.entry number
        (statement_of statement.now) progress.old progress.new) }
{
    let exit_unknowns = context.exit_unknowns.with_normal(None);
    let exits = walk.begin(
        Context {
            exit_unknowns: &exit_unknowns,
            ..context
        },
        progress,
    )?;
    let exit_unknowns = context
        .exit_unknowns
        .with_normal(Some(number))
        .within_single(exits.is_single());
    walk_form(
        walk,
        statement,
        Context {
            exit_unknowns: &exit_unknowns,
            ..context
        },
        progress,
    )?;
    Ok(exits)
}

// Walks past a statement, by its form.
// A call, so that the walk along a block keeps what it needs at hand.
#[inline(never)]
#[cycle(walk)]
fn walk_form(
    walk: &ProcedureWalk,
    statement: &Statement,
    context: Context,
    progress: &mut Progress,
) -> Result<(), AllocError>
    requires { IsFormReadyBy walk.now context.exit_unknowns.now (statement_of statement.now)
        progress.old }
    ensures { OnOk result (IsFormWalkedBy walk.now context.entry (statement_of statement.now)
        progress.old progress.new) }
{
    let around = context.around(&progress.thrown);
    match statement {
        Statement::Assign(at, variable, value) => {
            let demand = Demand::of_assignment(*at, walk.procedure, *variable);
            let exit = Exit::Normal;
            walk.add_valued(demand, value, exit, &around, &mut progress.constraints)
        }
        Statement::Clear(at, slot) => {
            walk.add_clear(*at, *slot, &around, &mut progress.constraints)
        }
        Statement::Store(at, array, length, index, value) => {
            let store = ArrayStore::new(*at, *array, *length);
            walk.add_store(store, index, value, &around, &mut progress.constraints)
        }
        Statement::Receive(at, channel, target) => {
            walk.add_receive(*at, *channel, *target, &around, &mut progress.constraints)
        }
        Statement::Send(at, channel, value) => {
            let demand = Demand::of_send(*at, *channel);
            let exit = Exit::Normal;
            walk.add_valued(demand, value, exit, &around, &mut progress.constraints)
        }
        Statement::Call(at, callee, arguments, target) => {
            let site = CallSite::new(*at, *callee, *target);
            walk.walk_call(site, arguments, context, progress)
        }
        Statement::If(_, condition, then_block, else_block) => {
            walk_if(walk, condition, then_block, else_block, context, progress)
        }
        Statement::While(at, number, condition, body) => {
            let site = LoopSite::new(*at, *number);
            walk_while(walk, site, condition, body, context, progress)
        }
        Statement::Leave(at, exit) => {
            walk.add_leave(*at, *exit, &around, &mut progress.constraints)
        }
        Statement::Return(at, value) => {
            walk.add_return(*at, value, &around, &mut progress.constraints)
        }
        Statement::Try(_, block, handlers) => walk_try(walk, block, handlers, context, progress),
        Statement::Nested(_, block) => walk_block(walk, block, context, progress),
    }
}

// Walks past a branch.
#[inline(never)]
#[cycle(walk)]
fn walk_if(
    walk: &ProcedureWalk,
    condition: &Expression,
    then_block: &[Statement],
    else_block: &[Statement],
    context: Context,
    progress: &mut Progress,
) -> Result<(), AllocError>
    requires { IsFormReadyBy walk.now context.exit_unknowns.now
        (Placed 0 (If (expression_of condition.now) (block_of then_block.now)
        (block_of else_block.now))) progress.old }
    ensures { OnOk result ((at : ℕ) →
        IsFormWalkedBy walk.now context.entry
        (Placed at (If (expression_of condition.now) (block_of then_block.now)
        (block_of else_block.now))) progress.old progress.new) }
{
    let number = walk.begin_branch(condition, context, progress)?;
    let pc = Atom::Unknown(number);
    let inner = Context { pc, ..context };
    walk_block(walk, then_block, inner, progress)?;
    walk_block(walk, else_block, inner, progress)?;
    Ok(())
}

// Walks past a loop with this number.
#[inline(never)]
#[cycle(walk)]
fn walk_while(
    walk: &ProcedureWalk,
    site: LoopSite,
    condition: &Expression,
    body: &[Statement],
    context: Context,
    progress: &mut Progress,
) -> Result<(), AllocError>
    requires { IsFormReadyBy walk.now context.exit_unknowns.now
        (Placed site.at (While site.number (expression_of condition.now) (block_of body.now)))
        progress.old }
    ensures { OnOk result (IsFormWalkedBy walk.now context.entry
        (Placed site.at (While site.number (expression_of condition.now) (block_of body.now)))
        progress.old progress.new) }
{
    let (inner, back) = walk.begin_loop(site, condition, context, progress)?;
    let exit_unknowns = context.exit_unknowns.in_loop(back);
    let inside = Context {
        pc: Atom::Unknown(inner),
        exit_unknowns: &exit_unknowns,
    };
    walk_block(walk, body, inside, progress)?;
    walk.end_loop(site, back, progress)?;
    Ok(())
}

// Walks past a `try`.
#[inline(never)]
#[cycle(walk)]
fn walk_try(
    walk: &ProcedureWalk,
    block: &[Statement],
    handlers: &[Handler],
    context: Context,
    progress: &mut Progress,
) -> Result<(), AllocError>
    requires { IsFormReadyBy walk.now context.exit_unknowns.now
        (Placed 0 (Try (block_of block.now) (handlers_of handlers.now))) progress.old }
    ensures { OnOk result ((at : ℕ) →
        IsFormWalkedBy walk.now context.entry
        (Placed at (Try (block_of block.now) (handlers_of handlers.now)))
        progress.old progress.new) }
{
    let tried = walk.begin_try(handlers, *context.exit_unknowns, progress)?;
    let inside = Context {
        exit_unknowns: &tried.exit_unknowns,
        ..context
    };
    walk_block(walk, block, inside, progress)?;
    put_back(tried.saved, &mut progress.thrown);
    progress
        .journal
        .note_exceptions(handlers, &progress.thrown)?;
    walk_handlers(
        walk,
        handlers,
        &tried.numbers,
        context.exit_unknowns,
        progress,
    )?;
    Ok(())
}

// Walks along the bodies of handlers, each of which is reached at the inner unknown with its number.
#[cycle(walk)]
fn walk_handlers(
    walk: &ProcedureWalk,
    handlers: &[Handler],
    numbers: &[u32],
    exit_unknowns: &ExitUnknowns,
    progress: &mut Progress,
) -> Result<(), AllocError>
    requires numbered { length numbers.now ≡ length handlers.now }
    requires ready { AreHandlersReadyBy walk.now exit_unknowns.now (handlers_of handlers.now)
        progress.old }
    ensures { OnOk result ((number : ℕ → ℕ) (pc : Atom) →
        numbers.now ≡ map (λ (handler : Handler). number handler.exception) handlers.now →
        AreHandlersWalkedBy walk.now pc exit_unknowns.now number (handlers_of handlers.now)
        progress.old progress.new) }
{
    for (i, handler) in handlers.iter().enumerate() {
        let pc = Atom::Unknown(numbers[i]);
        walk_block(walk, &handler.body, Context { pc, exit_unknowns }, progress)?;
    }
    Ok(())
}
