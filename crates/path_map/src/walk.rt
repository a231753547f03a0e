//! The walk along a program that finds its exits.
ghost use Rattle.common.specs.Answers.{IfRefused};
ghost use Rattle.path_map.specs.FirstFault.{IsFirstEndFault};
ghost use Rattle.path_map.specs.Exceptions.{AreRaised};
ghost use Rattle.path_map.specs.Sets.{members};
ghost use Rattle.path_map.specs.Walks.{AreHandlersFound, AreLeft, AreThrown, BlockFits, HandlersFit, IsBlockFound, IsFormFound, IsFoundAlone, StatementFits, faults_of_block, faults_of_handlers, faults_within};
ghost use Rattle.common.specs.declared.fault.OrNoMemory.TheVariants.{Refused};
ghost use Rattle.resolved.specs.FaultParts.{may_stand};
ghost use Rattle.resolved.specs.declared.program.Core.{Core};
ghost use Rattle.resolved.specs.CoreOf.{program_of};
ghost use Rattle.resolved.specs.Exits.{declared_by, raises, thrown_exits};
ghost use Rattle.resolved.specs.Program.{procedure_at};
ghost use Rattle.resolved.specs.TreeOf.{expression_of, handlers_of, statement_of};
ghost use Rattle.common.specs.declared.exceptions.TheConstants.{BUILT_IN, END};
ghost use Rattle.resolved.specs.declared.statement.Exit.{Exit};
ghost use Rattle.resolved.specs.declared.statement.Exit.TheVariants.{Normal, Return, Throw};
ghost use Rattle.std.specs.Prelude.{Bool, IfErr, IfOk, IfSome, List, OnOk, [], length, ℕ, ◌++◌, ◌<◌, ◌∷◌, ◌≡◌, ◌≤◌};

use crate::calls::EndsWalk;
use crate::exits::{Exits, Raised};
use crate::fault::EndFault;
use crate::members::ExceptionSet;
use crate::raises::{Raises, raises_of, raises_of_all, raises_of_some, raises_of_store};
use crate::table::Ends;
use common::OrNoMemory;
use common::exceptions::END;
use resolved::expression::Expression;
use resolved::statement::{Exit, Handler, Statement};
use resolved::{ExitRefusal, ExitRefusalKind};
use std::alloc::AllocError;

// Finds the exits of a block and of the statements in it. The block's own entry is the first of the new ones, and that of a statement
// comes before those of the blocks in it. The block's exceptions are added to the set.
#[cycle(walk)]
pub(crate) fn walk_block(
    walk: &EndsWalk,
    in_loop: bool,
    block: &[Statement],
    table: &mut Ends,
    raised: &mut ExceptionSet,
) -> Result<Exits, EndFault>
    requires fits { BlockFits walk.now.core.now block.now }
    requires bound { raised.old.bound ≡ walk.now.bound }
    ensures bound { raised.new.bound ≡ raised.old.bound }
    ensures found { IfOk result (IsBlockFound walk.now.core.now block.now
        table.old table.new (members raised.old) (members raised.new)) }
    ensures accepted { OnOk result (faults_of_block walk.now.core.now in_loop block.now ≡ []) }
    ensures first_fault { IfErr result (IfRefused (IsFirstEndFault
        (faults_of_block walk.now.core.now in_loop block.now))) }
{
    let at = table.reserve()?;
    let mut own = ExceptionSet::new(walk.alloc, walk.bound);
    let mut exits = Exits::go_on_or_raise(Raised::Nothing);
    for statement in block {
        if !may_stand(in_loop, statement) {
            return Err(refuse(ExitRefusalKind::OutsideLoop, statement.at()));
        }
        if !exits.normal {
            return Err(refuse(ExitRefusalKind::Unreachable, statement.at()));
        }
        let place = table.reserve()?;
        if let Some(found) = plain_exits(statement) {
            table.put_plain(place, found);
            exits = exits.then(found);
            continue;
        }
        let mut inner = ExceptionSet::new(walk.alloc, walk.bound);
        let found = walk_form(walk, in_loop, statement, table, &mut inner)?;
        own.unite(&inner)?;
        table.put(place, found, inner, call_of(statement))?;
        exits = exits.then(found);
    }
    raised.unite(&own)?;
    table.put(at, exits, own, None)?;
    Ok(exits)
}

// Finds the exits of a statement, and of the blocks in it.
#[cycle(walk)]
fn walk_form(
    walk: &EndsWalk,
    in_loop: bool,
    statement: &Statement,
    table: &mut Ends,
    raised: &mut ExceptionSet,
) -> Result<Exits, EndFault>
    requires fits { StatementFits walk.now.core.now statement.now }
    requires bound { raised.old.bound ≡ walk.now.bound }
    ensures bound { raised.new.bound ≡ raised.old.bound }
    ensures found { IfOk result (IsFormFound walk.now.core.now statement.now
        table.old table.new (members raised.old) (members raised.new)) }
    ensures accepted { OnOk result (faults_within walk.now.core.now in_loop statement.now ≡ []) }
    ensures first_fault { IfErr result (IfRefused (IsFirstEndFault
        (faults_within walk.now.core.now in_loop statement.now))) }
{
    match statement {
        Statement::Assign(_, _, value) => Ok(go_on(raises_of(value), raised)?),
        Statement::Clear(_, _) => Ok(go_on(Raises::NONE, raised)?),
        Statement::Store(_, _, length, index, value) => {
            Ok(go_on(raises_of_store(*length, index, value), raised)?)
        }
        Statement::Receive(_, _, _) => Ok(receive(raised)?),
        Statement::Send(_, _, value) => Ok(go_on(raises_of(value), raised)?),
        Statement::Call(_, callee, arguments, _) => {
            Ok(call(walk, *callee, raises_of_all(arguments), raised)?)
        }
        Statement::If(_, condition, then_block, else_block) => {
            let tested = test(condition, raised)?;
            let yes = walk_block(walk, in_loop, then_block, table, raised)?;
            let no = walk_block(walk, in_loop, else_block, table, raised)?;
            Ok(tested.join(yes).join(no))
        }
        Statement::While(_, _, condition, body) => {
            let tested = test(condition, raised)?;
            let body = walk_block(walk, true, body, table, raised)?;
            Ok(tested.join(body).of_loop())
        }
        Statement::Leave(_, exit) => Ok(leave(*exit, raised)?),
        Statement::Return(_, value) => Ok(give_back(raises_of_some(value), raised)?),
        Statement::Try(_, block, handlers) => {
            let mut inner = ExceptionSet::new(walk.alloc, walk.bound);
            let tried = walk_block(walk, in_loop, block, table, &mut inner)?;
            let handled = walk_handlers(walk, in_loop, handlers, &mut inner, table, raised)?;
            raised.unite(&inner)?;
            Ok(tried.with(inner.summary()).join(handled))
        }
        Statement::Nested(_, block) => walk_block(walk, in_loop, block, table, raised),
    }
}

// Finds the exits of handlers, of a block that can raise the exceptions of the inner set, and takes out what they handle.
#[cycle(walk)]
fn walk_handlers(
    walk: &EndsWalk,
    in_loop: bool,
    handlers: &[Handler],
    inner: &mut ExceptionSet,
    table: &mut Ends,
    raised: &mut ExceptionSet,
) -> Result<Exits, EndFault>
    requires fits { HandlersFit walk.now.core.now handlers.now }
    requires bound { raised.old.bound ≡ walk.now.bound }
    ensures bound { raised.new.bound ≡ raised.old.bound }
    ensures inner_bound { inner.new.bound ≡ inner.old.bound }
    ensures found { IfOk result (AreHandlersFound walk.now.core.now handlers.now
        table.old table.new (members raised.old) (members raised.new)) }
    ensures left { OnOk result (AreLeft (members inner.old) (members inner.new)
        (handlers_of handlers.now)) }
    ensures accepted { OnOk result ((ends : List Exit) → AreThrown (members inner.old) ends →
        faults_of_handlers walk.now.core.now in_loop ends handlers.now ≡ []) }
    ensures first_fault { IfErr result (λ fault. (ends : List Exit)
        → AreThrown (members inner.old) ends →
        IfRefused (IsFirstEndFault
        (faults_of_handlers walk.now.core.now in_loop ends handlers.now)) fault) }
{
    let mut exits = Exits::raise_only(Raised::Nothing);
    for handler in handlers {
        if !inner.remove(handler.exception) {
            return Err(refuse(ExitRefusalKind::NeverRaised, handler.at));
        }
        let found = walk_block(walk, in_loop, &handler.body, table, raised)?;
        exits = exits.join(found);
    }
    Ok(exits)
}

// The exits of a statement that raises nothing and has no block in it, where that is seen at once. Most statements are so, and no set is
// needed for them.
fn plain_exits(statement: &Statement) -> Option<Exits>
    ensures found { IfSome result (λ exits. (core : Core) (entries : List (List Exit))
        (had : ℕ → Bool) → IsFormFound core statement.now entries entries had had exits) }
    ensures accepted { IfSome result (λ _. (core : Core) (in_loop : Bool) →
        faults_within core in_loop statement.now ≡ []) }
{
    match statement {
        Statement::Assign(_, _, value) => going_on(raises_of(value)),
        Statement::Clear(_, _) => going_on(Raises::NONE),
        Statement::Store(_, _, length, index, value) => {
            going_on(raises_of_store(*length, index, value))
        }
        Statement::Send(_, _, value) => going_on(raises_of(value)),
        _ => None,
    }
}

// The exits of a statement that goes on and raises these exceptions, if they are none.
fn going_on(found: Raises) -> Option<Exits>
    ensures { IfSome result (λ exits. (exceptions : List ℕ) (had : ℕ → Bool) →
        AreRaised found exceptions →
        IsFoundAlone (Normal ∷ thrown_exits exceptions) had had exits) }
{
    if found.arith {
        return None;
    }
    if found.bounds {
        return None;
    }
    Some(Exits::go_on_or_raise(Raised::Nothing))
}

// Of a call, its callee and what its arguments raise.
fn call_of(statement: &Statement) -> Option<(u32, Raises)> {
    match statement {
        Statement::Call(_, callee, arguments, _) => Some((*callee, raises_of_all(arguments))),
        _ => None,
    }
}

// The exits of a statement that goes on or raises these exceptions.
fn go_on(found: Raises, raised: &mut ExceptionSet) -> Result<Exits, AllocError>
    requires { BUILT_IN ≤ raised.old.bound }
    ensures bound { raised.new.bound ≡ raised.old.bound }
    ensures found { IfOk result (λ exits. (exceptions : List ℕ) → AreRaised found exceptions →
        IsFoundAlone (Normal ∷ thrown_exits exceptions)
        (members raised.old) (members raised.new) exits) }
{
    Ok(Exits::go_on_or_raise(found.add_to(raised)?))
}

// The exits of a statement that returns or raises these exceptions.
fn give_back(found: Raises, raised: &mut ExceptionSet) -> Result<Exits, AllocError>
    requires { BUILT_IN ≤ raised.old.bound }
    ensures bound { raised.new.bound ≡ raised.old.bound }
    ensures found { IfOk result (λ exits. (exceptions : List ℕ) → AreRaised found exceptions →
        IsFoundAlone (Return ∷ thrown_exits exceptions)
        (members raised.old) (members raised.new) exits) }
{
    Ok(Exits::return_or_raise(found.add_to(raised)?))
}

// The exits of a condition, for a statement that goes on with its value.
fn test(condition: &Expression, raised: &mut ExceptionSet) -> Result<Exits, AllocError>
    requires { BUILT_IN ≤ raised.old.bound }
    ensures bound { raised.new.bound ≡ raised.old.bound }
    ensures found { IfOk result (IsFoundAlone (thrown_exits (raises (expression_of condition.now)))
        (members raised.old) (members raised.new)) }
{
    Ok(Exits::raise_only(raises_of(condition).add_to(raised)?))
}

// The exits of a receive.
fn receive(raised: &mut ExceptionSet) -> Result<Exits, AllocError>
    requires { BUILT_IN ≤ raised.old.bound }
    ensures bound { raised.new.bound ≡ raised.old.bound }
    ensures found { IfOk result (IsFoundAlone (Normal ∷ Throw END ∷ [])
        (members raised.old) (members raised.new)) }
{
    raised.insert(END)?;
    Ok(Exits::go_on_or_raise(Raised::One(END)))
}

// The exits of a call, with arguments that can raise these exceptions.
#[inline(never)]
fn call(
    walk: &EndsWalk,
    callee: u32,
    arguments: Raises,
    raised: &mut ExceptionSet,
) -> Result<Exits, AllocError>
    requires { raised.old.bound ≡ walk.now.bound }
    ensures bound { raised.new.bound ≡ raised.old.bound }
    ensures found { IfOk result (λ exits. (exceptions : List ℕ) → AreRaised arguments exceptions →
        let declared = declared_by (procedure_at (program_of walk.now.core.now) callee).throws in
        IsFoundAlone (Normal ∷ thrown_exits (exceptions ++ declared))
        (members raised.old) (members raised.new) exits) }
{
    let own = arguments.add_to(raised)?;
    let declared = walk.add_declared(callee, raised)?;
    Ok(Exits::go_on_or_raise(own.join(declared)))
}

// The exits of `break`, `continue` or `throw`.
fn leave(exit: Exit, raised: &mut ExceptionSet) -> Result<Exits, AllocError>
    requires { (exception : ℕ) → exit ≡ Throw exception → exception < raised.old.bound }
    ensures bound { raised.new.bound ≡ raised.old.bound }
    ensures found { IfOk result (IsFoundAlone (exit ∷ [])
        (members raised.old) (members raised.new)) }
{
    let none = Exits::raise_only(Raised::Nothing);
    match exit {
        Exit::Normal => Ok(Exits::go_on_or_raise(Raised::Nothing)),
        Exit::Return => Ok(Exits::return_or_raise(Raised::Nothing)),
        Exit::Break => Ok(Exits {
            breaks: true,
            ..none
        }),
        Exit::Continue => Ok(Exits {
            continues: true,
            ..none
        }),
        Exit::Throw(exception) => {
            raised.insert(exception)?;
            Ok(Exits::raise_only(Raised::One(exception)))
        }
    }
}

// Whether a statement may stand here, in a loop or not.
fn may_stand(in_loop: bool, statement: &Statement) -> bool
    ensures { result ≡ may_stand in_loop (statement_of statement.now) }
{
    in_loop || !matches!(statement, Statement::Leave(_, Exit::Break | Exit::Continue))
}

// Refuses the exits of a program for this reason at this byte.
pub(crate) fn refuse(kind: ExitRefusalKind, at: usize) -> EndFault
    ensures { result ≡ Refused (record { kind = kind; at = at }) }
{
    OrNoMemory::Refused(ExitRefusal { kind, at })
}
