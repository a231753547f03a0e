//! Statements, and the blocks and handlers that they hold. Each kind of statement is resolved by a call of its own: inlined into the
//! loop over a block, a statement is taken apart and put together again.

ghost use Rattle.types.specs.Statements.{after_block, block_finding, catches_finding, statement_finding, statements_finding};
ghost use Rattle.types.specs.Views.{Resolves, IsLater, at_point, block_view, handlers_view, point_of, setting_of, taken};
ghost use Rattle.resolved.specs.TreeOf.{statement_of};
ghost use Rattle.std.specs.Prelude.{None, OnOk, Some, map, ◌+◌, ◌<◌, ◌≤◌};
ghost use Rattle.syntax.specs.Limits.{most_nodes};
ghost use Rattle.syntax.specs.Nodes.{block_nodes, catches_nodes, statement_nodes, statements_nodes};
ghost use Rattle.syntax.specs.Tree.{NestedTree, TryTree, WhileTree, block_tree, catch_tree, catches_of, expression_tree, if_tree, statement_tree, statements_of};

use crate::body::BodyScope;
use crate::fault::TypeFault;
use crate::scope::{ItemKind, remove_all, require_item};
use common::BaseType;
use resolved::statement::{Exit, Handler, Statement};
use syntax::{Block, Catch};

impl<'a, 'n> BodyScope<'a, 'n> {
    /// Resolves a block. Its locals are in scope to its end and keep their slots; after it the names from before it are in scope
    /// again. Precondition: slots and loops stay within the most nodes of a program.
    ///
    /// # Errors
    ///
    /// The first fault of its statements: 301 to 303, 401 to 403 or 703; or out of memory.
    #[cycle(block)]
    #[tactic(auto, unfolding(crate::specs::Statements::block_finding))]
    pub fn resolve_block(&mut self, written: &Block<'n>) -> Result<Vec<Statement>, TypeFault>
        requires room { taken self.old + block_nodes (block_tree written.now) < most_nodes }
        ensures made { Resolves (at_point self.new block_view) result
            (block_finding (setting_of self.old) (point_of self.old) (block_tree written.now)) }
        ensures later { OnOk result (IsLater self.old self.new) }
        ensures grows { OnOk result (taken self.new ≤
            taken self.old + block_nodes (block_tree written.now)) }
    {
        let before = self.declared.len();
        let made = self.resolve_statements(&written.statements)?;
        remove_all(&mut self.locals, &self.declared[before..]);
        self.declared.truncate(before);
        Ok(made)
    }

    /// Resolves the body of a procedure, after which no name is looked up: its locals need not be taken out.
    ///
    /// # Errors
    ///
    /// As of a block.
    #[tactic(auto, unfolding(crate::specs::Statements::block_finding))]
    pub fn resolve_body(&mut self, written: &Block<'n>) -> Result<Vec<Statement>, TypeFault>
        requires room { taken self.old + block_nodes (block_tree written.now) < most_nodes }
        ensures made { Resolves (λ body. (
          after_block (point_of self.old) (point_of self.new),
          block_view body,
        )) result
            (block_finding (setting_of self.old) (point_of self.old) (block_tree written.now)) }
        ensures later { OnOk result (IsLater self.old self.new) }
        ensures grows { OnOk result (taken self.new ≤
            taken self.old + block_nodes (block_tree written.now)) }
    {
        self.resolve_statements(&written.statements)
    }

    /// The statements of a block.
    #[cycle(block)]
    fn resolve_statements(
        &mut self,
        written: &[syntax::Statement<'n>],
    ) -> Result<Vec<Statement>, TypeFault>
        requires room { taken self.old +
            statements_nodes (statements_of (map statement_tree written.now)) < most_nodes }
        ensures made { Resolves (at_point self.new block_view) result
            (statements_finding (setting_of self.old) (point_of self.old)
            (statements_of (map statement_tree written.now))) }
        ensures later { OnOk result (IsLater self.old self.new) }
        ensures grows { OnOk result (taken self.new ≤
            taken self.old + statements_nodes (statements_of (map statement_tree written.now))) }
    {
        let mut made = Vec::with_capacity(self.alloc, written.len())?;
        for statement in written {
            made.push(self.resolve_statement(statement)?)?;
        }
        Ok(made)
    }

    /// The handlers of a `try`.
    #[cycle(block)]
    fn resolve_catches(&mut self, written: &[Catch<'n>]) -> Result<Vec<Handler>, TypeFault>
        requires room { taken self.old + catches_nodes (catches_of (map catch_tree written.now)) <
            most_nodes }
        ensures made { Resolves (at_point self.new handlers_view) result
            (catches_finding (setting_of self.old) (point_of self.old)
            (catches_of (map catch_tree written.now))) }
        ensures later { OnOk result (IsLater self.old self.new) }
        ensures grows { OnOk result (taken self.new ≤
            taken self.old + catches_nodes (catches_of (map catch_tree written.now))) }
    {
        let mut handlers = Vec::with_capacity(self.alloc, written.len())?;
        for one in written {
            let name = &one.exception;
            let number = require_item(ItemKind::Exception, self.look_up(name), name.at)?;
            let body = self.resolve_block(&one.body)?;
            handlers.push(Handler {
                at: name.at,
                exception: number,
                body,
            })?;
        }
        Ok(handlers)
    }

    /// A statement. The function is longer than others, since it is one match over all statements.
    #[cycle(block)]
    #[inline(always)]
    #[tactic(auto, unfolding(crate::specs::Statements::statement_finding))]
    fn resolve_statement(&mut self, written: &syntax::Statement<'n>) -> Result<Statement, TypeFault>
        requires room { taken self.old + statement_nodes (statement_tree written.now) < most_nodes }
        ensures made { Resolves (at_point self.new statement_of) result
            (statement_finding (setting_of self.old) (point_of self.old)
            (statement_tree written.now)) }
        ensures later { OnOk result (IsLater self.old self.new) }
        ensures grows { OnOk result (taken self.new ≤
            taken self.old + statement_nodes (statement_tree written.now)) }
    {
        match written {
            syntax::Statement::Declare {
                base,
                at,
                label,
                name,
                value,
            } => self.declare_scalar(*at, *base, label, name, value),
            syntax::Statement::DeclareArray {
                base,
                at,
                label,
                name,
                size,
            } => self.declare_array(*at, *base, label, name, *size),
            syntax::Statement::Assign { target, value } => self.resolve_assign(target, value),
            syntax::Statement::AssignElement { element, value } => {
                self.resolve_store(&element.array, &element.index, value)
            }
            syntax::Statement::Call(call) => self.resolve_call_statement(call),
            syntax::Statement::Receive { at, channel } => self.resolve_receive(*at, channel),
            syntax::Statement::Send { at, channel, value } => self.resolve_send(
                *at, channel, value,
            ),
            syntax::Statement::If {
                at,
                condition,
                accepted,
            } => self.resolve_if(*at, condition, accepted),
            syntax::Statement::IfElse {
                at,
                condition,
                accepted,
                otherwise,
            } => self.resolve_if_else(*at, condition, accepted, otherwise),
            syntax::Statement::While {
                at,
                condition,
                body,
            } => self.resolve_while(*at, condition, body),
            syntax::Statement::Break { at } => Ok(Statement::Leave(*at, Exit::Break)),
            syntax::Statement::Continue { at } => Ok(Statement::Leave(*at, Exit::Continue)),
            syntax::Statement::Throw { at, exception } => self.resolve_throw(*at, exception),
            syntax::Statement::Return { at, value } => self.resolve_return(*at, value),
            syntax::Statement::Try { at, body, catches } => self.resolve_try(*at, body, catches),
            syntax::Statement::Nested(block) => self.resolve_nested(block),
        }
    }

    /// A condition with a block.
    #[cycle(block)]
    #[inline(never)]
    fn resolve_if(
        &mut self,
        at: usize,
        condition: &syntax::Expression<'_>,
        accepted: &Block<'n>,
    ) -> Result<Statement, TypeFault>
        requires room { taken self.old + statement_nodes (if_tree at
            (expression_tree condition.now) (block_tree accepted.now) None) < most_nodes }
        ensures made { Resolves (at_point self.new statement_of) result
            (statement_finding (setting_of self.old) (point_of self.old)
            (if_tree at (expression_tree condition.now) (block_tree accepted.now) None)) }
        ensures later { OnOk result (IsLater self.old self.new) }
        ensures grows { OnOk result (taken self.new ≤
            taken self.old + statement_nodes (if_tree at (expression_tree condition.now)
            (block_tree accepted.now) None)) }
    {
        let condition = self.type_expression(BaseType::Boolean, condition)?;
        let accepted = self.resolve_block(accepted)?;
        Ok(Statement::If(at, condition, accepted, Vec::new(self.alloc)))
    }

    /// A condition with two blocks.
    #[cycle(block)]
    #[inline(never)]
    fn resolve_if_else(
        &mut self,
        at: usize,
        condition: &syntax::Expression<'_>,
        accepted: &Block<'n>,
        otherwise: &Block<'n>,
    ) -> Result<Statement, TypeFault>
        requires room { taken self.old + statement_nodes (if_tree at
            (expression_tree condition.now) (block_tree accepted.now)
            (Some (block_tree otherwise.now))) < most_nodes }
        ensures made { Resolves (at_point self.new statement_of) result
            (statement_finding (setting_of self.old) (point_of self.old)
            (if_tree at (expression_tree condition.now) (block_tree accepted.now)
            (Some (block_tree otherwise.now)))) }
        ensures later { OnOk result (IsLater self.old self.new) }
        ensures grows { OnOk result (taken self.new ≤
            taken self.old + statement_nodes (if_tree at (expression_tree condition.now)
            (block_tree accepted.now) (Some (block_tree otherwise.now)))) }
    {
        let condition = self.type_expression(BaseType::Boolean, condition)?;
        let accepted = self.resolve_block(accepted)?;
        let otherwise = self.resolve_block(otherwise)?;
        Ok(Statement::If(at, condition, accepted, otherwise))
    }

    /// A loop.
    #[cycle(block)]
    #[inline(never)]
    #[tactic(auto, unfolding(crate::specs::Statements::statement_finding))]
    fn resolve_while(
        &mut self,
        at: usize,
        condition: &syntax::Expression<'_>,
        body: &Block<'n>,
    ) -> Result<Statement, TypeFault>
        requires room { taken self.old + statement_nodes (WhileTree at
            (expression_tree condition.now) (block_tree body.now)) < most_nodes }
        ensures made { Resolves (at_point self.new statement_of) result
            (statement_finding (setting_of self.old) (point_of self.old)
            (WhileTree at (expression_tree condition.now) (block_tree body.now))) }
        ensures later { OnOk result (IsLater self.old self.new) }
        ensures grows { OnOk result (taken self.new ≤
            taken self.old + statement_nodes (WhileTree at (expression_tree condition.now)
            (block_tree body.now))) }
    {
        let condition = self.type_expression(BaseType::Boolean, condition)?;
        let number = self.loops;
        self.loops += 1;
        let body = self.resolve_block(body)?;
        Ok(Statement::While(at, number, condition, body))
    }

    /// A block with handlers.
    #[cycle(block)]
    #[inline(never)]
    fn resolve_try(
        &mut self,
        at: usize,
        body: &Block<'n>,
        catches: &[Catch<'n>],
    ) -> Result<Statement, TypeFault>
        requires room { taken self.old + statement_nodes (TryTree at (block_tree body.now)
            (catches_of (map catch_tree catches.now))) < most_nodes }
        ensures made { Resolves (at_point self.new statement_of) result
            (statement_finding (setting_of self.old) (point_of self.old)
            (TryTree at (block_tree body.now) (catches_of (map catch_tree catches.now)))) }
        ensures later { OnOk result (IsLater self.old self.new) }
        ensures grows { OnOk result (taken self.new ≤
            taken self.old + statement_nodes (TryTree at (block_tree body.now)
            (catches_of (map catch_tree catches.now)))) }
    {
        let body = self.resolve_block(body)?;
        let handlers = self.resolve_catches(catches)?;
        Ok(Statement::Try(at, body, handlers))
    }

    /// A block among statements.
    #[cycle(block)]
    #[inline(never)]
    fn resolve_nested(&mut self, block: &Block<'n>) -> Result<Statement, TypeFault>
        requires room { taken self.old + statement_nodes (NestedTree (block_tree block.now)) <
            most_nodes }
        ensures made { Resolves (at_point self.new statement_of) result
            (statement_finding (setting_of self.old) (point_of self.old)
            (NestedTree (block_tree block.now))) }
        ensures later { OnOk result (IsLater self.old self.new) }
        ensures grows { OnOk result (taken self.new ≤
            taken self.old + statement_nodes (NestedTree (block_tree block.now))) }
    {
        let body = self.resolve_block(block)?;
        Ok(Statement::Nested(block.at, body))
    }
}
