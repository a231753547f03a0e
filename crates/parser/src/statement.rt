ghost use Rattle.std.specs.Prelude.{◌≡◌, ◌<◌, ◌++◌, ◌∷◌, [], ℕ, IsErr, OnOk, map};
ghost use Rattle.std.specs.Vec.{vec_capacity, vec_len};
ghost use Rattle.lexer.specs.Terminal.{terminals_of};
ghost use Rattle.parser.specs.ReadForm.{many, ◌·◌, ◌gives◌};
ghost use Rattle.parser.specs.ReadGrammar.{expression, integer, condition, size, block, catch, index, separated, ◌▸◌, ◌◂◌, optional, some};
ghost use Rattle.parser.specs.Parts.{arguments, receive, send, conditional, while_statement, break_statement, continue_statement, throw_statement, return_statement, attempt, catches};
ghost use Rattle.syntax.specs.Tree.{name_tree, expression_tree, optional_expression_tree, right_tree, size_tree, statement_tree, block_tree, optional_block_tree, catch_tree, NestedTree};
ghost use Rattle.parser.specs.Factored.{AtIndexTree};
ghost use Rattle.parser.specs.Reading.{IsRead, read, right_read, right_after, is_at, first_read, first_tree, after_read, after_tree, declare_read, named_read, statement_read, begins_statement, begins_expression, kind_at};

use crate::cursor::Parser;
use crate::fault::ParseFault;
use crate::listed::empty_list;
use lexer::Kind;
use std::alloc::AllocError;
use syntax::{Block, Call, Catch, Element, Expression, Name, RightSide, Size, Statement};

// A list of this many statements is long.
const LONG: usize = 1024;

/// What stands after the name of a local.
#[derive(Clone, Copy)]
pub enum First<'a> {
    Value(RightSide<'a>),
    Array(Size),
}

/// What stands after the name that a statement begins with.
#[derive(Clone, Copy)]
pub enum After<'a> {
    Assigned(RightSide<'a>),
    Element {
        index: Expression<'a>,
        value: Expression<'a>,
    },
    Arguments(&'a [Expression<'a>]),
}

/// Makes room for one more statement in a block. For the last one no room is made for more, and a long list grows fourfold, so that fewer
/// of its statements are moved.
#[inline(always)]
fn make_room(statements: &mut Vec<Statement<'_>>, is_last: bool) -> Result<(), AllocError>
    ensures same { statements.new.items ≡ statements.old.items }
    ensures room { OnOk result (vec_len statements.new < vec_capacity statements.new) }
{
    if statements.len() < statements.capacity() {
        return Ok(());
    }
    if is_last {
        return statements.reserve_exact(1);
    }
    if statements.len() >= LONG {
        return statements.reserve(statements.len().saturating_mul(3));
    }
    statements.reserve(1)
}

/// Gives up a statement for which there is no room. Not in line, so that whoever has it does not take it apart.
#[inline(never)]
fn give_up(_statement: Statement<'_>) -> Result<(), AllocError>
    ensures { IsErr result }
{
    Err(AllocError)
}

/// Puts a statement after the others of its block.
#[inline(always)]
fn push_statement<'a>(
    statements: &mut Vec<Statement<'a>>,
    statement: Statement<'a>,
    is_last: bool,
) -> Result<(), AllocError>
    ensures { OnOk result
        (statements.new.items ≡ statements.old.items ++ statement.entry ∷ []) }
{
    if make_room(statements, is_last).is_err() {
        return give_up(statement);
    }
    statements.push_reserved(statement);
    Ok(())
}

impl<'t, 'a> Parser<'t, 'a> {
    #[tactic(auto, unfolding(crate::specs::Reading::read))]
    fn parse_another_expression(&mut self, room: u32) -> Result<Expression<'a>, ParseFault>
        ensures { IsRead expression_tree result self.new.rest.now (read room ("," ▸ expression)
            (terminals_of self.old.rest.now)) }
    {
        self.expect(Kind::Comma)?;
        self.parse_expression(room)
    }

    /// One expression or more, with commas between them.
    fn parse_some_expressions(&mut self, room: u32) -> Result<&'a [Expression<'a>], ParseFault>
        ensures { IsRead (λ list. map expression_tree list.now) result self.new.rest.now
            (read room (separated "," expression) (terminals_of self.old.rest.now)) }
    {
        let first = self.parse_expression(room)?;
        if !self.is_at(Kind::Comma) {
            return Ok(self.arena.try_alloc_slice_copy(&[first])?);
        }
        let mut expressions = Vec::new(self.alloc);
        expressions.push(first)?;
        while self.is_at(Kind::Comma) {
            let expression = self.parse_another_expression(room)?;
            expressions.push(expression)?;
        }
        Ok(self.arena.try_alloc_slice_copy(expressions.as_slice())?)
    }

    #[tactic(auto, unfolding(crate::specs::ReadGrammar::condition, crate::specs::Reading::read))]
    fn parse_condition(&mut self, room: u32) -> Result<Expression<'a>, ParseFault>
        ensures { IsRead expression_tree result self.new.rest.now
            (read room condition (terminals_of self.old.rest.now)) }
    {
        self.expect(Kind::OpenParenthesis)?;
        let condition = self.parse_expression(room)?;
        self.expect(Kind::CloseParenthesis)?;
        Ok(condition)
    }

    #[tactic(auto, unfolding(crate::specs::Parts::receive, crate::specs::Reading::read))]
    fn parse_receive(&mut self) -> Result<Statement<'a>, ParseFault>
        ensures { (room : ℕ) → IsRead statement_tree result self.new.rest.now
            (read room receive (terminals_of self.old.rest.now)) }
    {
        let token = self.expect(Kind::Receive)?;
        let channel = self.parse_name()?;
        self.expect(Kind::Semicolon)?;
        Ok(Statement::Receive {
            at: token.start,
            channel,
        })
    }

    #[tactic(auto, unfolding(crate::specs::Parts::send, crate::specs::Reading::read))]
    fn parse_send(&mut self, room: u32) -> Result<Statement<'a>, ParseFault>
        ensures { IsRead statement_tree result self.new.rest.now
            (read room send (terminals_of self.old.rest.now)) }
    {
        let token = self.expect(Kind::Send)?;
        let channel = self.parse_name()?;
        self.expect(Kind::Comma)?;
        let value = self.parse_expression(room)?;
        self.expect(Kind::Semicolon)?;
        Ok(Statement::Send {
            at: token.start,
            channel,
            value,
        })
    }

    #[tactic(auto, unfolding(crate::specs::Parts::break_statement, crate::specs::Reading::read))]
    fn parse_break(&mut self) -> Result<Statement<'a>, ParseFault>
        ensures { (room : ℕ) → IsRead statement_tree result self.new.rest.now
            (read room break_statement (terminals_of self.old.rest.now)) }
    {
        let token = self.expect(Kind::Break)?;
        self.expect(Kind::Semicolon)?;
        Ok(Statement::Break { at: token.start })
    }

    #[tactic(auto, unfolding(crate::specs::Parts::throw_statement, crate::specs::Reading::read))]
    fn parse_throw(&mut self) -> Result<Statement<'a>, ParseFault>
        ensures { (room : ℕ) → IsRead statement_tree result self.new.rest.now
            (read room throw_statement (terminals_of self.old.rest.now)) }
    {
        let token = self.expect(Kind::Throw)?;
        let exception = self.parse_name()?;
        self.expect(Kind::Semicolon)?;
        Ok(Statement::Throw {
            at: token.start,
            exception,
        })
    }

    #[tactic(auto, unfolding(crate::specs::Parts::continue_statement, crate::specs::Reading::read))]
    fn parse_continue(&mut self) -> Result<Statement<'a>, ParseFault>
        ensures { (room : ℕ) → IsRead statement_tree result self.new.rest.now
            (read room continue_statement (terminals_of self.old.rest.now)) }
    {
        let token = self.expect(Kind::Continue)?;
        self.expect(Kind::Semicolon)?;
        Ok(Statement::Continue { at: token.start })
    }

    fn is_at_expression(&self) -> bool
        ensures { result ≡ begins_expression (kind_at (terminals_of self.now.rest.now)) }
    {
        matches!(
            self.kind(),
            Kind::Minus
                | Kind::Not
                | Kind::Integer(_)
                | Kind::True
                | Kind::False
                | Kind::Name
                | Kind::OpenParenthesis
        )
    }

    #[tactic(auto, using(crate::proofs::Blocks::returned_reads))]
    fn parse_returned(&mut self, room: u32) -> Result<Option<Expression<'a>>, ParseFault>
        ensures { IsRead optional_expression_tree result self.new.rest.now
            (read room (optional expression) (terminals_of self.old.rest.now)) }
    {
        if self.is_at_expression() {
            let value = self.parse_expression(room)?;
            return Ok(Some(value));
        }
        Ok(None)
    }

    #[tactic(auto, unfolding(crate::specs::Parts::return_statement, crate::specs::Reading::read))]
    fn parse_return(&mut self, room: u32) -> Result<Statement<'a>, ParseFault>
        ensures { IsRead statement_tree result self.new.rest.now (read room return_statement
            (terminals_of self.old.rest.now)) }
    {
        let token = self.expect(Kind::Return)?;
        let value = self.parse_returned(room)?;
        self.expect(Kind::Semicolon)?;
        Ok(Statement::Return {
            at: token.start,
            value,
        })
    }

    fn is_at_statement(&self) -> bool
        ensures { result ≡ begins_statement (kind_at (terminals_of self.now.rest.now)) }
    {
        matches!(
            self.kind(),
            Kind::Int
                | Kind::Boolean
                | Kind::Name
                | Kind::Receive
                | Kind::Send
                | Kind::If
                | Kind::While
                | Kind::Break
                | Kind::Continue
                | Kind::Throw
                | Kind::Return
                | Kind::Try
                | Kind::OpenBrace
        )
    }

    #[cycle(statement)]
    #[tactic(auto, using(crate::proofs::Blocks::block_reads))]
    pub fn parse_block(&mut self, room: u32) -> Result<Block<'a>, ParseFault>
        ensures { IsRead block_tree result self.new.rest.now
            (read room block (terminals_of self.old.rest.now)) }
    {
        let token = self.enter(Kind::OpenBrace, room)?;
        let statements = self.parse_statements(room - 1)?;
        self.expect(Kind::CloseBrace)?;
        Ok(Block {
            at: token.start,
            statements,
        })
    }

    /// Statements up to the first token that begins none.
    #[cycle(statement)]
    fn parse_statements(&mut self, room: u32) -> Result<Vec<Statement<'a>>, ParseFault>
        ensures { IsRead (λ list. map statement_tree list.items) result self.new.rest.now
            (read room (many statement_read) (terminals_of self.old.rest.now)) }
    {
        let mut statements = Vec::new(self.alloc);
        while self.is_at_statement() {
            let statement = self.parse_statement(room)?;
            push_statement(&mut statements, statement, !self.is_at_statement())?;
        }
        Ok(statements)
    }

    #[cycle(statement)]
    #[tactic(auto, unfolding(crate::specs::Reading::read))]
    fn parse_else_block(&mut self, room: u32) -> Result<Block<'a>, ParseFault>
        ensures { IsRead block_tree result self.new.rest.now (read room ("else" ▸ block)
            (terminals_of self.old.rest.now)) }
    {
        self.expect(Kind::Else)?;
        self.parse_block(room)
    }

    #[cycle(statement)]
    #[tactic(auto, using(crate::proofs::Blocks::otherwise_reads))]
    fn parse_otherwise(&mut self, room: u32) -> Result<Option<Block<'a>>, ParseFault>
        ensures { IsRead optional_block_tree result self.new.rest.now
            (read room (optional ("else" ▸ block)) (terminals_of self.old.rest.now)) }
    {
        if self.is_at(Kind::Else) {
            let block = self.parse_else_block(room)?;
            return Ok(Some(block));
        }
        Ok(None)
    }

    #[cycle(statement)]
    #[tactic(auto, unfolding(crate::specs::Parts::conditional, crate::specs::Reading::read))]
    fn parse_if(&mut self, room: u32) -> Result<Statement<'a>, ParseFault>
        ensures { IsRead statement_tree result self.new.rest.now (read room conditional
            (terminals_of self.old.rest.now)) }
    {
        let token = self.expect(Kind::If)?;
        let condition = self.parse_condition(room)?;
        let accepted = self.parse_block(room)?;
        match self.parse_otherwise(room)? {
            None => Ok(Statement::make_if(token.start, condition, accepted)),
            Some(otherwise) => Ok(Statement::make_if_else(
                token.start,
                condition,
                accepted,
                Box::new(self.alloc, otherwise)?,
            )),
        }
    }

    #[cycle(statement)]
    #[tactic(auto, unfolding(crate::specs::Parts::while_statement, crate::specs::Reading::read))]
    fn parse_while(&mut self, room: u32) -> Result<Statement<'a>, ParseFault>
        ensures { IsRead statement_tree result self.new.rest.now (read room while_statement
            (terminals_of self.old.rest.now)) }
    {
        let token = self.expect(Kind::While)?;
        let condition = self.parse_condition(room)?;
        let body = self.parse_block(room)?;
        Ok(Statement::make_while(token.start, condition, body))
    }

    #[cycle(statement)]
    #[tactic(auto, unfolding(crate::specs::ReadGrammar::catch, crate::specs::Reading::read))]
    fn parse_catch(&mut self, room: u32) -> Result<Catch<'a>, ParseFault>
        ensures { IsRead catch_tree result self.new.rest.now
            (read room catch (terminals_of self.old.rest.now)) }
    {
        let token = self.expect(Kind::Catch)?;
        self.expect(Kind::OpenParenthesis)?;
        let exception = self.parse_name()?;
        self.expect(Kind::CloseParenthesis)?;
        let body = self.parse_block(room)?;
        Ok(Catch {
            at: token.start,
            exception,
            body,
        })
    }

    /// Handlers, one at least.
    #[cycle(statement)]
    fn parse_catches(&mut self, room: u32) -> Result<Vec<Catch<'a>>, ParseFault>
        ensures { IsRead (λ list. map catch_tree list.items) result self.new.rest.now
            (read room catches (terminals_of self.old.rest.now)) }
    {
        let first = self.parse_catch(room)?;
        // Mostly there is one.
        let mut catches = Vec::with_capacity(self.alloc, 1)?;
        catches.push(first)?;
        while self.is_at(Kind::Catch) {
            let one = self.parse_catch(room)?;
            catches.push(one)?;
        }
        Ok(catches)
    }

    #[cycle(statement)]
    #[tactic(auto, unfolding(crate::specs::Parts::attempt, crate::specs::Reading::read))]
    fn parse_try(&mut self, room: u32) -> Result<Statement<'a>, ParseFault>
        ensures { IsRead statement_tree result self.new.rest.now
            (read room attempt (terminals_of self.old.rest.now)) }
    {
        let token = self.expect(Kind::Try)?;
        let body = self.parse_block(room)?;
        let catches = self.parse_catches(room)?;
        Ok(Statement::make_try(token.start, body, catches))
    }

    #[cycle(statement)]
    #[tactic(auto, unfolding(crate::specs::Reading::read))]
    fn parse_nested(&mut self, room: u32) -> Result<Statement<'a>, ParseFault>
        ensures { IsRead statement_tree result self.new.rest.now
            (read room (block gives NestedTree) (terminals_of self.old.rest.now)) }
    {
        let body = self.parse_block(room)?;
        Ok(Statement::make_nested(body))
    }

    #[cycle(statement)]
    #[tactic(auto, using(crate::proofs::Blocks::statement_reads))]
    fn parse_statement(&mut self, room: u32) -> Result<Statement<'a>, ParseFault>
        ensures { IsRead statement_tree result self.new.rest.now (read room statement_read
            (terminals_of self.old.rest.now)) }
    {
        match self.kind() {
            Kind::Int | Kind::Boolean => self.parse_declaration(room),
            Kind::Name => self.parse_named(room),
            Kind::Receive => self.parse_receive(),
            Kind::Send => self.parse_send(room),
            Kind::If => self.parse_if(room),
            Kind::While => self.parse_while(room),
            Kind::Break => self.parse_break(),
            Kind::Continue => self.parse_continue(),
            Kind::Throw => self.parse_throw(),
            Kind::Return => self.parse_return(room),
            Kind::Try => self.parse_try(room),
            _ => self.parse_nested(room),
        }
    }

    #[tactic(auto, using(crate::proofs::Steps::integer_reads))]
    pub fn parse_integer(&mut self) -> Result<(usize, u32), ParseFault>
        ensures { (room : ℕ) → IsRead (λ found. (found.0, found.1)) result self.new.rest.now
            (read room integer (terminals_of self.old.rest.now)) }
    {
        match self.kind() {
            Kind::Integer(value) => {
                let token = self.advance()?;
                Ok((token.start, value))
            }
            _ => Err(self.refuse_next()),
        }
    }

    #[tactic(auto, unfolding(crate::specs::ReadGrammar::size, crate::specs::Reading::read))]
    pub fn parse_size(&mut self) -> Result<Size, ParseFault>
        ensures { (room : ℕ) → IsRead size_tree result self.new.rest.now
            (read room size (terminals_of self.old.rest.now)) }
    {
        self.expect(Kind::OpenBracket)?;
        let (at, size) = self.parse_integer()?;
        self.expect(Kind::CloseBracket)?;
        Ok(Size { at, size })
    }

    #[tactic(auto, using(crate::proofs::Blocks::expressions_reads))]
    fn parse_expressions(&mut self, room: u32) -> Result<&'a [Expression<'a>], ParseFault>
        ensures { IsRead (λ list. map expression_tree list.now) result self.new.rest.now
            (read room (some "," expression) (terminals_of self.old.rest.now)) }
    {
        if self.is_at_expression() {
            return self.parse_some_expressions(room);
        }
        Ok(empty_list())
    }

    /// The arguments of a call, in parentheses.
    #[tactic(auto, using(crate::proofs::Blocks::arguments_reads))]
    fn parse_arguments(&mut self, room: u32) -> Result<&'a [Expression<'a>], ParseFault>
        ensures { IsRead (λ list. map expression_tree list.now) result self.new.rest.now
            (read room arguments (terminals_of self.old.rest.now)) }
    {
        self.enter(Kind::OpenParenthesis, room)?;
        let arguments = self.parse_expressions(room - 1)?;
        self.expect(Kind::CloseParenthesis)?;
        Ok(arguments)
    }

    /// A right side after the name that it begins with: a call, or an expression.
    #[tactic(auto)]
    fn parse_right_by_name(
        &mut self,
        name: Name<'a>,
        room: u32,
    ) -> Result<RightSide<'a>, ParseFault>
        ensures { IsRead right_tree result self.new.rest.now (right_after room
            (name_tree name.entry) (is_at "(" (terminals_of self.old.rest.now))
            (terminals_of self.old.rest.now)) }
    {
        if self.is_at(Kind::OpenParenthesis) {
            let arguments = self.parse_arguments(room)?;
            return Ok(RightSide::Call(
                self.arena.try_alloc(Call {
                    procedure: name,
                    arguments,
                })?,
            ));
        }
        let first = self.parse_indexed(name, room)?;
        let value = self.climb(first, room)?;
        Ok(RightSide::Value(value))
    }

    #[tactic(auto, using(crate::proofs::Rights::right_reads))]
    fn parse_right(&mut self, room: u32) -> Result<RightSide<'a>, ParseFault>
        ensures { IsRead right_tree result self.new.rest.now
            (read room right_read (terminals_of self.old.rest.now)) }
    {
        match self.kind() {
            Kind::Receive => {
                let token = self.advance()?;
                let channel = self.parse_name()?;
                Ok(RightSide::Receive {
                    at: token.start,
                    channel,
                })
            }
            Kind::Name => {
                let name = self.parse_name()?;
                self.parse_right_by_name(name, room)
            }
            _ => {
                let value = self.parse_expression(room)?;
                Ok(RightSide::Value(value))
            }
        }
    }

    #[inline(always)]
    #[tactic(auto, unfolding(crate::specs::Reading::read))]
    fn parse_assigned(&mut self, room: u32) -> Result<RightSide<'a>, ParseFault>
        ensures { IsRead right_tree result self.new.rest.now (read room ("=" ▸ right_read)
            (terminals_of self.old.rest.now)) }
    {
        self.expect(Kind::Assign)?;
        self.parse_right(room)
    }

    /// What stands after the name of a local.
    #[tactic(auto, using(crate::proofs::Rights::first_reads))]
    fn parse_first_value(&mut self, room: u32) -> Result<First<'a>, ParseFault>
        ensures { IsRead first_tree result self.new.rest.now
            (read room first_read (terminals_of self.old.rest.now)) }
    {
        match self.kind() {
            Kind::Assign => {
                let value = self.parse_assigned(room)?;
                Ok(First::Value(value))
            }
            _ => {
                let size = self.parse_size()?;
                Ok(First::Array(size))
            }
        }
    }

    #[tactic(auto, unfolding(crate::specs::Reading::read, crate::specs::Reading::declare_read, crate::specs::Reading::first_read))]
    fn parse_declaration(&mut self, room: u32) -> Result<Statement<'a>, ParseFault>
        ensures { IsRead statement_tree result self.new.rest.now (read room declare_read
            (terminals_of self.old.rest.now)) }
    {
        let (at, base) = self.parse_base()?;
        let label = self.parse_local_label()?;
        let name = self.parse_name()?;
        let first = self.parse_first_value(room)?;
        self.expect(Kind::Semicolon)?;
        Ok(match first {
            First::Value(value) => Statement::Declare {
                base,
                at,
                label,
                name,
                value,
            },
            First::Array(size) => Statement::DeclareArray {
                base,
                at,
                label,
                name,
                size,
            },
        })
    }

    #[tactic(auto, unfolding(crate::specs::Reading::read))]
    fn parse_element(&mut self, room: u32) -> Result<(Expression<'a>, Expression<'a>), ParseFault>
        ensures { IsRead (λ pair. AtIndexTree (expression_tree pair.0) (expression_tree pair.1))
            result self.new.rest.now (read room (index ◂ "=" · expression gives λ pair.
            AtIndexTree pair.0 pair.1) (terminals_of self.old.rest.now)) }
    {
        let index = self.parse_index(room)?;
        self.expect(Kind::Assign)?;
        let value = self.parse_expression(room)?;
        Ok((index, value))
    }

    /// What stands after the name that a statement begins with.
    #[tactic(auto, using(crate::proofs::Rights::after_reads))]
    fn parse_after_name(&mut self, room: u32) -> Result<After<'a>, ParseFault>
        ensures { IsRead after_tree result self.new.rest.now (read room after_read
            (terminals_of self.old.rest.now)) }
    {
        match self.kind() {
            Kind::Assign => {
                let value = self.parse_assigned(room)?;
                Ok(After::Assigned(value))
            }
            Kind::OpenBracket => {
                let (index, value) = self.parse_element(room)?;
                Ok(After::Element { index, value })
            }
            _ => {
                let arguments = self.parse_arguments(room)?;
                Ok(After::Arguments(arguments))
            }
        }
    }

    #[tactic(auto, unfolding(crate::specs::Reading::read, crate::specs::Reading::named_read, crate::specs::Reading::after_read))]
    fn parse_named(&mut self, room: u32) -> Result<Statement<'a>, ParseFault>
        ensures { IsRead statement_tree result self.new.rest.now
            (read room named_read (terminals_of self.old.rest.now)) }
    {
        let name = self.parse_name()?;
        let after = self.parse_after_name(room)?;
        self.expect(Kind::Semicolon)?;
        Ok(match after {
            After::Assigned(value) => Statement::Assign {
                target: name,
                value,
            },
            After::Element { index, value } => Statement::AssignElement {
                element: self.arena.try_alloc(Element { array: name, index })?,
                value,
            },
            After::Arguments(arguments) => Statement::Call(Call {
                procedure: name,
                arguments,
            }),
        })
    }
}
