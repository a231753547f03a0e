ghost use Rattle.std.specs.Prelude.{◌≡◌, ℕ, map};
ghost use Rattle.lexer.specs.Terminal.{terminals_of};
ghost use Rattle.parser.specs.ReadForm.{many, ◌·◌, ◌gives◌};
ghost use Rattle.parser.specs.ReadGrammar.{constant, written_result, parameter, throws, direction, item, label, separated, ◌▸◌, optional, some};
ghost use Rattle.parser.specs.Parts.{procedure, global, exception, channel, global_value, thrown, negative_constant, some_throws, valued, thrown_list};
ghost use Rattle.syntax.specs.Tree.{ParameterTree, ThrownTree, label_tree, optional_label_tree, constant_tree, global_value_tree, written_result_tree, parameter_tree, thrown_tree, item_tree};
ghost use Rattle.parser.specs.Reading.{IsRead, read, kind_at, begins_item};

use crate::cursor::Parser;
use crate::fault::ParseFault;
use crate::listed::Listed;
use common::Direction;
use common::limits::MAX_LEVELS;
use lexer::Kind;
use syntax::{
    Channel, Constant, GlobalValue, GlobalVariable, Item, Parameter, Procedure, Thrown,
    WrittenLabel, WrittenResult,
};

impl<'t, 'a> Parser<'t, 'a> {
    #[tactic(auto, unfolding(crate::specs::Parts::negative_constant, crate::specs::Reading::read))]
    fn parse_negative_constant(&mut self) -> Result<Constant, ParseFault>
        ensures { (room : ℕ) → IsRead constant_tree result self.new.rest.now
            (read room negative_constant (terminals_of self.old.rest.now)) }
    {
        let token = self.expect(Kind::Minus)?;
        let (_, value) = self.parse_integer()?;
        Ok(Constant::Integer {
            at: token.start,
            negative: true,
            value,
        })
    }

    #[tactic(auto, using(crate::proofs::Items::constant_reads))]
    fn parse_constant(&mut self) -> Result<Constant, ParseFault>
        ensures { (room : ℕ) → IsRead constant_tree result self.new.rest.now
            (read room constant (terminals_of self.old.rest.now)) }
    {
        match self.kind() {
            Kind::Minus => self.parse_negative_constant(),
            Kind::Integer(value) => {
                let token = self.advance()?;
                Ok(Constant::Integer {
                    at: token.start,
                    negative: false,
                    value,
                })
            }
            Kind::True => {
                let token = self.advance()?;
                Ok(Constant::Truth {
                    at: token.start,
                    value: true,
                })
            }
            Kind::False => {
                let token = self.advance()?;
                Ok(Constant::Truth {
                    at: token.start,
                    value: false,
                })
            }
            _ => Err(self.refuse_next()),
        }
    }

    #[tactic(auto, unfolding(crate::specs::Reading::read))]
    fn parse_assigned_constant(&mut self) -> Result<Constant, ParseFault>
        ensures { (room : ℕ) → IsRead constant_tree result self.new.rest.now
            (read room ("=" ▸ constant) (terminals_of self.old.rest.now)) }
    {
        self.expect(Kind::Assign)?;
        self.parse_constant()
    }

    #[tactic(auto, using(crate::proofs::Items::global_value_reads))]
    fn parse_global_value(&mut self) -> Result<GlobalValue, ParseFault>
        ensures { (room : ℕ) → IsRead global_value_tree result self.new.rest.now
            (read room global_value (terminals_of self.old.rest.now)) }
    {
        match self.kind() {
            Kind::Assign => {
                let constant = self.parse_assigned_constant()?;
                Ok(GlobalValue::Scalar(constant))
            }
            _ => {
                let size = self.parse_size()?;
                Ok(GlobalValue::Array(size))
            }
        }
    }

    #[tactic(auto, unfolding(crate::specs::Parts::global, crate::specs::Parts::global_value, crate::specs::Reading::read))]
    fn parse_global(&mut self) -> Result<Item<'a>, ParseFault>
        ensures { (room : ℕ) → IsRead item_tree result self.new.rest.now
            (read room global (terminals_of self.old.rest.now)) }
    {
        let token = self.expect(Kind::Global)?;
        let (_, base) = self.parse_base()?;
        let label = self.parse_label()?;
        let name = self.parse_name()?;
        let value = self.parse_global_value()?;
        self.expect(Kind::Semicolon)?;
        Ok(Item::Global(GlobalVariable {
            at: token.start,
            base,
            label,
            name,
            value,
        }))
    }

    #[tactic(auto, unfolding(crate::specs::Parts::exception, crate::specs::Reading::read))]
    fn parse_exception(&mut self) -> Result<Item<'a>, ParseFault>
        ensures { (room : ℕ) → IsRead item_tree result self.new.rest.now
            (read room exception (terminals_of self.old.rest.now)) }
    {
        let token = self.expect(Kind::Exception)?;
        let name = self.parse_name()?;
        self.expect(Kind::Semicolon)?;
        Ok(Item::Exception {
            at: token.start,
            name,
        })
    }

    #[tactic(auto, using(crate::proofs::Items::direction_reads))]
    fn parse_direction(&mut self) -> Result<(usize, Direction), ParseFault>
        ensures { (room : ℕ) → IsRead (λ found. (found.0, found.1)) result self.new.rest.now
            (read room direction (terminals_of self.old.rest.now)) }
    {
        match self.kind() {
            Kind::Input => {
                let token = self.advance()?;
                Ok((token.start, Direction::Input))
            }
            Kind::Output => {
                let token = self.advance()?;
                Ok((token.start, Direction::Output))
            }
            _ => Err(self.refuse_next()),
        }
    }

    #[tactic(auto, unfolding(crate::specs::Parts::channel, crate::specs::Reading::read))]
    fn parse_channel(&mut self) -> Result<Item<'a>, ParseFault>
        ensures { (room : ℕ) → IsRead item_tree result self.new.rest.now
            (read room channel (terminals_of self.old.rest.now)) }
    {
        let (at, direction) = self.parse_direction()?;
        let label = self.parse_label()?;
        let name = self.parse_name()?;
        self.expect(Kind::Semicolon)?;
        Ok(Item::Channel(Channel {
            at,
            direction,
            label,
            name,
        }))
    }

    #[tactic(auto, unfolding(crate::specs::Parts::valued, crate::specs::Reading::read))]
    fn parse_valued_result(&mut self) -> Result<(usize, WrittenResult<'a>), ParseFault>
        ensures { (room : ℕ) → IsRead (λ found. (found.0, written_result_tree found.1)) result
            self.new.rest.now (read room valued (terminals_of self.old.rest.now)) }
    {
        let (at, base) = self.parse_base()?;
        let label = self.parse_label()?;
        Ok((at, WrittenResult::Value { base, label }))
    }

    #[tactic(auto, using(crate::proofs::Items::written_result_reads))]
    fn parse_result(&mut self) -> Result<(usize, WrittenResult<'a>), ParseFault>
        ensures { (room : ℕ) → IsRead (λ found. (found.0, written_result_tree found.1)) result
            self.new.rest.now (read room written_result (terminals_of self.old.rest.now)) }
    {
        match self.kind() {
            Kind::Void => {
                let token = self.advance()?;
                Ok((token.start, WrittenResult::Nothing))
            }
            _ => self.parse_valued_result(),
        }
    }

    #[tactic(auto, unfolding(crate::specs::ReadGrammar::parameter, crate::specs::Reading::read))]
    fn parse_parameter(&mut self) -> Result<Parameter<'a>, ParseFault>
        ensures { (room : ℕ) → IsRead parameter_tree result self.new.rest.now
            (read room parameter (terminals_of self.old.rest.now)) }
    {
        let (at, base) = self.parse_base()?;
        let label = self.parse_label()?;
        let name = self.parse_name()?;
        Ok(Parameter {
            at,
            base,
            label,
            name,
        })
    }
}

impl<'a> Listed<'a> for Parameter<'a> {
    ghost Tree = { ParameterTree };

    ghost form = { parameter };

    ghost tree = { parameter_tree };

    fn parse<'t>(parser: &mut Parser<'t, 'a>) -> Result<Parameter<'a>, ParseFault> {
        parser.parse_parameter()
    }
}

impl<'t, 'a> Parser<'t, 'a> {
    #[tactic(auto, using(crate::proofs::Items::parameters_reads))]
    fn parse_parameters(&mut self) -> Result<Vec<Parameter<'a>>, ParseFault>
        ensures { (room : ℕ) → IsRead (λ parameters. map parameter_tree parameters.items) result
            self.new.rest.now (read room (some "," parameter) (terminals_of self.old.rest.now)) }
    {
        match self.kind() {
            Kind::Int | Kind::Boolean => self.parse_separated(Kind::Comma),
            _ => Ok(Vec::new(self.alloc)),
        }
    }

    #[tactic(auto, unfolding(crate::specs::Reading::read))]
    fn parse_label_after_colon(&mut self) -> Result<WrittenLabel<'a>, ParseFault>
        ensures { (room : ℕ) → IsRead label_tree result self.new.rest.now (read room (":" ▸ label)
            (terminals_of self.old.rest.now)) }
    {
        self.expect(Kind::Colon)?;
        self.parse_label()
    }

    #[tactic(auto, using(crate::proofs::Items::end_label_reads))]
    fn parse_end_label(&mut self) -> Result<Option<WrittenLabel<'a>>, ParseFault>
        ensures { (room : ℕ) → IsRead optional_label_tree result self.new.rest.now
            (read room (optional (":" ▸ label)) (terminals_of self.old.rest.now)) }
    {
        if self.is_at(Kind::Colon) {
            let label = self.parse_label_after_colon()?;
            return Ok(Some(label));
        }
        Ok(None)
    }

    #[tactic(auto, unfolding(crate::specs::Parts::thrown, crate::specs::Reading::read))]
    fn parse_thrown(&mut self) -> Result<Thrown<'a>, ParseFault>
        ensures { (room : ℕ) → IsRead thrown_tree result self.new.rest.now
            (read room thrown (terminals_of self.old.rest.now)) }
    {
        let name = self.parse_name()?;
        let label = self.parse_label()?;
        Ok(Thrown { name, label })
    }
}

impl<'a> Listed<'a> for Thrown<'a> {
    ghost Tree = { ThrownTree };

    ghost form = { thrown };

    ghost tree = { thrown_tree };

    fn parse<'t>(parser: &mut Parser<'t, 'a>) -> Result<Thrown<'a>, ParseFault> {
        parser.parse_thrown()
    }
}

impl<'t, 'a> Parser<'t, 'a> {
    #[tactic(auto, unfolding(crate::specs::Parts::thrown_list))]
    fn parse_thrown_list(&mut self) -> Result<Vec<Thrown<'a>>, ParseFault>
        ensures { (room : ℕ) → IsRead (λ list. map thrown_tree list.items) result self.new.rest.now
            (read room thrown_list (terminals_of self.old.rest.now)) }
    {
        self.parse_separated(Kind::Comma)
    }

    #[tactic(auto, unfolding(crate::specs::Parts::some_throws, crate::specs::Reading::read))]
    fn parse_some_throws(&mut self) -> Result<Vec<Thrown<'a>>, ParseFault>
        ensures { (room : ℕ) → IsRead (λ list. map thrown_tree list.items) result self.new.rest.now
            (read room some_throws (terminals_of self.old.rest.now)) }
    {
        self.expect(Kind::Throws)?;
        self.expect(Kind::OpenParenthesis)?;
        let list = self.parse_thrown_list()?;
        self.expect(Kind::CloseParenthesis)?;
        Ok(list)
    }

    #[tactic(auto, using(crate::proofs::Items::throws_reads))]
    fn parse_throws(&mut self) -> Result<Vec<Thrown<'a>>, ParseFault>
        ensures { (room : ℕ) → IsRead (λ list. map thrown_tree list.items) result self.new.rest.now
            (read room throws (terminals_of self.old.rest.now)) }
    {
        if self.is_at(Kind::Throws) {
            return self.parse_some_throws();
        }
        Ok(Vec::new(self.alloc))
    }

    #[tactic(auto, unfolding(crate::specs::Parts::procedure, crate::specs::Reading::read))]
    fn parse_procedure(&mut self) -> Result<Item<'a>, ParseFault>
        ensures { IsRead item_tree result self.new.rest.now (read MAX_LEVELS procedure
            (terminals_of self.old.rest.now)) }
    {
        let (at, result) = self.parse_result()?;
        let name = self.parse_name()?;
        let begin = self.parse_optional_label()?;
        self.expect(Kind::OpenParenthesis)?;
        let parameters = self.parse_parameters()?;
        self.expect(Kind::CloseParenthesis)?;
        let end = self.parse_end_label()?;
        let throws = self.parse_throws()?;
        let body = self.parse_block(MAX_LEVELS)?;
        Ok(Item::Procedure(Procedure {
            at,
            result,
            name,
            begin,
            parameters,
            end,
            throws,
            body,
        }))
    }

    #[tactic(auto, using(crate::proofs::Items::item_reads))]
    fn parse_item(&mut self) -> Result<Item<'a>, ParseFault>
        ensures { IsRead item_tree result self.new.rest.now
            (read MAX_LEVELS item (terminals_of self.old.rest.now)) }
    {
        match self.kind() {
            Kind::Input | Kind::Output => self.parse_channel(),
            Kind::Exception => self.parse_exception(),
            Kind::Global => self.parse_global(),
            _ => self.parse_procedure(),
        }
    }

    fn is_at_item(&self) -> bool
        ensures { result ≡ begins_item (kind_at (terminals_of self.now.rest.now)) }
    {
        matches!(
            self.kind(),
            Kind::Input
                | Kind::Output
                | Kind::Exception
                | Kind::Global
                | Kind::Void
                | Kind::Int
                | Kind::Boolean
        )
    }

    /// The items up to the first token that begins none.
    pub fn parse_items(&mut self) -> Result<Vec<Item<'a>>, ParseFault>
        ensures { IsRead (λ list. map item_tree list.items) result self.new.rest.now
            (read MAX_LEVELS (many item) (terminals_of self.old.rest.now)) }
    {
        // Most items have more tokens than this.
        let mut items = Vec::with_capacity(self.alloc, self.rest.len() / 64)?;
        while self.is_at_item() {
            let item = self.parse_item()?;
            items.push(item)?;
        }
        Ok(items)
    }
}
