//! Lists with tokens of a kind between their elements.
ghost use Rattle.std.specs.Prelude.{◌≡◌, ℕ, [], map};
ghost use Rattle.lexer.specs.Terminal.{terminals_of};
ghost use Rattle.lexer.specs.KindOf.{text_of};
ghost use Rattle.parser.specs.ReadForm.{Form};
ghost use Rattle.parser.specs.ReadGrammar.{separated, ◌▸◌};
ghost use Rattle.parser.specs.Reading.{IsNoInteger, IsRead, read};

use crate::cursor::Parser;
use crate::fault::ParseFault;
use lexer::Kind;

/// What is read by a form of the grammar that opens no levels, and may stand in lists.
pub(crate) trait Listed<'a>: Sized + Drop {
    ghost Tree: { Type 0 };

    ghost form: { Form Tree };

    ghost tree: { Self → Tree };

    /// Reads one.
    fn parse<'t>(parser: &mut Parser<'t, 'a>) -> Result<Self, ParseFault>
        ensures { (room : ℕ) → IsRead tree result parser.new.rest.now
            (read room form (terminals_of parser.old.rest.now)) };
}

/// A list of nothing, which takes no memory.
#[inline(always)]
pub fn empty_list<'a, T>() -> &'a [T]
    ensures { result.now ≡ [] }
{
    &[]
}

impl<'t, 'a> Parser<'t, 'a> {
    // Reads one after a token of a kind.
    #[tactic(auto, unfolding(crate::specs::Reading::read))]
    fn parse_another<T: Listed<'a>>(&mut self, separator: Kind) -> Result<T, ParseFault>
        requires plain { IsNoInteger separator }
        ensures { (room : ℕ) → IsRead T.tree result self.new.rest.now
            (read room (text_of separator ▸ T.form) (terminals_of self.old.rest.now)) }
    {
        self.expect(separator)?;
        T::parse(self)
    }

    /// Reads one or more, with tokens of a kind between them.
    pub fn parse_separated<T: Listed<'a>>(&mut self, separator: Kind) -> Result<Vec<T>, ParseFault>
        requires plain { IsNoInteger separator }
        ensures { (room : ℕ) → IsRead (λ list. map T.tree list.items) result self.new.rest.now
            (read room (separated (text_of separator) T.form) (terminals_of self.old.rest.now)) }
    {
        let first = T::parse(self)?;
        // Most lists have one.
        let mut list = Vec::with_capacity(self.alloc, 1)?;
        list.push(first)?;
        while self.is_at(separator) {
            let next = self.parse_another::<T>(separator)?;
            list.push(next)?;
        }
        Ok(list)
    }
}
