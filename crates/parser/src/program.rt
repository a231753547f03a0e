ghost use Rattle.common.specs.Answers.{Answers, IfRefused};
ghost use Rattle.common.specs.declared.refusal.RefusalAt.{RefusalAt};
ghost use Rattle.std.specs.Prelude.{◌≡◌, ◌≤◌, length, IfErr, IfOk};
ghost use Rattle.lexer.specs.Terminal.{IsTerminated, terminals_of};
ghost use Rattle.syntax.specs.Grammar.{SpellsProgram};
ghost use Rattle.parser.specs.ReadGrammar.{program};
ghost use Rattle.syntax.specs.Laws.{SpellsOneTree, SpelledIsTerminated, SpelledHasFewNodes, SpelledIsNested, SpelledIsWritten, EachIsThere};
ghost use Rattle.syntax.specs.Nodes.{program_nodes};
ghost use Rattle.syntax.specs.Tree.{ProgramTree, program_tree};
ghost use Rattle.parser.specs.Laws.{IsSpelledOrRefused, IsNotSpelledAndRefused, TokensHaveOneRefusal};
ghost use Rattle.parser.specs.Reading.{IsRead, read};
ghost use Rattle.parser.specs.Refusal.{AreTokensRefused};
ghost use Rattle.parser.specs.declared.fault.ParseRefusalKind.{ParseRefusalKind};

use crate::cursor::Parser;
use crate::fault::ParseFault;
use bumpalo::Bump;
use common::limits::MAX_LEVELS;
use lexer::{Kind, Token};
use std::alloc::Global;
use syntax::{Item, Program};

impl<'t, 'a> Parser<'t, 'a> {
    /// The items of a program, up to the end marker.
    #[tactic(auto, unfolding(crate::specs::ReadGrammar::program, crate::specs::Reading::read))]
    fn parse_program(&mut self) -> Result<Vec<Item<'a>>, ParseFault>
        ensures { IsRead (λ list. program_tree list.items) result self.new.rest.now
            (read MAX_LEVELS program (terminals_of self.old.rest.now)) }
    {
        let items = self.parse_items()?;
        self.expect(Kind::End)?;
        Ok(items)
    }
}

/// The program that tokens spell, whose names are slices of the source, as the texts of the tokens are, and whose operands lie in an
/// arena.
///
/// Precondition: the last token, and no other, is the end marker.
///
/// # Errors
///
/// The first fault in the order of the tokens: one that is unexpected, or one that opens a level where 64 are open. At one token
/// the first comes before the second. Or out of memory.
pub fn parse<'a>(
    alloc: Global,
    arena: &'a Bump,
    tokens: &[Token<'a>],
) -> Result<Program<'a>, ParseFault>
    requires ended { IsTerminated (terminals_of tokens.now) }

    // All the tokens together spell the answer, which has at most as many nodes.
    ensures accepted { IfOk result (λ items.
        SpellsProgram (terminals_of tokens.now) (program_tree items)) }
    ensures bounded { IfOk result (λ items.
        program_nodes (program_tree items) ≤ length tokens.now) }

    // Where the tokens spell a tree, that tree is the answer, unless memory ran out.
    ensures complete { (tree : ProgramTree) → SpellsProgram (terminals_of tokens.now) tree →
        Answers (λ items. program_tree items ≡ tree) (λ _. ⊥) result }

    // A refusal is the first fault, and where the tokens have a fault it is the answer, unless memory ran out.
    ensures first_fault { IfErr result (IfRefused (AreTokensRefused (terminals_of tokens.now))) }
    ensures refuses { (refusal : RefusalAt ParseRefusalKind) →
        AreTokensRefused (terminals_of tokens.now) refusal →
        Answers (λ _. ⊥) (λ found. found ≡ refusal) result }
{
    let mut parser = Parser {
        alloc,
        arena,
        rest: tokens,
    };
    let items = parser.parse_program()?;
    Ok(Program::new(items))
}

/// The laws that tokens spell at most one tree, that what they spell ends in the one end marker, and that the tree has at most as
/// many nodes as there are tokens and is nested at most 64 levels deep; and, where each token has the text of its kind, that it
/// has its names, integers and places of the tokens. And the grammar has a token for each operator, base type, truth value and
/// direction.
pub fn spelling_laws()
    ensures one_tree { SpellsOneTree }
    ensures terminated { SpelledIsTerminated }
    ensures few_nodes { SpelledHasFewNodes }
    ensures nested { SpelledIsNested }
    ensures written { SpelledIsWritten }
    ensures each_there { EachIsThere }
{}

/// The law that each list of tokens with its end marker has either one tree or one refusal.
pub fn one_reading()
    ensures spelled_or_refused { IsSpelledOrRefused }
    ensures one_tree { SpellsOneTree }
    ensures not_both { IsNotSpelledAndRefused }
    ensures one_refusal { TokensHaveOneRefusal }
{}
