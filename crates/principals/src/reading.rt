//! The form of a hierarchy text, read one token after another.

ghost use Rattle.common.specs.Answers.{IfRefused};
ghost use Rattle.lexer.specs.Terminal.{IsTerminated, terminal_of, terminals_of};
ghost use Rattle.principals.specs.Reading.{entries_of, IsFormRefusal, role_of, IsHierarchyForm};
ghost use Rattle.std.specs.Prelude.{IfErr, IfOk, ◌≡◌};

use crate::fault::{HierFault, HierarchyRefusal, HierarchyRefusalKind};
use common::OrNoMemory;
use lexer::{Kind, Token};
use std::alloc::Global;

/// What a token is in a hierarchy text.
#[derive(Clone, Copy)]
pub(crate) enum TokenRole {
    /// The word `principal`.
    Principal,
    /// The word `actsfor`.
    ActsFor,
    /// Another name.
    Name,
    Comma,
    Semicolon,
    End,
    /// A token that no text of this form has.
    Other,
}

/// What a text says: that there is a principal of a name, or that one acts for another.
#[derive(Clone, Copy)]
pub(crate) enum HierarchyStatement<'a> {
    Declares(Token<'a>),
    Relates(Token<'a>, Token<'a>),
}

/// What was read of an item.
#[derive(Clone, Copy)]
pub(crate) enum ItemState<'a> {
    /// Nothing: an item begins, or the text ends.
    Fresh,
    /// What comes before a declared name: the word `principal`, or a comma.
    Declaring,
    /// A declared name.
    Listed,
    /// The left name of a pair.
    Subject(Token<'a>),
    /// The left name of a pair and the word `actsfor`.
    Verb(Token<'a>),
    /// Both names of a pair.
    Complete,
    /// All items and the end marker.
    Ended,
}

#[tactic(auto, using(lexer::proofs::Fixed::code_kind))]
fn role_of(token: &Token<'_>) -> TokenRole
    ensures { result ≡ role_of (terminal_of token.now) }
{
    match token.kind {
        Kind::Name => match token.text {
            "principal" => TokenRole::Principal,
            "actsfor" => TokenRole::ActsFor,
            _ => TokenRole::Name,
        },
        Kind::Comma => TokenRole::Comma,
        Kind::Semicolon => TokenRole::Semicolon,
        Kind::End => TokenRole::End,
        _ => TokenRole::Other,
    }
}

impl<'a> ItemState<'a> {
    ghost use Rattle.lexer.specs.Terminal.{terminal_of};
    ghost use Rattle.principals.specs.Reading.{entry_of, finished_entries, next, state_of};
    ghost use Rattle.std.specs.Prelude.{map, option_map, option_to_list, ◌≡◌};

    /// What was read after one more token, or `None` where no text of the form goes on with it.
    fn next(self, token: Token<'a>) -> Option<ItemState<'a>>
        ensures { option_map (λ after. state_of after) result ≡ next (state_of self.entry)
            (terminal_of token.entry) }
    {
        match self {
            ItemState::Fresh => match role_of(&token) {
                TokenRole::Principal => Some(ItemState::Declaring),
                TokenRole::Name => Some(ItemState::Subject(token)),
                TokenRole::End => Some(ItemState::Ended),
                _ => None,
            },
            ItemState::Declaring => match role_of(&token) {
                TokenRole::Name => Some(ItemState::Listed),
                _ => None,
            },
            ItemState::Listed => match role_of(&token) {
                TokenRole::Comma => Some(ItemState::Declaring),
                TokenRole::Semicolon => Some(ItemState::Fresh),
                _ => None,
            },
            ItemState::Subject(left) => match role_of(&token) {
                TokenRole::ActsFor => Some(ItemState::Verb(left)),
                _ => None,
            },
            ItemState::Verb(_) => match role_of(&token) {
                TokenRole::Name => Some(ItemState::Complete),
                _ => None,
            },
            ItemState::Complete => match role_of(&token) {
                TokenRole::Semicolon => Some(ItemState::Fresh),
                _ => None,
            },
            ItemState::Ended => None,
        }
    }

    /// The statement that one more token makes whole.
    fn finish(self, token: Token<'a>) -> Option<HierarchyStatement<'a>>
        ensures { map (λ statement. entry_of statement) (option_to_list result)
            ≡ finished_entries (state_of self.entry) (terminal_of token.entry) }
    {
        match self {
            ItemState::Declaring => Some(HierarchyStatement::Declares(token)),
            ItemState::Verb(left) => Some(HierarchyStatement::Relates(left, token)),
            _ => None,
        }
    }
}

/// What the tokens of a text say, or the first token with which no text of the form goes on.
pub(crate) fn read_statements<'a>(
    alloc: Global,
    tokens: &[Token<'a>],
) -> Result<Vec<HierarchyStatement<'a>>, HierFault>
    requires { IsTerminated (terminals_of tokens.now) }
    ensures form { IfOk result (λ statements. IsHierarchyForm (terminals_of tokens.now)
        (entries_of statements.items)) }
    ensures rejected { IfErr result (IfRefused (IsFormRefusal (terminals_of tokens.now))) }
{
    let mut statements = Vec::new(alloc);
    let mut progress = ItemState::Fresh;
    for token in tokens {
        let Some(after) = progress.next(*token) else {
            let at = token.start;
            let kind = HierarchyRefusalKind::Syntax;
            return Err(OrNoMemory::Refused(HierarchyRefusal { kind, at }));
        };
        if let Some(statement) = progress.finish(*token) {
            statements.push(statement)?;
        }
        progress = after;
    }
    Ok(statements)
}
