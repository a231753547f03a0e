ghost use Rattle.common.specs.Answers.{Answers, IfRefused};
ghost use Rattle.common.specs.declared.refusal.RefusalAt.{RefusalAt};
ghost use Rattle.lexer.specs.Cut.{IsCut, IsTextRefused};
ghost use Rattle.lexer.specs.Laws.{IsCutOrRefused, HasOneCut, IsNotCutAndRefused, TextsHaveOneRefusal};
ghost use Rattle.lexer.specs.Listing.{IsAtCharacter, IsRefusedAtCharacter, IsInOrder, IsSliceOf, IsSpelled};
ghost use Rattle.lexer.specs.Terminal.{Terminal, terminals_of, IsTerminated};
ghost use Rattle.lexer.specs.declared.fault.LexRefusalKind.{LexRefusalKind};
ghost use Rattle.std.specs.Prelude.{◌≡◌, ◌≤◌, ◌+◌, List, IfOk, IfErr, length};
ghost use Rattle.std.specs.List.{All};

use crate::fault::LexFault;
use crate::pieces::{Piece, cut_piece, skip_blanks, take_front};
use crate::token::{Kind, Token};
use common::OrNoMemory;
use std::alloc::Global;

/// The tokens of `src` by longest match, with an `End` after them.
///
/// White space and comments give no token. The first refusal in the text is reported, unless memory ran
/// out before.
pub fn lex(alloc: Global, src: &str) -> Result<Vec<Token<'_>>, LexFault>
    ensures accepted { IfOk result (λ tokens. IsCut src.now (terminals_of tokens.items)) }
    ensures complete { (tokens : List Terminal) → IsCut src.now tokens →
        Answers (λ found. terminals_of found.items ≡ tokens) (λ _. ⊥) result }
    ensures first_fault { IfErr result (IfRefused (IsTextRefused src.now)) }
    ensures refuses { (refusal : RefusalAt LexRefusalKind) → IsTextRefused src.now refusal →
        Answers (λ _. ⊥) (λ found. found ≡ refusal) result }
    ensures terminated { IfOk result (λ tokens. IsTerminated (terminals_of tokens.items)) }
    ensures in_order { IfOk result (λ tokens.
        IsInOrder 0 (terminals_of tokens.items) (length src.now)) }
    ensures slices { IfOk result (λ tokens. All (IsSliceOf src.now) (terminals_of tokens.items)) }
    ensures spelled { IfOk result (λ tokens. All IsSpelled (terminals_of tokens.items)) }
    ensures at_characters { IfOk result (λ tokens.
        All (IsAtCharacter src.now) (terminals_of tokens.items)) }
    ensures refused_at_character { IfErr result (IfRefused (IsRefusedAtCharacter src.now)) }
    ensures count { IfOk result (λ tokens.
        length (terminals_of tokens.items) ≤ length src.now + 1) }
{
    // A token takes three bytes or more of most texts, with the space before it.
    let mut tokens = Vec::with_capacity(alloc, src.len() / 3 + 1)?;
    let mut rest = skip_blanks(src);
    while !rest.is_empty() {
        let start = src.len() - rest.len();
        let Piece { kind, rest: left } = cut_piece(rest, start).map_err(OrNoMemory::Refused)?;
        let front = rest;
        rest = skip_blanks(left);
        if let Some(kind) = kind {
            let text = take_front(front, left);
            tokens.push(Token { kind, text, start })?;
        }
    }
    tokens.push(Token {
        kind: Kind::End,
        text: rest,
        start: src.len(),
    })?;
    Ok(tokens)
}

/// The law that each text has either one cut or one refusal.
pub fn one_reading()
    ensures cut_or_refused { IsCutOrRefused }
    ensures one_cut { HasOneCut }
    ensures not_both { IsNotCutAndRefused }
    ensures one_refusal { TextsHaveOneRefusal }
{}
