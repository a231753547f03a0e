//! Rows that ask what a text is cut into.

use crate::answer::{write, write_lines};
use crate::fault::{LineFault, LineRefusal};
use crate::texts::Texts;
use common::OrNoMemory;
use lexer::{LexRefusal, Token, lex};
use std::alloc::Global;

/// `tokens NAME`: the number of tokens, and for each the byte where it begins, what it is, and its text. `count NAME`: the
/// number alone.
pub fn answer_tokens(
    texts: &Texts,
    name: &str,
    has_lines: bool,
    answer: &mut Vec<u8>,
) -> Result<(), LineFault> {
    let alloc = texts.alloc();
    let Ok(text) = str::from_utf8(texts.get(name)?) else {
        return Err(OrNoMemory::Refused(LineRefusal::WRONG_FORM));
    };
    match lex(alloc, text) {
        Ok(tokens) => write_tokens(alloc, &tokens, has_lines, answer),
        Err(OrNoMemory::NoMemory) => Err(OrNoMemory::NoMemory),
        Err(OrNoMemory::Refused(refusal)) => write_refusal(alloc, refusal, answer),
    }
}

fn write_tokens(
    alloc: Global,
    tokens: &[Token<'_>],
    has_lines: bool,
    answer: &mut Vec<u8>,
) -> Result<(), LineFault> {
    let count = tokens.len();
    let line = format!(in alloc; "= {count}\n")?;
    write(answer, line.as_bytes())?;
    if !has_lines {
        return Ok(());
    }
    for token in tokens {
        write_token(alloc, token, answer)?;
    }
    Ok(())
}

fn write_token(alloc: Global, token: &Token<'_>, answer: &mut Vec<u8>) -> Result<(), LineFault> {
    let (at, kind, text) = (token.start, token.kind, token.text);
    let line = if text.is_empty() {
        format!(in alloc; "{at} {kind:?}\n")?
    } else {
        format!(in alloc; "{at} {kind:?} {text}\n")?
    };
    write_lines(answer, b'>', line.as_bytes())
}

fn write_refusal(
    alloc: Global,
    refusal: LexRefusal,
    answer: &mut Vec<u8>,
) -> Result<(), LineFault> {
    let at = refusal.at;
    let line = format!(in alloc; "= refused\n! {at} {refusal}\n")?;
    write(answer, line.as_bytes())
}
