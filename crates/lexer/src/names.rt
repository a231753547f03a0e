ghost use Rattle.lexer.specs.KindRows.{keyword_of};
ghost use Rattle.lexer.specs.Words.{is_name_text, is_identifier, may_begin};
ghost use Rattle.unicode_ident.specs.Ident.{is_xid_continue};
ghost use Rattle.std.specs.Prelude.{◌≡◌, None, Some, bytes_eq, cond, length, slice_index};
ghost use Rattle.std.specs.Str.{chars};

use crate::token::Kind;

/// Whether `text` is one whole name: an identifier that is no keyword.
///
/// An identifier is a character that may begin one by Unicode Standard Annex 31, or `_`, and then
/// characters that may continue one. No normalization takes place.
pub fn is_name(text: &str) -> bool
    ensures { result ≡ is_name_text text.now }
{
    is_identifier(text) && find_keyword(text).is_none()
}

fn is_identifier(text: &str) -> bool
    ensures { result ≡ is_identifier (chars text.now) }
{
    let mut characters = text.chars();
    match characters.next() {
        Some(first) if begins_name(first) => characters.all(continues_name),
        _ => false,
    }
}

pub(crate) fn begins_name(character: char) -> bool
    ensures { result ≡ may_begin character }
{
    if character.is_ascii() {
        character.is_ascii_alphabetic() || character == '_'
    } else {
        unicode_ident::is_xid_start(character)
    }
}

pub(crate) fn continues_name(character: char) -> bool
    ensures { result ≡ is_xid_continue character }
{
    unicode_ident::is_xid_continue(character)
}

/// The kind of the keyword that `text` is, if it is one: no two keywords have both their length and their first byte in common.
#[inline(always)]
pub(crate) fn find_keyword(text: &str) -> Option<Kind>
    ensures { result ≡ keyword_of text.now }
{
    let [first, ..] = text.as_bytes() else {
        return None;
    };
    match (text.len(), *first) {
        (7, b'b') => keep(text, "boolean", Kind::Boolean),
        (5, b'b') => keep(text, "break", Kind::Break),
        (5, b'c') => keep(text, "catch", Kind::Catch),
        (8, b'c') => keep(text, "continue", Kind::Continue),
        (4, b'e') => keep(text, "else", Kind::Else),
        (9, b'e') => keep(text, "exception", Kind::Exception),
        (5, b'f') => keep(text, "false", Kind::False),
        (6, b'g') => keep(text, "global", Kind::Global),
        (2, b'i') => keep(text, "if", Kind::If),
        (5, b'i') => keep(text, "input", Kind::Input),
        (3, b'i') => keep(text, "int", Kind::Int),
        (6, b'o') => keep(text, "output", Kind::Output),
        (7, b'r') => keep(text, "receive", Kind::Receive),
        (6, b'r') => keep(text, "return", Kind::Return),
        (4, b's') => keep(text, "send", Kind::Send),
        (5, b't') => keep(text, "throw", Kind::Throw),
        (6, b't') => keep(text, "throws", Kind::Throws),
        (4, b't') => keep(text, "true", Kind::True),
        (3, b't') => keep(text, "try", Kind::Try),
        (4, b'v') => keep(text, "void", Kind::Void),
        (5, b'w') => keep(text, "while", Kind::While),
        _ => None,
    }
}

/// The kind, if the text is this word, which is as long and has the same first byte.
#[inline(always)]
fn keep(text: &str, word: &str, kind: Kind) -> Option<Kind>
    requires long { length text.now ≡ length word.now }
    requires first { slice_index text.now 0 ≡ slice_index word.now 0 }
    ensures { result ≡ cond (bytes_eq text.now word.now) (Some kind) None }
{
    let bytes = text.as_bytes();
    let wanted = word.as_bytes();
    let mut at = 1;
    while at < wanted.len() {
        if bytes[at] != wanted[at] {
            return None;
        }
        at += 1;
    }
    Some(kind)
}
