//! The next lexeme of a text. A private part of the lexer.
ghost use Rattle.lexer.specs.Cut.{IsRefusedFor};
ghost use Rattle.lexer.specs.KindRows.{sign_of};
ghost use Rattle.lexer.specs.Scan.{holds, after_run, after_close, begins_sign, begins_sign_of, IsStopped, IsDouble, IsNoDouble, IsTriple, IsNoTriple, IsTail, Reads, IsStuck, Stops};
ghost use Rattle.lexer.specs.declared.pieces.Class.TheVariants.{NamePart};
ghost use Rattle.unicode_ident.specs.Ident.{is_xid_continue};
ghost use Rattle.lexer.specs.declared.fault.LexRefusalKind.TheVariants.{NoToken};
ghost use Rattle.lexer.specs.Words.{is_white_space, may_begin};
ghost use Rattle.std.specs.Prelude.{◌≡◌, ◌<◌, ◌&&◌, ◌++◌, ◌∷◌, ◌==◌, [], IfSome, MatchResult, MatchOption, IsTrue, Some, None, false, length, nat_lt, not, slice_index};
ghost use Rattle.std.specs.Char.{is_ascii_digit};
ghost use Rattle.std.specs.Str.{chars};

use crate::fault::{LexRefusal, LexRefusalKind};
use crate::names::{begins_name, continues_name, find_keyword};
use crate::token::Kind;
use common::limits::MAX_INTEGER;

/// The lexeme at the front of a text: the kind of its token, or none if it is white space or a
/// comment; and what follows it.
pub(crate) struct Piece<'a> {
    pub(crate) kind: Option<Kind>,
    pub(crate) rest: &'a str,
}

// 1 at each byte that is an ASCII character with which a name goes on
#[rattlefmt::skip]
static NAME_PARTS: [u8; 256] = [
    0, 0, 0, 0, 0, 0, 0, 0, 0, 0, 0, 0, 0, 0, 0, 0,
    0, 0, 0, 0, 0, 0, 0, 0, 0, 0, 0, 0, 0, 0, 0, 0,
    0, 0, 0, 0, 0, 0, 0, 0, 0, 0, 0, 0, 0, 0, 0, 0,
    1, 1, 1, 1, 1, 1, 1, 1, 1, 1, 0, 0, 0, 0, 0, 0,
    0, 1, 1, 1, 1, 1, 1, 1, 1, 1, 1, 1, 1, 1, 1, 1,
    1, 1, 1, 1, 1, 1, 1, 1, 1, 1, 1, 0, 0, 0, 0, 1,
    0, 1, 1, 1, 1, 1, 1, 1, 1, 1, 1, 1, 1, 1, 1, 1,
    1, 1, 1, 1, 1, 1, 1, 1, 1, 1, 1, 0, 0, 0, 0, 0,
    0, 0, 0, 0, 0, 0, 0, 0, 0, 0, 0, 0, 0, 0, 0, 0,
    0, 0, 0, 0, 0, 0, 0, 0, 0, 0, 0, 0, 0, 0, 0, 0,
    0, 0, 0, 0, 0, 0, 0, 0, 0, 0, 0, 0, 0, 0, 0, 0,
    0, 0, 0, 0, 0, 0, 0, 0, 0, 0, 0, 0, 0, 0, 0, 0,
    0, 0, 0, 0, 0, 0, 0, 0, 0, 0, 0, 0, 0, 0, 0, 0,
    0, 0, 0, 0, 0, 0, 0, 0, 0, 0, 0, 0, 0, 0, 0, 0,
    0, 0, 0, 0, 0, 0, 0, 0, 0, 0, 0, 0, 0, 0, 0, 0,
    0, 0, 0, 0, 0, 0, 0, 0, 0, 0, 0, 0, 0, 0, 0, 0,
];

// 1 at each byte that is white space
#[rattlefmt::skip]
static BLANKS: [u8; 256] = [
    0, 0, 0, 0, 0, 0, 0, 0, 0, 1, 1, 0, 0, 1, 0, 0,
    0, 0, 0, 0, 0, 0, 0, 0, 0, 0, 0, 0, 0, 0, 0, 0,
    1, 0, 0, 0, 0, 0, 0, 0, 0, 0, 0, 0, 0, 0, 0, 0,
    0, 0, 0, 0, 0, 0, 0, 0, 0, 0, 0, 0, 0, 0, 0, 0,
    0, 0, 0, 0, 0, 0, 0, 0, 0, 0, 0, 0, 0, 0, 0, 0,
    0, 0, 0, 0, 0, 0, 0, 0, 0, 0, 0, 0, 0, 0, 0, 0,
    0, 0, 0, 0, 0, 0, 0, 0, 0, 0, 0, 0, 0, 0, 0, 0,
    0, 0, 0, 0, 0, 0, 0, 0, 0, 0, 0, 0, 0, 0, 0, 0,
    0, 0, 0, 0, 0, 0, 0, 0, 0, 0, 0, 0, 0, 0, 0, 0,
    0, 0, 0, 0, 0, 0, 0, 0, 0, 0, 0, 0, 0, 0, 0, 0,
    0, 0, 0, 0, 0, 0, 0, 0, 0, 0, 0, 0, 0, 0, 0, 0,
    0, 0, 0, 0, 0, 0, 0, 0, 0, 0, 0, 0, 0, 0, 0, 0,
    0, 0, 0, 0, 0, 0, 0, 0, 0, 0, 0, 0, 0, 0, 0, 0,
    0, 0, 0, 0, 0, 0, 0, 0, 0, 0, 0, 0, 0, 0, 0, 0,
    0, 0, 0, 0, 0, 0, 0, 0, 0, 0, 0, 0, 0, 0, 0, 0,
    0, 0, 0, 0, 0, 0, 0, 0, 0, 0, 0, 0, 0, 0, 0, 0,
];

#[inline(always)]
fn is_blank(byte: u8) -> bool
    ensures { result ≡ (nat_lt byte 128 && is_white_space byte) }
{
    BLANKS[usize::from(byte)] == 1
}

#[inline(always)]
fn is_name_part(byte: u8) -> bool
    ensures { result ≡ (nat_lt byte 128 && is_xid_continue byte) }
{
    NAME_PARTS[usize::from(byte)] == 1
}

/// The characters of a run.
#[derive(Clone, Copy)]
enum Class {
    Blank,
    Digit,
    NamePart,
    InLine,
}

impl Class {
    fn holds(self, character: char) -> bool
        ensures { result ≡ holds self character }
    {
        match self {
            Class::Blank => is_white_space(character),
            Class::Digit => character.is_ascii_digit(),
            Class::NamePart => continues_name(character),
            Class::InLine => character != '\n',
        }
    }

    fn holds_byte(self, byte: u8) -> bool
        ensures { result ≡ (nat_lt byte 128 && holds self byte) }
    {
        match self {
            Class::Blank => is_blank(byte),
            Class::NamePart => is_name_part(byte),
            _ => byte.is_ascii() && self.holds(byte as char),
        }
    }
}

/// The next lexeme of `text`, which goes on, but not with white space, at the byte `at`.
#[inline(always)]
pub(crate) fn cut_piece(text: &str, at: usize) -> Result<Piece<'_>, LexRefusal>
    requires goes_on { 0 < length text.now }
    requires dark { Stops is_white_space (chars text.now) }
    ensures { MatchResult result (λ piece. Reads (chars text.now) piece.kind (chars piece.rest.now))
        (IsStuck at (chars text.now)) }
{
    let byte = text.as_bytes()[0];
    if is_name_part(byte) {
        let after = pass_ascii(text);
        return if byte.is_ascii_digit() {
            cut_literal(text, byte as char, after, at)
        } else {
            Ok(cut_word(text, byte as char, after))
        };
    }
    match kind_of_short(byte as char) {
        Some(kind) => Ok(Piece {
            kind: Some(kind),
            rest: pass_ascii(text),
        }),
        None => cut_other(text, at),
    }
}

/// What follows the first byte of `text`, which is ASCII.
#[inline(always)]
fn pass_ascii(text: &str) -> &str
    requires goes_on { 0 < length text.now }
    requires ascii { slice_index text.now 0 < 128 }
    ensures { chars text.now ≡ slice_index text.now 0 ∷ chars result.now }
{
    let (_, rest) = text.split_at(1);
    rest
}

/// The same, where no ASCII letter or digit stands at the front, nor a sign with which no longer one begins.
#[inline(always)]
fn cut_other(text: &str, at: usize) -> Result<Piece<'_>, LexRefusal>
    requires goes_on { 0 < length text.now }
    requires dark { Stops is_white_space (chars text.now) }
    requires apart { IsStopped NamePart text.now }
    ensures { MatchResult result (λ piece. Reads (chars text.now) piece.kind (chars piece.rest.now))
        (IsStuck at (chars text.now)) }
{
    let refusal = LexRefusal {
        kind: LexRefusalKind::NoToken,
        at,
    };
    match split_first(text) {
        Some(('/', after)) => cut_solidus(text, after, at),
        Some((first, after)) if begins_far_name(first) => Ok(cut_far_word(text, first, after)),
        Some((first, after)) => cut_sign(text, first, after).ok_or(refusal),
        None => Err(refusal),
    }
}

/// Whether a character beyond ASCII may begin a name.
fn begins_far_name(character: char) -> bool
    ensures { result ≡ (not (nat_lt character 128) && may_begin character) }
{
    !character.is_ascii() && begins_name(character)
}

#[inline(always)]
fn is_white_space(character: char) -> bool
    ensures { result ≡ is_white_space character }
{
    character <= ' ' && matches!(character, ' ' | '\t' | '\r' | '\n')
}

/// A run of digits.
fn cut_literal<'a>(
    text: &'a str,
    first: char,
    after: &'a str,
    at: usize,
) -> Result<Piece<'a>, LexRefusal>
    requires split { chars text.now ≡ first ∷ chars after.now }
    requires digit { IsTrue (is_ascii_digit first) }
    ensures { MatchResult result (λ piece. Reads (chars text.now) piece.kind (chars piece.rest.now))
        (IsStuck at (chars text.now)) }
{
    let rest = skip_run(after, Class::Digit);
    match take_front(text, rest).parse::<u32>() {
        Ok(value) if value <= MAX_INTEGER => Ok(Piece {
            kind: Some(Kind::Integer(value)),
            rest,
        }),
        _ => Err(LexRefusal {
            kind: LexRefusalKind::LiteralTooLarge,
            at,
        }),
    }
}

/// A keyword or a name.
#[inline(always)]
fn cut_word<'a>(text: &'a str, first: char, after: &'a str) -> Piece<'a>
    requires split { chars text.now ≡ first ∷ chars after.now }
    requires begins { IsTrue (may_begin first) }
    ensures { Reads (chars text.now) result.kind (chars result.rest.now) }
{
    let rest = skip_run(after, Class::NamePart);
    let kind = find_keyword(take_front(text, rest)).unwrap_or(Kind::Name);
    Piece {
        kind: Some(kind),
        rest,
    }
}

/// The same, for names that are rare.
#[inline(never)]
fn cut_far_word<'a>(text: &'a str, first: char, after: &'a str) -> Piece<'a>
    requires split { chars text.now ≡ first ∷ chars after.now }
    requires begins { IsTrue (may_begin first) }
    ensures { Reads (chars text.now) result.kind (chars result.rest.now) }
{
    cut_word(text, first, after)
}

/// A comment, or the sign `/`.
fn cut_solidus<'a>(text: &'a str, after: &'a str, at: usize) -> Result<Piece<'a>, LexRefusal>
    requires { chars text.now ≡ 47 ∷ chars after.now }
    ensures { MatchResult result (λ piece. Reads (chars text.now) piece.kind (chars piece.rest.now))
        (IsStuck at (chars text.now)) }
{
    let mut characters = after.chars();
    match characters.next() {
        Some('/') => Ok(Piece {
            kind: None,
            rest: skip_run(characters.as_str(), Class::InLine),
        }),
        Some('*') => match skip_comment(characters.as_str()) {
            Some(rest) => Ok(Piece { kind: None, rest }),
            None => Err(LexRefusal {
                kind: LexRefusalKind::UnclosedComment,
                at,
            }),
        },
        _ => Ok(Piece {
            kind: Some(Kind::Slash),
            rest: after,
        }),
    }
}

/// A sign other than `/`, if one begins here.
fn cut_sign<'a>(text: &'a str, first: char, after: &'a str) -> Option<Piece<'a>>
    requires split { chars text.now ≡ first ∷ chars after.now }
    requires begins { IsTrue (begins_sign first) }
    ensures { MatchOption result (IsRefusedFor (chars text.now) NoToken)
        (λ piece. Reads (chars text.now) piece.kind (chars piece.rest.now)) }
{
    if let Some((kind, rest)) = cut_triple_sign(first, after) {
        return Some(Piece {
            kind: Some(kind),
            rest,
        });
    }
    if let Some((kind, rest)) = cut_double_sign(first, after) {
        return Some(Piece {
            kind: Some(kind),
            rest,
        });
    }
    let kind = kind_of_sign(first)?;
    Some(Piece {
        kind: Some(kind),
        rest: after,
    })
}

/// The sign of three characters that begins with `first` and goes on in `after`, if there is one,
/// and what follows it.
fn cut_triple_sign(first: char, after: &str) -> Option<(Kind, &str)>
    ensures { MatchOption result (IsNoTriple first (chars after.now)) (λ sign. IsTriple first
        (chars after.now) sign.0 (chars sign.1.now)) }
{
    if !begins_triple(first) {
        return None;
    }
    let (second, beyond) = split_first(after)?;
    let (third, rest) = split_first(beyond)?;
    let kind = kind_of_triple(first, second, third)?;
    Some((kind, rest))
}

fn begins_triple(character: char) -> bool
    ensures { result ≡ begins_sign_of 3 character }
{
    character == '>'
}

fn kind_of_triple(first: char, second: char, third: char) -> Option<Kind>
    ensures { result ≡ sign_of (first ∷ second ∷ third ∷ []) }
{
    match (first, second, third) {
        ('>', '>', '>') => Some(Kind::ShiftRightUnsigned),
        _ => None,
    }
}

/// The sign of two characters that begins with `first` and goes on in `after`, if there is one, and
/// what follows it.
fn cut_double_sign(first: char, after: &str) -> Option<(Kind, &str)>
    ensures { MatchOption result (IsNoDouble first (chars after.now)) (λ sign. IsDouble first
        (chars after.now) sign.0 (chars sign.1.now)) }
{
    if !begins_pair(first) {
        return None;
    }
    let (second, rest) = split_first(after)?;
    let kind = kind_of_pair(first, second)?;
    Some((kind, rest))
}

fn begins_pair(character: char) -> bool
    ensures { result ≡ begins_sign_of 2 character }
{
    matches!(character, '=' | '!' | '<' | '>' | '&' | '|')
}

fn kind_of_pair(first: char, second: char) -> Option<Kind>
    ensures { result ≡ sign_of (first ∷ second ∷ []) }
{
    match (first, second) {
        ('=', '=') => Some(Kind::EqualTo),
        ('!', '=') => Some(Kind::NotEqualTo),
        ('<', '=') => Some(Kind::AtMost),
        ('>', '=') => Some(Kind::AtLeast),
        ('&', '&') => Some(Kind::And),
        ('|', '|') => Some(Kind::Or),
        ('<', '<') => Some(Kind::ShiftLeft),
        ('>', '>') => Some(Kind::ShiftRight),
        _ => None,
    }
}

/// The kind of the sign that a character is, if no longer one begins with it.
fn kind_of_short(character: char) -> Option<Kind>
    ensures sign { IfSome result (λ kind. sign_of (character ∷ []) ≡ Some kind) }
    ensures alone { IfSome result (λ _. begins_sign_of 2 character ≡ false) }
    ensures single { IfSome result (λ _. begins_sign_of 3 character ≡ false) }
    ensures no_solidus { IfSome result (λ _. (character == 47) ≡ false) }
{
    match character {
        '{' => Some(Kind::OpenBrace),
        '}' => Some(Kind::CloseBrace),
        '(' => Some(Kind::OpenParenthesis),
        ')' => Some(Kind::CloseParenthesis),
        '[' => Some(Kind::OpenBracket),
        ']' => Some(Kind::CloseBracket),
        ';' => Some(Kind::Semicolon),
        ',' => Some(Kind::Comma),
        ':' => Some(Kind::Colon),
        '+' => Some(Kind::Plus),
        '-' => Some(Kind::Minus),
        '*' => Some(Kind::Star),
        '%' => Some(Kind::Percent),
        '^' => Some(Kind::BitXor),
        _ => None,
    }
}

fn kind_of_sign(character: char) -> Option<Kind>
    ensures { result ≡ sign_of (character ∷ []) }
{
    match character {
        '{' => Some(Kind::OpenBrace),
        '}' => Some(Kind::CloseBrace),
        '(' => Some(Kind::OpenParenthesis),
        ')' => Some(Kind::CloseParenthesis),
        '[' => Some(Kind::OpenBracket),
        ']' => Some(Kind::CloseBracket),
        ';' => Some(Kind::Semicolon),
        ',' => Some(Kind::Comma),
        ':' => Some(Kind::Colon),
        '=' => Some(Kind::Assign),
        '<' => Some(Kind::LessThan),
        '>' => Some(Kind::GreaterThan),
        '+' => Some(Kind::Plus),
        '-' => Some(Kind::Minus),
        '*' => Some(Kind::Star),
        '/' => Some(Kind::Slash),
        '%' => Some(Kind::Percent),
        '!' => Some(Kind::Not),
        '&' => Some(Kind::BitAnd),
        '|' => Some(Kind::BitOr),
        '^' => Some(Kind::BitXor),
        _ => None,
    }
}

/// The first character of `text`, and what follows it.
fn split_first(text: &str) -> Option<(char, &str)>
    ensures { MatchOption result (text.now ≡ []) (λ split. chars text.now ≡ split.0 ∷ chars
        split.1.now) }
{
    let mut characters = text.chars();
    let first = characters.next()?;
    Some((first, characters.as_str()))
}

/// What stands in `text` before `rest`, which ends it.
pub(crate) fn take_front<'a>(text: &'a str, rest: &str) -> &'a str
    requires { IsTail (chars text.now) (chars rest.now) }
    ensures { chars text.now ≡ chars result.now ++ chars rest.now }
{
    let (front, _) = text.split_at(text.len() - rest.len());
    front
}

/// What follows the longest front of `text` that is ASCII and of the class: bytes cost less to look at than characters.
#[inline(always)]
fn skip_ascii(text: &str, class: Class) -> &str
    ensures stops { IsStopped class result.now }
    ensures run { after_run (holds class) (chars result.now) ≡
        after_run (holds class) (chars text.now) }
{
    let bytes = text.as_bytes();
    let mut at = 0;
    while at < bytes.len() && class.holds_byte(bytes[at]) {
        at += 1;
    }
    let (_, rest) = text.split_at(at);
    rest
}

/// What follows the longest front of `text` whose characters are all of the class.
#[inline(always)]
fn skip_run(text: &str, class: Class) -> &str
    ensures { chars result.now ≡ after_run (holds class) (chars text.now) }
{
    let rest = skip_ascii(text, class);
    match rest.as_bytes() {
        [byte, ..] if !byte.is_ascii() => skip_characters(rest, class),
        _ => rest,
    }
}

/// The same, character by character.
#[inline(never)]
fn skip_characters(text: &str, class: Class) -> &str
    ensures { chars result.now ≡ after_run (holds class) (chars text.now) }
{
    let mut characters = text.chars();
    loop {
        let rest = characters.as_str();
        let Some(character) = characters.next() else {
            return rest;
        };
        if !class.holds(character) {
            return rest;
        }
    }
}

/// What follows the white space at the front of `text`.
pub(crate) fn skip_blanks(text: &str) -> &str
    ensures { chars result.now ≡ after_run is_white_space (chars text.now) }
{
    skip_ascii(text, Class::Blank)
}

/// What follows the first `*/` of `text`.
#[inline(never)]
fn skip_comment(text: &str) -> Option<&str>
    ensures { MatchOption result (after_close false (chars text.now) ≡ None)
        (λ rest. after_close false (chars text.now) ≡ Some (chars rest.now)) }
{
    let mut characters = text.chars();
    let mut starred = false;
    while let Some(character) = characters.next() {
        if starred && character == '/' {
            return Some(characters.as_str());
        }
        starred = character == '*';
    }
    None
}
