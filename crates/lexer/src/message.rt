//! The number and the words by which a text that has no tokens is reported.

ghost use Rattle.lexer.specs.RefusalKinds.{lex_message};

use crate::fault::LexRefusalKind;
use common::{Message, Reported};

impl Reported for LexRefusalKind {
    ghost contents = { lex_message };

    fn message(&self) -> Message {
        match self {
            LexRefusalKind::NoToken => Message::new(101, "no token"),
            LexRefusalKind::LiteralTooLarge => Message::new(102, "literal too large"),
            LexRefusalKind::UnclosedComment => Message::new(103, "open comment"),
        }
    }
}
