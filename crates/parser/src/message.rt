//! The number and the words by which a wrong token is reported.

ghost use Rattle.parser.specs.RefusalKinds.{parse_message};

use crate::fault::ParseRefusalKind;
use common::{Message, Reported};

impl Reported for ParseRefusalKind {
    ghost contents = { parse_message };

    fn message(&self) -> Message {
        match self {
            ParseRefusalKind::UnexpectedToken => Message::new(201, "unexpected token"),
            ParseRefusalKind::TooDeep => Message::new(202, "nested too deep"),
        }
    }
}
