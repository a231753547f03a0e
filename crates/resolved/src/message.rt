//! The number and the words by which a fault of the exits is reported.

ghost use Rattle.resolved.specs.RefusalKinds.{exit_message};

use crate::fault::ExitRefusalKind;
use common::{Message, Reported};

impl Reported for ExitRefusalKind {
    ghost contents = { exit_message };

    fn message(&self) -> Message {
        match self {
            ExitRefusalKind::Unreachable => Message::new(501, "unreachable"),
            ExitRefusalKind::NoValueReturned => Message::new(502, "no value returned"),
            ExitRefusalKind::Undeclared => Message::new(503, "exception not declared"),
            ExitRefusalKind::NeverRaised => Message::new(504, "never raised"),
            ExitRefusalKind::OutsideLoop => Message::new(505, "not in a loop"),
        }
    }
}
