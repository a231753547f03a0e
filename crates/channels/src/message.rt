//! The number and the words by which a wrong line of a world is reported.

ghost use Rattle.channels.specs.RefusalKinds.{world_message};

use crate::kind::WorldRefusalKind;
use common::{Message, Reported};

impl Reported for WorldRefusalKind {
    ghost contents = { world_message };

    fn message(&self) -> Message {
        match self {
            WorldRefusalKind::Syntax => Message::new(851, "syntax"),
            WorldRefusalKind::UnknownChannel => Message::new(852, "unknown channel"),
            WorldRefusalKind::RepeatedChannel => Message::new(853, "repeated channel"),
            WorldRefusalKind::NumberOutOfRange => Message::new(854, "number out of range"),
        }
    }
}
