//! The number and the words by which a fault of names, types and sizes is reported.

ghost use Rattle.types.specs.RefusalKinds.{name_message};

use crate::fault::TypeRefusalKind;
use common::{Message, Reported};
use principals::HierarchyRefusalKind;

impl Reported for TypeRefusalKind {
    ghost contents = { name_message };

    fn message(&self) -> Message {
        match self {
            TypeRefusalKind::UnknownName => Message::new(301, "unknown name"),
            TypeRefusalKind::DeclaredTwice => Message::new(302, "declared twice"),
            TypeRefusalKind::UnknownPrincipal => {
                Message::new(303, HierarchyRefusalKind::UnknownPrincipal.words())
            }
            TypeRefusalKind::NoProperMain => Message::new(304, "no proper main"),
            TypeRefusalKind::LabelNotWritten => Message::new(305, "label not written"),
            TypeRefusalKind::WrongType => Message::new(401, "wrong type"),
            TypeRefusalKind::WrongArgumentCount => Message::new(402, "wrong argument count"),
            TypeRefusalKind::WrongUse => Message::new(403, "wrong use"),
            TypeRefusalKind::ArraySize => Message::new(703, "array size"),
            TypeRefusalKind::TooManyCells => Message::new(704, "too many cells"),
        }
    }
}
