//! The number and the words by which a text that has no hierarchy is reported.

ghost use Rattle.principals.specs.RefusalKinds.{hierarchy_message};

use crate::fault::HierarchyRefusalKind;
use common::{Message, Reported};

impl Reported for HierarchyRefusalKind {
    ghost contents = { hierarchy_message };

    fn message(&self) -> Message {
        match self {
            HierarchyRefusalKind::TooLong => Message::new(701, "text too long"),
            HierarchyRefusalKind::Syntax => Message::new(151, "syntax"),
            HierarchyRefusalKind::DeclaredTwice => Message::new(152, "declared twice"),
            HierarchyRefusalKind::UnknownPrincipal => Message::new(153, "unknown principal"),
            HierarchyRefusalKind::TooManyPrincipals => Message::new(154, "too many principals"),
        }
    }
}
