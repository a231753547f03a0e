//! The number and the words by which a fault of code is reported.

ghost use Rattle.verifier.specs.RefusalKinds.{code_message};

use crate::fault::CodeRefusalKind;
use common::{Message, Reported};

impl Reported for CodeRefusalKind {
    ghost contents = { code_message };

    fn message(&self) -> Message {
        match self {
            CodeRefusalKind::Jump => Message::new(811, "jump"),
            CodeRefusalKind::OperandKind => Message::new(812, "operand kind"),
            CodeRefusalKind::OperandDepth => Message::new(813, "operand depth"),
            CodeRefusalKind::SlotOrIndex => Message::new(814, "slot or index"),
            CodeRefusalKind::FallsOffEnd => Message::new(815, "falls off the end"),
        }
    }
}
