//! The number and the words by which bytes that spell no module are reported.

ghost use Rattle.modules.specs.RefusalKinds.{format_message};

use crate::fault::FormatRefusalKind;
use common::{Message, Reported};

impl Reported for FormatRefusalKind {
    ghost contents = { format_message };

    fn message(&self) -> Message {
        match self {
            FormatRefusalKind::Magic => Message::new(801, "magic"),
            FormatRefusalKind::Version => Message::new(802, "version"),
            FormatRefusalKind::Short => Message::new(803, "short"),
            FormatRefusalKind::BadValue => Message::new(804, "bad value"),
            FormatRefusalKind::NotCanonical => Message::new(805, "not canonical"),
            FormatRefusalKind::Trailing => Message::new(806, "trailing bytes"),
        }
    }
}
