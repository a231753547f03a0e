//! What can be wrong with two texts, and the numbers and the words by which it is reported.

ghost use Rattle.acceptance.specs.declared.kind.RefusalKind.TheVariants.{End, Lex, Name, Parse};
ghost use Rattle.std.specs.Prelude.{◌≡◌};

use common::{Message, Reported};
use lexer::LexRefusalKind;
use parser::ParseRefusalKind;
use principals::HierarchyRefusalKind;
use resolved::ExitRefusalKind;
use types::TypeRefusalKind;

/// One of the two texts.
#[derive(Clone, Copy, Debug, PartialEq, Eq, Drop)]
pub enum Text {
    /// The text of the principal hierarchy.
    Hierarchy,
    /// The source of the program.
    Source,
}

/// Why a text is refused. Each kind of refusal stands at a byte of the text.
#[derive(Clone, Copy, Debug, PartialEq, Eq, Drop)]
pub enum RefusalKind {
    /// 701: the text is longer than 1,048,576 bytes.
    TextTooLong,
    /// 100: the text is not UTF-8.
    NotUtf8,
    /// 151 to 154: the text of the hierarchy has no hierarchy.
    Hierarchy(HierarchyRefusalKind),
    /// 101 to 103: the source has no tokens.
    Lex(LexRefusalKind),
    /// 201 and 202: the tokens of the source are no program.
    Parse(ParseRefusalKind),
    /// 301 to 304, 401 to 403, 703 and 704: a name, a type or a size is wrong.
    Name(TypeRefusalKind),
    /// 501 to 505: an exit of a statement or a procedure is wrong.
    End(ExitRefusalKind),
    /// 601: a flow that no labelling allows.
    FlowNotAllowed,
}

impl Reported for RefusalKind {
    ghost use Rattle.acceptance.specs.RefusalKinds.{refusal_message};

    ghost contents = { refusal_message };

    fn message(&self) -> Message {
        match self {
            RefusalKind::TextTooLong => HierarchyRefusalKind::TooLong.message(),
            RefusalKind::NotUtf8 => Message::new(100, "not UTF-8"),
            RefusalKind::Hierarchy(kind) => kind.message(),
            RefusalKind::Lex(kind) => kind.message(),
            RefusalKind::Parse(kind) => kind.message(),
            RefusalKind::Name(kind) => kind.message(),
            RefusalKind::End(kind) => kind.message(),
            RefusalKind::FlowNotAllowed => Message::new(601, "flow not allowed"),
        }
    }
}

impl From<LexRefusalKind> for RefusalKind {
    ghost from_gives = { λ lower kind. kind ≡ Lex lower };

    fn from(refused: LexRefusalKind) -> RefusalKind {
        RefusalKind::Lex(refused)
    }
}

impl From<ParseRefusalKind> for RefusalKind {
    ghost from_gives = { λ lower kind. kind ≡ Parse lower };

    fn from(refused: ParseRefusalKind) -> RefusalKind {
        RefusalKind::Parse(refused)
    }
}

impl From<TypeRefusalKind> for RefusalKind {
    ghost from_gives = { λ lower kind. kind ≡ Name lower };

    fn from(refused: TypeRefusalKind) -> RefusalKind {
        RefusalKind::Name(refused)
    }
}

impl From<ExitRefusalKind> for RefusalKind {
    ghost from_gives = { λ lower kind. kind ≡ End lower };

    fn from(refused: ExitRefusalKind) -> RefusalKind {
        RefusalKind::End(refused)
    }
}
