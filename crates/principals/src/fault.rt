ghost use Rattle.principals.specs.declared.fault.HierarchyRefusalKind.TheVariants.{Syntax};
ghost use Rattle.std.specs.Prelude.{◌≡◌};

use common::{OrNoMemory, RefusalAt};
use lexer::LexRefusalKind;

/// What is wrong with a text that has no hierarchy.
#[derive(Clone, Copy, Debug, Drop, PartialEq, Eq)]
pub enum HierarchyRefusalKind {
    /// 701: the text is longer than 1,048,576 bytes.
    TooLong,
    /// 151: here no token begins, or a token with which no text of a hierarchy goes on.
    Syntax,
    /// 152: a declared name that was declared before.
    DeclaredTwice,
    /// 153: a name that was not declared before. A host and the command report an unknown principal so too.
    UnknownPrincipal,
    /// 154: the 257th principal.
    TooManyPrincipals,
}

/// Why a text has no hierarchy: what is wrong, and the byte at which it stands. A text that is too long is refused at its first
/// byte.
pub type HierarchyRefusal = RefusalAt<HierarchyRefusalKind>;

/// Why a text gave no hierarchy.
pub type HierFault = OrNoMemory<HierarchyRefusal>;

impl From<LexRefusalKind> for HierarchyRefusalKind {
    ghost from_gives = { λ _ kind. kind ≡ Syntax };

    fn from(_refused: LexRefusalKind) -> HierarchyRefusalKind {
        HierarchyRefusalKind::Syntax
    }
}
