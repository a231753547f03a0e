use common::{OrNoMemory, RefusalAt};

/// What is wrong with a text that has no tokens.
#[derive(Clone, Copy, Debug, Drop, PartialEq, Eq)]
pub enum LexRefusalKind {
    /// 101: no token, white space or comment begins here.
    NoToken,
    /// 102: an integer above 2147483647 begins here.
    LiteralTooLarge,
    /// 103: a comment opens here that never ends.
    UnclosedComment,
}

/// Why a text has no tokens: what is wrong, and the byte at which it stands.
pub type LexRefusal = RefusalAt<LexRefusalKind>;

/// Why a text gave no tokens.
pub type LexFault = OrNoMemory<LexRefusal>;
