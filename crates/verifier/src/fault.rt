ghost use Rattle.std.specs.Prelude.{Some};
ghost use Rattle.verifier.specs.RefusalKinds.{code_message};

use common::{OrNoMemory, Reported};
use std::error::Error;
use std::fmt;

/// What is wrong in a module's code.
#[derive(Clone, Copy, Debug, PartialEq, Eq)]
pub enum CodeRefusalKind {
    /// 811: a target that is no instruction, or a handler with wrong offsets.
    Jump,
    /// 812: an operand of the wrong kind.
    OperandKind,
    /// 813: too few operands, or two paths that meet with different numbers of them.
    OperandDepth,
    /// 814: a slot, global, array, procedure, channel or exception that is not there or of another sort.
    SlotOrIndex,
    /// 815: control comes to the end of the code.
    FallsOffEnd,
}

/// What a module's code is refused for: what is wrong, and the procedure and the byte offset where.
#[derive(Clone, Copy, Debug, PartialEq, Eq)]
pub struct CodeRefusal {
    pub kind: CodeRefusalKind,
    pub procedure: u32,
    pub offset: u32,
}

impl fmt::Display for CodeRefusal {
    ghost output = { λ refusal. Some (code_message refusal.kind).words };

    fn fmt<W: fmt::Write>(&self, f: &mut fmt::Formatter<W>) -> fmt::Result {
        write!(f, "{}", self.kind.words())
    }
}

impl Error for CodeRefusal {}

/// Why a module was not verified.
pub type VerifyFault = OrNoMemory<CodeRefusal>;
