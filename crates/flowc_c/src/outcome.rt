//! How a call ended.

ghost use Rattle.flowc_c.specs.Outcome.{SaysModuleRefusal, SaysRefusal, text_number};
ghost use Rattle.std.specs.Prelude.{◌≡◌, length};

use bytecode::FormatRefusal;
use flowc::{LoadRefusal, Refusal, Reported, Text};
use verifier::CodeRefusal;

/// The call has done what it says.
pub const DONE: u32 = 0;
/// What was given is refused.
pub const REFUSED: u32 = 1;
/// Memory ran out.
pub const NO_MEMORY: u32 = 3;
/// The buffer for the result is too short.
pub const TOO_SHORT: u32 = 4;

/// How a call ended. A number that a status does not speak of is 0.
#[repr(C)]
#[derive(Drop)]
pub struct Outcome {
    /// 0 done, 1 refused, 3 out of memory, 4 the buffer for the result is too short.
    pub status: u32,
    /// Of a refusal: the number that it is reported by.
    pub number: u32,
    /// Of a refusal: what is wrong. 0 the hierarchy, 1 the source, 2 the bytes of a module, 3 the code of a procedure of a module.
    pub text: u32,
    /// Of the code of a procedure: its number.
    pub procedure: u32,
    /// Of the hierarchy or the source: the line, from 1.
    pub line: usize,
    /// Of the hierarchy or the source: the column, from 1.
    pub column: usize,
    /// Of a module: the byte, from 0, of its bytes or of the code of the procedure.
    pub offset: usize,
    /// How many bytes the result has.
    pub length: usize,
}

// An outcome that refuses nothing.
pub(crate) fn ended(status: u32, length: usize) -> Outcome
    ensures { (result.status ≡ status) × (result.length ≡ length) }
{
    Outcome {
        status,
        number: 0,
        text: 0,
        procedure: 0,
        line: 0,
        column: 0,
        offset: 0,
        length,
    }
}

// The outcome of two texts that are refused.
pub(crate) fn refuse_texts(refusal: &Refusal, length: usize) -> Outcome
    ensures status { result.status ≡ REFUSED }
    ensures length { result.length ≡ length }
    ensures says { SaysRefusal refusal.now result }
{
    let mut outcome = ended(REFUSED, length);
    outcome.number = refusal.kind.number();
    outcome.text = match refusal.text {
        Text::Hierarchy => 0,
        Text::Source => 1,
    };
    outcome.line = refusal.at.line;
    outcome.column = refusal.at.column;
    outcome
}

// The outcome of bytes that are no module, or one that is refused.
pub(crate) fn refuse_module(refusal: LoadRefusal, length: usize) -> Outcome
    ensures status { result.status ≡ REFUSED }
    ensures length { result.length ≡ length }
    ensures says { SaysModuleRefusal refusal result }
{
    let mut outcome = ended(REFUSED, length);
    outcome.number = refusal.number();
    match refusal {
        LoadRefusal::Bytes(FormatRefusal { kind: _, at }) => {
            outcome.text = 2;
            outcome.offset = at;
        }
        LoadRefusal::Code(
            CodeRefusal {
                kind: _,
                procedure,
                offset,
            },
        ) => {
            outcome.text = 3;
            outcome.procedure = procedure;
            outcome.offset = offset as usize;
        }
    }
    outcome
}
