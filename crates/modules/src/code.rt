//! The bytes of code.

ghost use Rattle.modules.specs.Code.{code_length};
ghost use Rattle.std.specs.Prelude.{◌≡◌};

use crate::instruction::Instruction;

/// How many bytes code takes.
pub fn code_length(code: &[Instruction]) -> usize
    ensures { result ≡ code_length code.now }
{
    let mut length = 0;
    for instruction in code {
        length += instruction.width();
    }
    length
}
