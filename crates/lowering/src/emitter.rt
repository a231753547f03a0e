//! Adding instructions to code.
ghost use Rattle.std.specs.Prelude.{OnOk, [], length, ◌++◌, ◌<◌, ◌^◌, ◌∷◌, ◌≡◌};

use modules::Instruction;
use std::alloc::AllocError;

/// Adds an instruction.
pub(crate) fn push(code: &mut Vec<Instruction>, instruction: Instruction) -> Result<(), AllocError>
    ensures { OnOk result (code.new.items ≡ code.old.items ++ instruction ∷ []) }
{
    code.push(instruction)?;
    Ok(())
}

/// The position of the next instruction.
pub(crate) fn next_position(code: &[Instruction]) -> u32
    requires { length code.now < 2 ^ 32 }
    ensures { result ≡ length code.now }
{
    code.len() as u32
}
