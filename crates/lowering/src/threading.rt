//! Jump threading: a jump to an unconditional jump goes at once where that one leads in the end.
ghost use Rattle.modules.specs.Targets.{renamed_instruction};
ghost use Rattle.lowering.specs.Direct.{IsDirect, jump_of};
ghost use Rattle.lowering.specs.Threaded.{final_position, onward, threaded};
ghost use Rattle.std.specs.Prelude.{All, IfOk, IsTrue, Some, get_or, length, ◌<◌, ◌^◌, ◌≡◌, ℕ};

use modules::Instruction;
use std::alloc::{AllocError, Global};

/// Whether no unconditional jump stands where an instruction may jump to.
fn is_direct(code: &[Instruction], instruction: Instruction) -> bool
    ensures { IsTrue result → IsDirect code.now instruction }
{
    match instruction.target() {
        None => true,
        Some(target) => !matches!(code.get(target as usize), Some(Instruction::Jump(_))),
    }
}

/// Whether no jump of the code leads to an unconditional jump, so that each goes where it does at once.
fn has_direct_jumps(code: &[Instruction]) -> bool
    ensures { IsTrue result → All (IsDirect code.now) code.now }
{
    for instruction in code {
        if !is_direct(code, *instruction) {
            return false;
        }
    }
    true
}

/// The final position of an instruction; one after the code is its own.
fn position_in(finals: &[u32], position: u32) -> u32
    ensures { result ≡ get_or finals.now position position }
{
    if (position as usize) < finals.len() {
        finals[position as usize]
    } else {
        position
    }
}

/// The final position of an instruction, by those after it.
fn position_from(finals: &[u32], position: u32, instruction: Instruction) -> u32
    ensures { result ≡
        onward position (λ target. get_or finals.now target target) (jump_of (Some instruction)) }
{
    match instruction {
        Instruction::Jump(target) if target > position => position_in(finals, target),
        _ => position,
    }
}

/// The final position of each instruction of the code. They are found from the last one to the first, since the jumps that are followed go
/// forward.
fn find_final_positions(alloc: Global, code: &[Instruction]) -> Result<Vec<u32>, AllocError>
    requires { length code.now < 2 ^ 32 }
    ensures size { IfOk result (λ finals. length finals.items ≡ length code.now) }
    ensures positions { IfOk result (λ finals.
        (position : ℕ) → get_or finals.items position position ≡ final_position code.now position) }
{
    let mut finals = vec![in alloc; 0u32; code.len()]?;
    let mut position = code.len();
    while position > 0 {
        position -= 1;
        finals[position] = position_from(&finals, position as u32, code[position]);
    }
    Ok(finals)
}

/// The instruction with the final position of its target.
fn thread_instruction(finals: &[u32], instruction: Instruction) -> Instruction
    ensures { result ≡
        renamed_instruction (λ target. get_or finals.now target target) instruction }
{
    match instruction {
        Instruction::Jump(target) => Instruction::Jump(position_in(finals, target)),
        Instruction::JumpIfFalse(target) => Instruction::JumpIfFalse(position_in(finals, target)),
        _ => instruction,
    }
}

/// The code with the final position of each target.
pub(crate) fn thread(alloc: Global, code: &[Instruction]) -> Result<Vec<Instruction>, AllocError>
    requires { length code.now < 2 ^ 32 }
    ensures { IfOk result (λ made. made.items ≡ threaded code.now) }
{
    if has_direct_jumps(code) {
        return Vec::from_slice(alloc, code);
    }
    let finals = find_final_positions(alloc, code)?;
    let mut made = Vec::with_capacity(alloc, code.len())?;
    for instruction in code {
        made.push(thread_instruction(&finals, *instruction))?;
    }
    Ok(made)
}
