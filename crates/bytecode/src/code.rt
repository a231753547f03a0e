//! Reading of code.

ghost use Rattle.modules.specs.Code.{width_of};
ghost use Rattle.modules.specs.ByteFormat.{Code, code_at, instruction_in, read};
ghost use Rattle.modules.specs.Opcodes.{instructions};
ghost use Rattle.bytecode.specs.Reading.{Decodes, GoesOn, IsFirst, IsRest};
ghost use Rattle.modules.specs.declared.version.Version.{Version};
ghost use Rattle.std.specs.Prelude.{[], IfOk, IfSome, length, ◌+◌, ◌≡◌, ◌≤◌};

use crate::reading::{
    FieldFault, first_number, give_back, grow, read_byte, read_number, read_text, refuse,
};
use modules::instruction::Instruction;
use modules::opcode::{entry_of, instruction_of, numbered_instruction, width_after};
use modules::{FormatRefusalKind, Version};
use std::alloc::{AllocError, Global};

/// The instruction with a number that the first five bytes are, if they are one. Each version has it.
#[inline(always)]
fn read_numbered(bytes: &[u8]) -> Option<Instruction>
    requires { 5 ≤ length bytes.now }
    ensures gives { IfSome result (λ x. (version : Version) → IsFirst version 5 x bytes.now) }
    ensures width { IfSome result (λ x. width_of x ≡ 5) }
{
    numbered_instruction(bytes[0], first_number(&bytes[1..]))
}

/// The instruction without an operand that the first byte is, if it is one and the version has it.
#[inline(always)]
fn read_plain(version: Version, bytes: &[u8]) -> Option<Instruction>
    requires { 1 ≤ length bytes.now }
    ensures gives { IfSome result (λ x. IsFirst version 1 x bytes.now) }
    ensures width { IfSome result (λ x. width_of x ≡ 1) }
{
    let instruction = instruction_of(bytes[0], &[])?;
    if version.has(entry_of(instruction).since) {
        Some(instruction)
    } else {
        None
    }
}

/// The instruction of a version at the front, which ends within the room that is left in its code.
#[tactic(auto, unfolding(modules::specs::Opcodes::instructions))]
#[inline(never)]
fn read_instruction(
    version: Version,
    room: u32,
    bytes: &[u8],
) -> Result<(Instruction, &[u8]), FieldFault>
    ensures gives { Decodes (λ x. (x.0, x.1.now)) result (instruction_in (instructions version) room
        bytes.now) }
    ensures inside { IfOk result (λ x. width_of x.0 ≤ room) }
{
    if room > 0
        && !bytes.is_empty()
        && let Some(instruction) = read_plain(version, bytes)
    {
        return Ok((instruction, &bytes[1..]));
    }
    let (opcode, rest) = read_byte(bytes)?;
    let Some(width) = width_after(version, opcode) else {
        return Err(refuse(FormatRefusalKind::BadValue, bytes));
    };
    if room as usize <= width {
        return Err(refuse(FormatRefusalKind::BadValue, bytes));
    }
    let (operand, after) = read_text(width, rest)?;
    let Some(instruction) = instruction_of(opcode, operand) else {
        return Err(refuse(FormatRefusalKind::BadValue, rest));
    };
    Ok((instruction, after))
}

// For how many instructions of code of this many bytes there is room at first: for one in four bytes, as most code has them, if the
// bytes are there.
fn room_at_first(size: u32, bytes: &[u8]) -> usize {
    if (size as usize) <= bytes.len() {
        size as usize / 4 + 1
    } else {
        0
    }
}

/// Instructions at the front, while there are five bytes and they begin with one that has a number or no operand, and where there are
/// fewer, while they begin with one that has no operand, after those that were read before; and the bytes after them. It is inlined and
/// takes the list itself, so that the list stays in registers.
#[inline(always)]
fn read_most(
    version: Version,
    before: Vec<Instruction>,
    bytes: &[u8],
) -> Result<(Vec<Instruction>, &[u8]), AllocError>
    ensures goes_on { IfOk result (λ x. GoesOn version before.items x.0.items bytes.now x.1.now) }
    ensures few { IfOk result (λ x. length x.1.now + length x.0.items
        ≤ length bytes.now + length before.items) }
    ensures rest { IfOk result (λ x. IsRest bytes.now x.1.now) }
{
    let mut code = before;
    let mut at = 0;
    while bytes.len() - at >= 5 {
        if code.len() == code.capacity() {
            code = grow(code)?;
        }
        // So many have their bytes and their places, however wide they are.
        let stop = code.len() + ((bytes.len() - at) / 5).min(code.capacity() - code.len());
        while code.len() < stop {
            let front = &bytes[at..];
            if let Some(next) = read_numbered(front) {
                code.push_reserved(next);
                at += 5;
            } else if let Some(next) = read_plain(version, front) {
                code.push_reserved(next);
                at += 1;
            } else {
                break;
            }
        }
        if code.len() < stop {
            break;
        }
    }
    let mut front = &bytes[at..];
    while front.len() < 5 && !front.is_empty() {
        if code.len() == code.capacity() {
            code = grow(code)?;
        }
        let Some(next) = read_plain(version, front) else {
            break;
        };
        code.push_reserved(next);
        front = &front[1..];
    }
    Ok((code, front))
}

/// The instructions of a version that the next `size` bytes are. Room is made by the size only where as many bytes are there, and what
/// is not taken in the end is given back. It is not inlined, so that the loop has all registers for itself.
#[inline(never)]
fn read_instructions(
    alloc: Global,
    version: Version,
    size: u32,
    bytes: &[u8],
) -> Result<(Vec<Instruction>, &[u8]), FieldFault>
    ensures { Decodes (λ x. (x.0.items, x.1.now)) result
        (code_at (instructions version) size size []
        bytes.now) }
{
    let mut code = Vec::with_capacity(alloc, room_at_first(size, bytes))?;
    let mut rest = bytes;
    let mut room = size as usize;
    while room > 0 {
        let front = &rest[..room.min(rest.len())];
        let (more, left) = read_most(version, code, front)?;
        let count = front.len() - left.len();
        room -= count;
        rest = &rest[count..];
        code = more;
        if room > 0 {
            let (next, after) = read_instruction(version, room as u32, rest)?;
            if code.len() == code.capacity() {
                code = grow(code)?;
            }
            code.push_reserved(next);
            room -= next.width();
            rest = after;
        }
    }
    let mut kept = code;
    give_back(&mut kept);
    Ok((kept, rest))
}

/// The code of a version after its length.
pub(crate) fn read_code(
    alloc: Global,
    version: Version,
    bytes: &[u8],
) -> Result<(Vec<Instruction>, &[u8]), FieldFault>
    ensures { Decodes (λ x. (x.0.items, x.1.now)) result
        (read (Code version) bytes.now) }
{
    let (size, rest) = read_number(bytes)?;
    read_instructions(alloc, version, size, rest)
}
