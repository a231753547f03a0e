ghost use Rattle.modules.specs.Opcodes.{examples, flagged, instruction_of, numbered, operand_width, operator_opcode, plain, entry_of, width_after, with_opcode};
ghost use Rattle.modules.specs.Versions.{since_of};
ghost use Rattle.std.specs.Prelude.{IfSome, Some, length, ◌<◌, ◌≡◌, ◌≤◌};

use crate::instruction::{Instruction, MachineOperator, Storage};
use crate::version::Version;
use byteorder::{BigEndian, ByteOrder};
use common::Arithmetic::{Add, Bits, Divide, Multiply, Remainder, Subtract};
use common::BitOperator::{BitAnd, BitOr, BitXor, ShiftLeft, ShiftRight, ShiftRightUnsigned};
use common::Comparison::{Matched, Ordered};
use common::Order::{AtLeast, AtMost, GreaterThan, LessThan};
use common::Sameness::{Different, Same};
use common::{Arithmetic, Comparison};

/// What stands after an opcode: nothing, an int, a boolean, or the number of what the instruction names.
#[derive(Clone, Copy, Debug, PartialEq, Eq)]
pub enum Operand {
    Absent,
    Int(i32),
    Boolean(bool),
    Number(u32),
}

impl Operand {
    /// How many bytes the operand has in a file.
    pub fn width(self) -> usize
        ensures width { result ≡ operand_width self }
        ensures wide { 1 < result → 4 ≤ result }
    {
        match self {
            Operand::Absent => 0,
            Operand::Int(_) => 4,
            Operand::Boolean(_) => 1,
            Operand::Number(_) => 4,
        }
    }
}

/// An entry of the table of opcodes: the version of the file since which an instruction exists, the byte that spells it, the name that
/// it is listed by, and its operand.
#[derive(Clone, Copy, Debug)]
pub struct OpcodeEntry {
    pub since: Version,
    pub byte: u8,
    pub name: &'static str,
    pub operand: Operand,
}

fn plain_entry(since: Version, byte: u8, name: &'static str) -> OpcodeEntry
    ensures since { result.since ≡ since }
    ensures byte { result.byte ≡ byte }
    ensures name { result.name.now ≡ name.now }
    ensures operand { result.operand ≡ Operand.Absent }
{
    OpcodeEntry {
        since,
        byte,
        name,
        operand: Operand::Absent,
    }
}

fn numbered_entry(byte: u8, name: &'static str, number: u32) -> OpcodeEntry
    ensures since { result.since ≡ Version.One }
    ensures byte { result.byte ≡ byte }
    ensures name { result.name.now ≡ name.now }
    ensures operand { result.operand ≡ Operand.Number number }
{
    OpcodeEntry {
        since: Version::One,
        byte,
        name,
        operand: Operand::Number(number),
    }
}

/// The entry of an instruction. It is inlined, so that who asks for one part of it, as each walk along code for the width, gets that
/// alone.
#[inline(always)]
pub fn entry_of(instruction: Instruction) -> OpcodeEntry
    ensures since { result.since ≡ since_of instruction }
    ensures byte { result.byte ≡ (entry_of instruction).byte }
    ensures name { result.name.now ≡ (entry_of instruction).name }
    ensures operand { result.operand ≡ (entry_of instruction).operand }
{
    match instruction {
        Instruction::Push(number) => OpcodeEntry {
            since: Version::One,
            byte: 0x01,
            name: "PUSH",
            operand: Operand::Int(number),
        },
        Instruction::PushBoolean(flag) => OpcodeEntry {
            since: Version::One,
            byte: 0x02,
            name: "PUSHB",
            operand: Operand::Boolean(flag),
        },
        Instruction::Pop => plain_entry(Version::One, 0x03, "POP"),
        Instruction::Load(Storage::Local, slot) => numbered_entry(0x04, "LOAD", slot),
        Instruction::Store(Storage::Local, slot) => numbered_entry(0x05, "STORE", slot),
        Instruction::Load(Storage::Global, slot) => numbered_entry(0x06, "GLOAD", slot),
        Instruction::Store(Storage::Global, slot) => numbered_entry(0x07, "GSTORE", slot),
        Instruction::LoadElement(Storage::Local, slot) => numbered_entry(0x08, "ALOAD", slot),
        Instruction::StoreElement(Storage::Local, slot) => numbered_entry(0x09, "ASTORE", slot),
        Instruction::LoadElement(Storage::Global, slot) => numbered_entry(0x0a, "GALOAD", slot),
        Instruction::StoreElement(Storage::Global, slot) => numbered_entry(0x0b, "GASTORE", slot),
        Instruction::Clear(slot) => numbered_entry(0x0c, "CLEAR", slot),
        Instruction::Operate(operator) => operator_entry(operator),
        Instruction::Jump(target) => numbered_entry(0x20, "JUMP", target),
        Instruction::JumpIfFalse(target) => numbered_entry(0x21, "JFALSE", target),
        Instruction::Call(procedure) => numbered_entry(0x22, "CALL", procedure),
        Instruction::Return => plain_entry(Version::One, 0x23, "RET"),
        Instruction::ReturnValue => plain_entry(Version::One, 0x24, "RETV"),
        Instruction::Receive(channel) => numbered_entry(0x25, "RECV", channel),
        Instruction::Send(channel) => numbered_entry(0x26, "SEND", channel),
        Instruction::Throw(exception) => numbered_entry(0x27, "THROW", exception),
    }
}

fn operator_entry(operator: MachineOperator) -> OpcodeEntry
    ensures since { result.since ≡ since_of (Instruction.Operate operator) }
    ensures byte { result.byte ≡ (operator_opcode operator).0 }
    ensures name { result.name.now ≡ (operator_opcode operator).1 }
    ensures operand { result.operand ≡ Operand.Absent }
{
    match operator {
        MachineOperator::Compute(Add) => plain_entry(Version::One, 0x10, "ADD"),
        MachineOperator::Compute(Subtract) => plain_entry(Version::One, 0x11, "SUB"),
        MachineOperator::Compute(Multiply) => plain_entry(Version::One, 0x12, "MUL"),
        MachineOperator::Compute(Divide) => plain_entry(Version::One, 0x13, "DIV"),
        MachineOperator::Compute(Remainder) => plain_entry(Version::One, 0x14, "REM"),
        MachineOperator::Negate => plain_entry(Version::One, 0x15, "NEG"),
        MachineOperator::Not => plain_entry(Version::One, 0x16, "NOT"),
        MachineOperator::Compare(Ordered(LessThan)) => plain_entry(Version::One, 0x17, "LT"),
        MachineOperator::Compare(Ordered(AtMost)) => plain_entry(Version::One, 0x18, "LE"),
        MachineOperator::Compare(Ordered(GreaterThan)) => plain_entry(Version::One, 0x19, "GT"),
        MachineOperator::Compare(Ordered(AtLeast)) => plain_entry(Version::One, 0x1a, "GE"),
        MachineOperator::Compare(Matched(Same)) => plain_entry(Version::One, 0x1b, "EQ"),
        MachineOperator::Compare(Matched(Different)) => plain_entry(Version::One, 0x1c, "NE"),
        MachineOperator::Match(Same) => plain_entry(Version::One, 0x1d, "BEQ"),
        MachineOperator::Match(Different) => plain_entry(Version::One, 0x1e, "BNE"),
        MachineOperator::Compute(Bits(BitAnd)) => plain_entry(Version::Two, 0x28, "AND"),
        MachineOperator::Compute(Bits(BitOr)) => plain_entry(Version::Two, 0x29, "OR"),
        MachineOperator::Compute(Bits(BitXor)) => plain_entry(Version::Two, 0x2a, "XOR"),
        MachineOperator::Compute(Bits(ShiftLeft)) => plain_entry(Version::Two, 0x2b, "SHL"),
        MachineOperator::Compute(Bits(ShiftRight)) => plain_entry(Version::Two, 0x2c, "SHR"),
        MachineOperator::Compute(Bits(ShiftRightUnsigned)) => {
            plain_entry(Version::Two, 0x2d, "USHR")
        }
    }
}

/// The instruction with an opcode that is followed by a number.
pub fn numbered_instruction(opcode: u8, number: u32) -> Option<Instruction>
    ensures { result ≡ with_opcode opcode (numbered number) }
{
    match opcode {
        0x01 => Some(Instruction::Push(number.cast_signed())),
        0x04 => Some(Instruction::Load(Storage::Local, number)),
        0x05 => Some(Instruction::Store(Storage::Local, number)),
        0x06 => Some(Instruction::Load(Storage::Global, number)),
        0x07 => Some(Instruction::Store(Storage::Global, number)),
        0x08 => Some(Instruction::LoadElement(Storage::Local, number)),
        0x09 => Some(Instruction::StoreElement(Storage::Local, number)),
        0x0a => Some(Instruction::LoadElement(Storage::Global, number)),
        0x0b => Some(Instruction::StoreElement(Storage::Global, number)),
        0x0c => Some(Instruction::Clear(number)),
        0x20 => Some(Instruction::Jump(number)),
        0x21 => Some(Instruction::JumpIfFalse(number)),
        0x22 => Some(Instruction::Call(number)),
        0x25 => Some(Instruction::Receive(number)),
        0x26 => Some(Instruction::Send(number)),
        0x27 => Some(Instruction::Throw(number)),
        _ => None,
    }
}

fn operate(operator: MachineOperator) -> Option<Instruction>
    ensures { result ≡ Some (Instruction.Operate operator) }
{
    Some(Instruction::Operate(operator))
}

fn compute(operator: Arithmetic) -> Option<Instruction>
    ensures { result ≡ Some (Instruction.Operate (MachineOperator.Compute operator)) }
{
    operate(MachineOperator::Compute(operator))
}

fn compare(comparison: Comparison) -> Option<Instruction>
    ensures { result ≡ Some (Instruction.Operate (MachineOperator.Compare comparison)) }
{
    operate(MachineOperator::Compare(comparison))
}

/// The instruction with an opcode that has no operand.
fn plain_instruction(opcode: u8) -> Option<Instruction>
    ensures { result ≡ with_opcode opcode plain }
{
    match opcode {
        0x03 => Some(Instruction::Pop),
        0x10 => compute(Add),
        0x11 => compute(Subtract),
        0x12 => compute(Multiply),
        0x13 => compute(Divide),
        0x14 => compute(Remainder),
        0x15 => operate(MachineOperator::Negate),
        0x16 => operate(MachineOperator::Not),
        0x17 => compare(Ordered(LessThan)),
        0x18 => compare(Ordered(AtMost)),
        0x19 => compare(Ordered(GreaterThan)),
        0x1a => compare(Ordered(AtLeast)),
        0x1b => compare(Matched(Same)),
        0x1c => compare(Matched(Different)),
        0x1d => operate(MachineOperator::Match(Same)),
        0x1e => operate(MachineOperator::Match(Different)),
        0x23 => Some(Instruction::Return),
        0x24 => Some(Instruction::ReturnValue),
        0x28 => compute(Bits(BitAnd)),
        0x29 => compute(Bits(BitOr)),
        0x2a => compute(Bits(BitXor)),
        0x2b => compute(Bits(ShiftLeft)),
        0x2c => compute(Bits(ShiftRight)),
        0x2d => compute(Bits(ShiftRightUnsigned)),
        _ => None,
    }
}

/// The instruction with an opcode that is followed by the byte of a boolean.
fn flagged_instruction(opcode: u8, flag: u8) -> Option<Instruction>
    ensures { result ≡ with_opcode opcode (flagged flag) }
{
    match (opcode, flag) {
        (0x02, 0) => Some(Instruction::PushBoolean(false)),
        (0x02, 1) => Some(Instruction::PushBoolean(true)),
        _ => None,
    }
}

/// The instruction that an opcode and its operand spell, if any.
pub fn instruction_of(opcode: u8, operand: &[u8]) -> Option<Instruction>
    requires { 1 < length operand.now → 4 ≤ length operand.now }
    ensures { result ≡ instruction_of opcode operand.now }
{
    match operand {
        [] => plain_instruction(opcode),
        [flag] => flagged_instruction(opcode, *flag),
        _ => numbered_instruction(opcode, BigEndian::read_u32(operand)),
    }
}

// The instruction with an opcode, of an operand whose bytes are all 0.
fn example_of(opcode: u8) -> Option<Instruction>
    ensures { result ≡ with_opcode opcode examples }
{
    if let Some(found) = plain_instruction(opcode) {
        return Some(found);
    }
    if let Some(found) = flagged_instruction(opcode, 0) {
        return Some(found);
    }
    numbered_instruction(opcode, 0)
}

/// How many bytes of operand follow an opcode in a file of the version, or none where that has no such opcode.
#[tactic(auto, using(crate::proofs::Spelling::since_has))]
pub fn width_after(version: Version, opcode: u8) -> Option<usize>
    ensures width { result ≡ width_after version opcode }
    ensures wide { IfSome result (λ width. 1 < width → 4 ≤ width) }
{
    let entry = entry_of(example_of(opcode)?);
    if !version.has(entry.since) {
        return None;
    }
    Some(entry.operand.width())
}
