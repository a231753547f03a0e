//! Writing of fields, each at the end of what was written before.

ghost use Rattle.modules.specs.Opcodes.{instruction_bytes};
ghost use Rattle.bytecode.specs.Writing.{channel_bytes, ChannelFits, handler_bytes, IsShort, kind_byte, list_bytes, number_bytes, pair_bytes, policy_bytes, PolicyFits, slot_bytes, text_bytes, variable_bytes};
ghost use Rattle.std.specs.Prelude.{[], All, List, OnOk, ℕ, ◌++◌, ◌∷◌, ◌≡◌};
ghost use Rattle.std.specs.String.{string_bytes};

use byteorder::{BigEndian, ByteOrder};
use common::{BaseType, Direction};
use labels::Policy;
use modules::channel::Channel;
use modules::declaration::{Global as Variable, Handler, Slot};
use modules::instruction::Instruction;
use modules::opcode::{Operand, entry_of};
use std::alloc::AllocError;

/// Writes a number in four bytes.
pub(crate) fn put_number(out: &mut Vec<u8>, number: u32) -> Result<(), AllocError>
    ensures { OnOk result (out.new.items ≡ out.old.items ++ number_bytes number) }
{
    let mut bytes = [0; 4];
    BigEndian::write_u32(&mut bytes, number);
    out.extend_from_slice(&bytes)
}

/// Writes a text after its length.
pub(crate) fn put_text(out: &mut Vec<u8>, text: &str) -> Result<(), AllocError>
    requires { IsShort text.now }
    ensures { OnOk result (out.new.items ≡ out.old.items ++ text_bytes text.now) }
{
    put_number(out, text.len() as u32)?;
    out.extend_from_slice(text.as_bytes())
}

/// A value that is written as a field.
pub(crate) trait Field {
    ghost spelling: { Self → List ℕ };

    ghost fits: { Self → Type 0 };

    fn put(&self, out: &mut Vec<u8>) -> Result<(), AllocError>
        requires { fits self.now }
        ensures { OnOk result (out.new.items ≡ out.old.items ++ spelling self.now) };
}

/// Writes a count and as many fields.
pub(crate) fn put_list<F: Field>(out: &mut Vec<u8>, fields: &[F]) -> Result<(), AllocError>
    requires few { IsShort fields.now }
    requires each { All F.fits fields.now }
    ensures { OnOk result (out.new.items ≡ out.old.items ++ list_bytes F.spelling fields.now) }
{
    put_number(out, fields.len() as u32)?;
    for field in fields {
        field.put(out)?;
    }
    Ok(())
}

impl Field for String {
    ghost spelling = { λ text. text_bytes (string_bytes text) };

    ghost fits = { λ text. IsShort (string_bytes text) };

    fn put(&self, out: &mut Vec<u8>) -> Result<(), AllocError> {
        put_text(out, self.as_str())
    }
}

impl Field for u32 {
    ghost spelling = { number_bytes };

    ghost fits = { λ _. Unit {0} };

    fn put(&self, out: &mut Vec<u8>) -> Result<(), AllocError> {
        put_number(out, *self)
    }
}

impl Field for (u32, u32) {
    ghost spelling = { pair_bytes };

    ghost fits = { λ _. Unit {0} };

    fn put(&self, out: &mut Vec<u8>) -> Result<(), AllocError> {
        put_number(out, self.0)?;
        put_number(out, self.1)
    }
}

impl Field for Policy {
    ghost spelling = { policy_bytes };

    ghost fits = { PolicyFits };

    #[tactic(auto, unfolding(crate::specs::Writing::policy_bytes))]
    fn put(&self, out: &mut Vec<u8>) -> Result<(), AllocError> {
        put_number(out, self.owner())?;
        put_list(out, self.readers())
    }
}

impl Field for Channel {
    ghost spelling = { channel_bytes };

    ghost fits = { ChannelFits };

    #[tactic(auto, unfolding(crate::specs::Writing::channel_bytes))]
    fn put(&self, out: &mut Vec<u8>) -> Result<(), AllocError> {
        let direction = match self.direction() {
            Direction::Input => 0,
            Direction::Output => 1,
        };
        out.push(direction)?;
        put_text(out, self.name())?;
        put_list(out, self.label().policies())
    }
}

/// Writes a kind as a byte.
fn put_kind(out: &mut Vec<u8>, kind: BaseType) -> Result<(), AllocError>
    ensures { OnOk result (out.new.items ≡ out.old.items ++ kind_byte kind ∷ []) }
{
    let byte = match kind {
        BaseType::Int => 0,
        BaseType::Boolean => 1,
    };
    out.push(byte)?;
    Ok(())
}

impl Field for Variable {
    ghost spelling = { variable_bytes };

    ghost fits = { λ _. Unit {0} };

    fn put(&self, out: &mut Vec<u8>) -> Result<(), AllocError> {
        match *self {
            Variable::Int(first) => {
                put_kind(out, BaseType::Int)?;
                put_number(out, 0)?;
                put_number(out, first.cast_unsigned())
            }
            Variable::Boolean(first) => {
                put_kind(out, BaseType::Boolean)?;
                put_number(out, 0)?;
                put_number(out, if first { 1 } else { 0 })
            }
            Variable::Array(kind, size) => {
                put_kind(out, kind)?;
                put_number(out, size)
            }
        }
    }
}

impl Field for Slot {
    ghost spelling = { slot_bytes };

    ghost fits = { λ _. Unit {0} };

    fn put(&self, out: &mut Vec<u8>) -> Result<(), AllocError> {
        match *self {
            Slot::Scalar(kind) => {
                put_kind(out, kind)?;
                put_number(out, 0)
            }
            Slot::Array(kind, size) => {
                put_kind(out, kind)?;
                put_number(out, size)
            }
        }
    }
}

impl Field for Handler {
    ghost spelling = { handler_bytes };

    ghost fits = { λ _. Unit {0} };

    #[tactic(auto, unfolding(crate::specs::Writing::handler_bytes))]
    fn put(&self, out: &mut Vec<u8>) -> Result<(), AllocError> {
        put_number(out, self.start)?;
        put_number(out, self.end)?;
        put_number(out, self.exception)?;
        put_number(out, self.target)
    }
}

/// Writes a byte and a number in four more.
fn put_numbered(out: &mut Vec<u8>, byte: u8, number: u32) -> Result<(), AllocError>
    ensures { OnOk result (out.new.items ≡ out.old.items ++ byte ∷ number_bytes number) }
{
    let [first, second, third, fourth] = number.to_be_bytes();
    out.extend_from_slice(&[byte, first, second, third, fourth])
}

/// Writes an instruction.
pub(crate) fn put_instruction(out: &mut Vec<u8>, instruction: Instruction) -> Result<(), AllocError>
    ensures { OnOk result (out.new.items ≡ out.old.items ++ instruction_bytes instruction) }
{
    let entry = entry_of(instruction);
    match entry.operand {
        Operand::Absent => {
            out.push(entry.byte)?;
            Ok(())
        }
        Operand::Int(number) => put_numbered(out, entry.byte, number.cast_unsigned()),
        Operand::Boolean(flag) => out.extend_from_slice(&[entry.byte, if flag { 1 } else { 0 }]),
        Operand::Number(number) => put_numbered(out, entry.byte, number),
    }
}
