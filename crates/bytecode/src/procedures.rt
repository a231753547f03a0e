//! Reading of procedures.

ghost use Rattle.common.specs.declared.limits.TheConstants.{MAX_CELLS};
ghost use Rattle.modules.specs.ByteFormat.{read};
ghost use Rattle.modules.specs.Format.{handler, procedure, returned, slot_cells, slot_of, slots};
ghost use Rattle.modules.specs.FormatParts.{handlers, procedures, slot_after};
ghost use Rattle.bytecode.specs.Reading.{Decodes};
ghost use Rattle.std.specs.Prelude.{◌≡◌, ◌≤◌};

use crate::code::read_code;
use crate::globals::read_kind;
use crate::limit::{cells_of_size, is_size};
use crate::reading::{Element, FieldFault, read_byte, read_each, read_number, refuse};
use common::BaseType;
use modules::declaration::{Handler, Slot};
use modules::procedure::Procedure;
use modules::{FormatRefusalKind, Version};
use std::alloc::Global;

/// A handler's field, whatever handlers stand before it.
struct HandlerField;

impl Element for HandlerField {
    type Item = Handler;

    type State = ();

    ghost reads = { λ self before bytes. read handler bytes };

    ghost holds = { λ self state before. Unit {0} };

    #[tactic(auto, unfolding(modules::specs::Format::handler))]
    fn read<'a>(
        &self,
        _alloc: Global,
        _state: &mut (),
        _before: &[Handler],
        bytes: &'a [u8],
    ) -> Result<(Handler, &'a [u8]), FieldFault> {
        let (start, rest) = read_number(bytes)?;
        let (end, rest) = read_number(rest)?;
        let (exception, rest) = read_number(rest)?;
        let (target, rest) = read_number(rest)?;
        let handler = Handler {
            start,
            end,
            exception,
            target,
        };
        Ok((handler, rest))
    }
}

/// The handlers after their count.
#[tactic(auto, unfolding(modules::specs::FormatParts::handlers))]
fn read_handlers(alloc: Global, bytes: &[u8]) -> Result<(Vec<Handler>, &[u8]), FieldFault>
    ensures { Decodes (λ x. (x.0.items, x.1.now)) result (read handlers bytes.now) }
{
    let (count, rest) = read_number(bytes)?;
    read_each(alloc, &HandlerField, (), count, rest)
}

fn slot_of(kind: BaseType, size: u32) -> Slot
    ensures { result ≡ slot_of (kind, size) }
{
    if size == 0 {
        Slot::Scalar(kind)
    } else {
        Slot::Array(kind, size)
    }
}

/// A slot's field, after slots of this many cells. The first slots are parameters, this many of them.
#[derive(Drop)]
struct SlotField {
    parameters: u32,
}

impl Element for SlotField {
    type Item = Slot;

    type State = u32;

    ghost reads = { λ self before bytes. read (slot_after self.parameters before) bytes };

    ghost holds = { λ self cells before. (cells ≡ slot_cells before) × (cells ≤ MAX_CELLS) };

    #[tactic(auto, unfolding(modules::specs::FormatParts::slot_after, modules::specs::Format::slot_beside))]
    fn read<'a>(
        &self,
        _alloc: Global,
        cells: &mut u32,
        before: &[Slot],
        bytes: &'a [u8],
    ) -> Result<(Slot, &'a [u8]), FieldFault> {
        let (kind, rest) = read_kind(bytes)?;
        let (size, after) = read_number(rest)?;
        let may_be_array = self.parameters as usize <= before.len();
        if !(is_size(*cells, size) && (may_be_array || size == 0)) {
            return Err(refuse(FormatRefusalKind::BadValue, rest));
        }
        *cells += cells_of_size(size);
        Ok((slot_of(kind, size), after))
    }
}

/// The slots after their count, the first of which are parameters. It is not inlined, so that the loop has all registers for itself.
#[tactic(auto, unfolding(modules::specs::Format::slots, modules::specs::FormatParts::slot_after))]
#[inline(never)]
fn read_slots(
    alloc: Global,
    parameters: u32,
    bytes: &[u8],
) -> Result<(Vec<Slot>, &[u8]), FieldFault>
    ensures { Decodes (λ x. (x.0.items, x.1.now)) result (read (slots parameters) bytes.now) }
{
    let (count, rest) = read_number(bytes)?;
    if count < parameters {
        return Err(refuse(FormatRefusalKind::BadValue, bytes));
    }
    read_each(alloc, &SlotField { parameters }, 0, count, rest)
}

/// The kind of value that a procedure returns, if any.
#[tactic(auto, unfolding(modules::specs::Format::returned))]
fn read_returned(bytes: &[u8]) -> Result<(Option<BaseType>, &[u8]), FieldFault>
    ensures { Decodes (λ x. (x.0, x.1.now)) result (read returned bytes.now) }
{
    let (kind, rest) = read_byte(bytes)?;
    match kind {
        0 => Ok((None, rest)),
        1 => Ok((Some(BaseType::Int), rest)),
        2 => Ok((Some(BaseType::Boolean), rest)),
        _ => Err(refuse(FormatRefusalKind::BadValue, bytes)),
    }
}

/// A procedure's field in a file of the version, whatever procedures stand before it.
#[derive(Drop)]
struct ProcedureField {
    version: Version,
}

impl Element for ProcedureField {
    type Item = Procedure;

    type State = ();

    ghost reads = { λ self before bytes. read (procedure self.version) bytes };

    ghost holds = { λ self state before. Unit {0} };

    #[tactic(auto, unfolding(modules::specs::Format::procedure, modules::specs::FormatParts::handlers))]
    fn read<'a>(
        &self,
        alloc: Global,
        _state: &mut (),
        _before: &[Procedure],
        bytes: &'a [u8],
    ) -> Result<(Procedure, &'a [u8]), FieldFault> {
        let (returned, rest) = read_returned(bytes)?;
        let (parameters, rest) = read_number(rest)?;
        let (slots, rest) = read_slots(alloc, parameters, rest)?;
        let (code, rest) = read_code(alloc, self.version, rest)?;
        let (handlers, rest) = read_handlers(alloc, rest)?;
        let procedure = Procedure::new(returned, parameters, slots, code, handlers);
        Ok((procedure, rest))
    }
}

/// The procedures of a file of the version, after their count.
#[tactic(auto, unfolding(modules::specs::FormatParts::procedures))]
pub(crate) fn read_procedures(
    alloc: Global,
    version: Version,
    bytes: &[u8],
) -> Result<(Vec<Procedure>, &[u8]), FieldFault>
    ensures { Decodes (λ x. (x.0.items, x.1.now)) result (read (procedures version) bytes.now) }
{
    let (count, rest) = read_number(bytes)?;
    read_each(alloc, &ProcedureField { version }, (), count, rest)
}
