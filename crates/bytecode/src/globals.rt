//! Reading of globals.

ghost use Rattle.common.specs.declared.limits.TheConstants.{MAX_CELLS};
ghost use Rattle.modules.specs.ByteFormat.{read};
ghost use Rattle.modules.specs.Format.{first_value, global_after, global_of, slot_of, variable_kind};
ghost use Rattle.modules.specs.FormatParts.{global_cells, globals};
ghost use Rattle.bytecode.specs.Reading.{Decodes};
ghost use Rattle.std.specs.Prelude.{◌<◌, ◌≡◌, ◌≤◌};

use crate::limit::{cells_of_size, is_size};
use crate::reading::{Element, FieldFault, read_byte, read_each, read_number, refuse};
use common::BaseType;
use modules::FormatRefusalKind;
use modules::declaration::Global as Variable;
use std::alloc::Global;

/// The kind of a global or of a slot.
#[tactic(auto, unfolding(modules::specs::Format::variable_kind))]
pub(crate) fn read_kind(bytes: &[u8]) -> Result<(BaseType, &[u8]), FieldFault>
    ensures { Decodes (λ x. (x.0, x.1.now)) result (read variable_kind bytes.now) }
{
    let (kind, rest) = read_byte(bytes)?;
    match kind {
        0 => Ok((BaseType::Int, rest)),
        1 => Ok((BaseType::Boolean, rest)),
        _ => Err(refuse(FormatRefusalKind::BadValue, bytes)),
    }
}

/// The first value of a scalar, and 0 for an array, which has none.
fn read_first_value(kind: BaseType, size: u32, bytes: &[u8]) -> Result<(u32, &[u8]), FieldFault>
    ensures { Decodes (λ x. (x.0, x.1.now)) result (read (first_value (slot_of (kind, size)))
        bytes.now) }
{
    if size != 0 {
        return Ok((0, bytes));
    }
    let (value, rest) = read_number(bytes)?;
    match kind {
        BaseType::Int => Ok((value, rest)),
        BaseType::Boolean => {
            if value > 1 {
                return Err(refuse(FormatRefusalKind::BadValue, bytes));
            }
            Ok((value, rest))
        }
    }
}

fn global_of(kind: BaseType, size: u32, first: u32) -> Variable
    ensures { result ≡ global_of (slot_of (kind, size), first) }
{
    if size != 0 {
        return Variable::Array(kind, size);
    }
    match kind {
        BaseType::Int => Variable::Int(first.cast_signed()),
        BaseType::Boolean => Variable::Boolean(first == 1),
    }
}

/// A global's field, after globals of this many cells.
struct GlobalField;

impl Element for GlobalField {
    type Item = Variable;

    type State = u32;

    ghost reads = { λ self before bytes. read (global_after before) bytes };

    ghost holds = { λ self cells before. (cells ≡ global_cells before) × (cells ≤ MAX_CELLS) };

    #[tactic(auto, unfolding(modules::specs::Format::global_after, modules::specs::Format::slot_beside))]
    fn read<'a>(
        &self,
        _alloc: Global,
        cells: &mut u32,
        _before: &[Variable],
        bytes: &'a [u8],
    ) -> Result<(Variable, &'a [u8]), FieldFault> {
        let (kind, rest) = read_kind(bytes)?;
        let (size, after) = read_number(rest)?;
        if !is_size(*cells, size) {
            return Err(refuse(FormatRefusalKind::BadValue, rest));
        }
        let (first, after) = read_first_value(kind, size, after)?;
        *cells += cells_of_size(size);
        Ok((global_of(kind, size, first), after))
    }
}

/// The globals after their count.
#[tactic(auto, unfolding(modules::specs::FormatParts::globals))]
pub(crate) fn read_globals(
    alloc: Global,
    bytes: &[u8],
) -> Result<(Vec<Variable>, &[u8]), FieldFault>
    ensures { Decodes (λ x. (x.0.items, x.1.now)) result (read globals bytes.now) }
{
    let (count, rest) = read_number(bytes)?;
    read_each(alloc, &GlobalField, 0, count, rest)
}
