//! Reading of fields, each at the front of the bytes that are left.

ghost use Rattle.modules.specs.ByteFormat.{byte_at, bytes_at, each_at, number_at, Read, stop_at};
ghost use Rattle.common.specs.declared.fault.OrNoMemory.TheVariants.{Refused};
ghost use Rattle.bytecode.specs.Reading.{Decodes};
ghost use Rattle.std.specs.Prelude.{[], IfOk, List, Ok, OnOk, drop, length, ℕ, ◌++◌, ◌<◌, ◌≤◌, ◌∷◌, ◌≡◌};
ghost use Rattle.std.specs.Vec.{vec_capacity, vec_len};

use byteorder::{BigEndian, ByteOrder};
use common::OrNoMemory;
use modules::fault::{FormatRefusalKind, ReadRefusal};
use std::alloc::{AllocError, Global};

/// Why a field was not read.
pub(crate) type FieldFault = OrNoMemory<ReadRefusal>;

/// The refusal of the field that `bytes` begin with.
pub(crate) fn refuse(kind: FormatRefusalKind, bytes: &[u8]) -> FieldFault
    ensures { result ≡ Refused (stop_at kind bytes.now) }
{
    OrNoMemory::Refused(ReadRefusal {
        kind,
        left: bytes.len(),
    })
}

/// The end of the bytes inside a field or before it.
pub(crate) const SHORT: ReadRefusal = ReadRefusal {
    kind: FormatRefusalKind::Short,
    left: 0,
};

/// One byte.
pub(crate) fn read_byte(bytes: &[u8]) -> Result<(u8, &[u8]), FieldFault>
    ensures { Decodes (λ x. (x.0, x.1.now)) result (byte_at bytes.now) }
{
    match bytes {
        [] => Err(OrNoMemory::Refused(SHORT)),
        [first, rest @ ..] => Ok((*first, rest)),
    }
}

/// A number in four bytes.
pub(crate) fn read_number(bytes: &[u8]) -> Result<(u32, &[u8]), FieldFault>
    ensures { Decodes (λ x. (x.0, x.1.now)) result (number_at bytes.now) }
{
    if bytes.len() < 4 {
        return Err(OrNoMemory::Refused(SHORT));
    }
    let (front, rest) = bytes.split_at(4);
    Ok((BigEndian::read_u32(front), rest))
}

/// The number in the first four bytes, where they are there.
#[inline(always)]
pub(crate) fn first_number(bytes: &[u8]) -> u32
    requires { 4 ≤ length bytes.now }
    ensures { number_at bytes.now ≡ Ok (result, drop 4 bytes.now) }
{
    let (front, _rest) = bytes.split_at(4);
    BigEndian::read_u32(front)
}

/// This many bytes.
pub(crate) fn read_text(count: usize, bytes: &[u8]) -> Result<(&[u8], &[u8]), FieldFault>
    ensures { Decodes (λ x. (x.0.now, x.1.now)) result (bytes_at count bytes.now) }
{
    if bytes.len() < count {
        return Err(OrNoMemory::Refused(SHORT));
    }
    Ok(bytes.split_at(count))
}

/// A field of a list, which is read after those before it. The state is what the list up to there comes to.
pub(crate) trait Element {
    type Item;

    type State;

    ghost reads: { Self → List Self.Item → List ℕ → Read Self.Item };

    ghost holds: { Self → Self.State → List Self.Item → Type 0 };

    fn read<'a>(
        &self,
        alloc: Global,
        state: &mut Self::State,
        before: &[Self::Item],
        bytes: &'a [u8],
    ) -> Result<(Self::Item, &'a [u8]), FieldFault>
        requires { holds self.now state.old before.now }
        ensures gives { Decodes (λ x. (x.0, x.1.now)) result (reads self.now before.now bytes.now) }
        ensures holds { IfOk result (λ x. holds self.now state.new (before.now ++ x.0 ∷ [])) };
}

/// Makes room for one more item, where there is none. It is inlined, so that nothing is called where there is.
#[inline(always)]
pub(crate) fn make_room<T>(items: &mut Vec<T>) -> Result<(), AllocError>
    ensures same { OnOk result (items.new.items ≡ items.old.items) }
    ensures room { OnOk result (vec_len items.new < vec_capacity items.new) }
{
    if items.len() < items.capacity() {
        return Ok(());
    }
    items.reserve(1)
}

/// A list with room for one more item. It takes the list itself, so that where it is called the list stays in registers.
#[inline(never)]
pub(crate) fn grow<T: Drop>(items: Vec<T>) -> Result<Vec<T>, AllocError>
    ensures same { IfOk result (λ more. more.items ≡ items.items) }
    ensures room { IfOk result (λ more. vec_len more < vec_capacity more) }
{
    let mut more = items;
    make_room(&mut more)?;
    Ok(more)
}

/// Gives back the room that a list does not take, where that is more than a quarter of what it takes.
pub(crate) fn give_back<T>(items: &mut Vec<T>)
    ensures { items.new.items ≡ items.old.items }
{
    if items.capacity() - items.len() > items.len() / 4 {
        items.shrink_to_fit();
    }
}

/// For how many fields there is room by a count alone, which the bytes only claim: most lists have fewer.
const FEW: usize = 16;

/// Where there are more, there is room at first for one in this many of the bytes that are left.
const BYTES_FOR_ONE: usize = 128;

// For how many fields of a list there is room at first: never for more than a few and a part of the bytes that are left.
fn fields_at_first(count: u32, bytes: &[u8]) -> usize {
    (count as usize).min(FEW + bytes.len() / BYTES_FOR_ONE)
}

/// This many fields, one after the other. The list keeps little more room than it takes.
pub(crate) fn read_each<'a, E: Element>(
    alloc: Global,
    element: &E,
    mut state: E::State,
    count: u32,
    bytes: &'a [u8],
) -> Result<(Vec<E::Item>, &'a [u8]), FieldFault>
where
    E::Item: Drop,
    E::State: Drop,
    requires { E.holds element.now state [] }
    ensures { Decodes (λ x. (x.0.items, x.1.now)) result (each_at (E.reads element.now) count []
        bytes.now) }
{
    let mut items = Vec::with_capacity(alloc, fields_at_first(count, bytes))?;
    let mut rest = bytes;
    for _ in 0..count {
        let (item, after) = element.read(alloc, &mut state, &items, rest)?;
        make_room(&mut items)?;
        items.push_reserved(item);
        rest = after;
    }
    give_back(&mut items);
    Ok((items, rest))
}
