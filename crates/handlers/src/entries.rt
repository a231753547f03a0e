//! Entries: from which site on an exception goes on at which target.

ghost use Rattle.handlers.specs.Targets.{Arranges, IsAscending, is_before, next_of, entries_of_handler, target_from};
ghost use Rattle.std.specs.Option.{option_or};
ghost use Rattle.std.specs.Prelude.{[], IfOk, None, length, slice_get, take, ◌∷◌, ◌≡◌, ◌≤◌};

use modules::Handler;
use std::alloc::{AllocError, Global};

/// An exception at a byte offset. Sites stand in the order of their exceptions, and then of their offsets.
#[derive(Clone, Copy, Debug)]
pub struct ThrowSite {
    pub exception: u32,
    pub offset: u32,
}

/// From this site on, until the next entry, this is the target, or there is none.
#[derive(Clone, Copy, Debug)]
pub struct TableEntry {
    pub site: ThrowSite,
    pub target: Option<u32>,
}

// Which of two lists the next entry is from.
#[derive(Clone, Copy, Debug)]
enum Next {
    First(TableEntry),
    Second(TableEntry),
    Neither,
}

/// Whether an exception at a byte offset stands before a site.
pub fn is_before(exception: u32, offset: usize, site: ThrowSite) -> bool
    ensures { result ≡ is_before (record { exception = exception; offset = offset }) site }
{
    exception < site.exception || (exception == site.exception && offset < site.offset as usize)
}

// The entry of the second list where it stands before that of the first, or else that of the first.
fn next_of(first: Option<TableEntry>, second: Option<TableEntry>) -> Next
    ensures { result ≡ next_of first second }
{
    match (first, second) {
        (None, None) => Next::Neither,
        (Some(entry), None) => Next::First(entry),
        (None, Some(entry)) => Next::Second(entry),
        (Some(entry), Some(other)) => {
            if is_before(other.site.exception, other.site.offset as usize, entry.site) {
                Next::Second(other)
            } else {
                Next::First(entry)
            }
        }
    }
}

// An entry by its index, if it is there.
fn entry_at(entries: &[TableEntry], index: usize) -> Option<TableEntry>
    ensures { result ≡ slice_get entries.now index }
{
    entries.get(index).copied()
}

// The entries of two lists in one, by which a site has its target in the first list or, where it has none there, in the second.
fn merge(
    alloc: Global,
    first: &[TableEntry],
    second: &[TableEntry],
) -> Result<Vec<TableEntry>, AllocError>
    requires first_ascends { IsAscending first.now }
    requires second_ascends { IsAscending second.now }
    ensures ascends { IfOk result (λ entries. IsAscending entries.items) }
    ensures targets { IfOk result (λ entries. (site : ThrowSite) →
        target_from None entries.items site
        ≡ option_or (target_from None first.now site) (target_from None second.now site)) }
{
    let mut entries = Vec::with_capacity(alloc, first.len() + second.len())?;
    let mut i = 0;
    let mut j = 0;
    let mut first_target = None;
    let mut second_target = None;
    'merge: loop {
        match next_of(entry_at(first, i), entry_at(second, j)) {
            Next::First(entry) => {
                first_target = entry.target;
                let target = first_target.or(second_target);
                entries.push(TableEntry {
                    site: entry.site,
                    target,
                })?;
                i += 1;
            }
            Next::Second(entry) => {
                second_target = entry.target;
                let target = first_target.or(second_target);
                entries.push(TableEntry {
                    site: entry.site,
                    target,
                })?;
                j += 1;
            }
            Next::Neither => return Ok(entries),
        }
    }
}

// The entries of one handler, of which as many as the number count: both, or none where it takes nothing.
fn pair_of(handler: Handler) -> ([TableEntry; 2], usize)
    ensures entries { take result.1 result.0 ≡ entries_of_handler handler }
    ensures arranges { Arranges (take result.1 result.0) (handler ∷ []) }
    ensures few { result.1 ≤ 2 }
    ensures pair { length result.0 ≡ 2 }
{
    let exception = handler.exception;
    let start = ThrowSite {
        exception,
        offset: handler.start,
    };
    let end = ThrowSite {
        exception,
        offset: handler.end,
    };
    let pair = [
        TableEntry {
            site: start,
            target: Some(handler.target),
        },
        TableEntry {
            site: end,
            target: None,
        },
    ];
    if handler.start < handler.end {
        return (pair, 2);
    }
    (pair, 0)
}

// The entries of one handler: none where it takes nothing.
fn entries_of_handler(alloc: Global, handler: Handler) -> Result<Vec<TableEntry>, AllocError>
    ensures { IfOk result (λ entries. entries.items ≡ entries_of_handler handler) }
{
    let (pair, count) = pair_of(handler);
    pair[..count].to_vec(alloc)
}

// The entries of two handlers. Those of each need no memory.
fn entries_of_two(
    alloc: Global,
    first: Handler,
    second: Handler,
) -> Result<Vec<TableEntry>, AllocError>
    ensures { IfOk result (λ entries. Arranges entries.items (first ∷ second ∷ [])) }
{
    let (pair, count) = pair_of(first);
    let (other, others) = pair_of(second);
    merge(alloc, &pair[..count], &other[..others])
}

/// The entries of these handlers. It calls itself on each half of more than two, as deep as the logarithm of their number, and each depth
/// takes time in proportion to that number.
pub fn entries_of(alloc: Global, handlers: &[Handler]) -> Result<Vec<TableEntry>, AllocError>
    ensures { IfOk result (λ entries. Arranges entries.items handlers.now) }
{
    if handlers.is_empty() {
        return Ok(Vec::new(alloc));
    }
    if handlers.len() == 1 {
        return entries_of_handler(alloc, handlers[0]);
    }
    if handlers.len() == 2 {
        return entries_of_two(alloc, handlers[0], handlers[1]);
    }
    let middle = handlers.len() / 2;
    let first = entries_of(alloc, &handlers[..middle])?;
    let second = entries_of(alloc, &handlers[middle..])?;
    merge(alloc, &first, &second)
}
