//! The table of a procedure's handlers.

ghost use Rattle.modules.specs.Machine.{handler_for};
ghost use Rattle.handlers.specs.Targets.{IsAscending, target_in};
ghost use Rattle.std.specs.Prelude.{IfOk, ◌≡◌};

use crate::entries::{TableEntry, entries_of, is_before};
use modules::Handler;
use std::alloc::{AllocError, Global};
use std::marker::Model;

/// The handlers of a procedure, arranged so that the one which takes an exception at a byte offset is found by a binary search.
/// It has at most two entries for each handler.
#[derive(Debug, Drop)]
pub struct HandlerTable {
    entries: Vec<TableEntry>,
}

impl Model for HandlerTable {
    ghost use Rattle.handlers.specs.Targets.{IsAscending};
    ghost use Rattle.handlers.specs.declared.entries.TableEntry.{TableEntry};
    ghost use Rattle.std.specs.Prelude.{List};

    ghost Value = { List TableEntry };

    ghost view = { λ table. table.entries.items };

    ghost invariant = { λ table. IsAscending table.entries.items };
}

impl HandlerTable {
    /// The table of these handlers, of which the first in their order is taken where several take an exception at an offset.
    pub fn of(alloc: Global, handlers: &[Handler]) -> Result<HandlerTable, AllocError>
        ensures { IfOk result (λ table. target_in table ≡ handler_for handlers.now) }
    {
        Ok(HandlerTable {
            entries: entries_of(alloc, handlers)?,
        })
    }

    /// The target of the handler that takes an exception at a byte offset, if there is one. It takes time in proportion to the
    /// logarithm of the number of handlers, and no memory.
    pub fn find(&self, offset: usize, exception: u32) -> Option<usize>
        ensures { result ≡ target_in self.now offset exception }
    {
        let target = target_at(&self.entries, offset, exception)?;
        Some(target as usize)
    }
}

// The target at a site: that of the last entry at or before it.
fn target_at(entries: &[TableEntry], offset: usize, exception: u32) -> Option<u32>
    requires { IsAscending entries.now }
    ensures { result ≡ target_in entries.now offset exception }
{
    let count = entries.partition_point(|entry| !is_before(exception, offset, entry.site));
    let Some(last) = count.checked_sub(1) else {
        return None;
    };
    entries[last].target
}
