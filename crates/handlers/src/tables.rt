//! The handlers of all procedures.

ghost use Rattle.handlers.specs.Targets.{handler_by, target_by, target_in};
ghost use Rattle.modules.specs.Machine.{handler_for};
ghost use Rattle.std.specs.Prelude.{IfOk, IsTrue, OnOk, [], drop, length, map, not, nat_lt, take, ◌&&◌, ◌++◌, ◌-◌, ◌==◌, ◌∷◌, ◌≡◌, ◌≤◌};

use crate::table::HandlerTable;
use modules::{Handler, Procedure};
use std::alloc::{AllocError, Global};
use std::marker::Model;

// Up to this many handlers of a procedure stay as they are: of so few the first one that takes an exception is found as fast in their order
// as in a table.
const FEW: usize = 8;

// The handlers of a procedure: a few, from one index among those of all such procedures on and before another one, or a table.
#[derive(Debug, Drop)]
enum ProcedureHandlers {
    Few(usize, usize),
    Many(HandlerTable),
}

/// The handlers of a module's procedures, in their order. There are none where no procedure has a handler.
#[derive(Debug, Drop)]
pub struct HandlerTables {
    // Those of all procedures that have few, one procedure after the other.
    few: Vec<Handler>,
    procedures: Vec<ProcedureHandlers>,
}

impl Model for HandlerTables {
    ghost use Rattle.handlers.specs.Procedures.{AreWithin, entries_in};
    ghost use Rattle.handlers.specs.declared.entries.TableEntry.{TableEntry};
    ghost use Rattle.std.specs.Prelude.{List, map};

    ghost Value = { List (List TableEntry) };

    ghost view = { λ t. map (entries_in t.few.items) t.procedures.items };

    ghost invariant = { λ t. AreWithin t.few.items t.procedures.items };
}

impl HandlerTables {
    /// The handlers of these procedures.
    pub fn of(alloc: Global, procedures: &[Procedure]) -> Result<HandlerTables, AllocError>
        ensures { IfOk result (λ tables. target_by tables ≡ handler_by procedures.now) }
    {
        let few = Vec::new(alloc);
        if has_none(procedures) {
            let procedures = Vec::new(alloc);
            return Ok(HandlerTables { few, procedures });
        }
        let mut tables = HandlerTables {
            few,
            procedures: Vec::with_capacity(alloc, procedures.len())?,
        };
        for procedure in procedures {
            tables.add(alloc, procedure.handlers())?;
        }
        Ok(tables)
    }

    // Adds a procedure with these handlers.
    fn add(&mut self, alloc: Global, handlers: &[Handler]) -> Result<(), AllocError>
        ensures { OnOk result (map target_in self.new
            ≡ map target_in self.old ++ handler_for handlers.now ∷ []) }
    {
        if handlers.len() > FEW {
            let table = HandlerTable::of(alloc, handlers)?;
            self.procedures.push(ProcedureHandlers::Many(table))?;
            return Ok(());
        }
        let start = self.few.len();
        self.few.extend_from_slice(handlers)?;
        let range = ProcedureHandlers::Few(start, self.few.len());
        self.procedures.push(range)?;
        Ok(())
    }

    /// The target of the handler of a procedure that takes an exception at a byte offset, if there is one.
    pub fn find(&self, procedure: u32, offset: usize, exception: u32) -> Option<usize>
        ensures { result ≡ target_by self.now procedure offset exception }
    {
        match self.procedures.get(procedure as usize)? {
            ProcedureHandlers::Few(start, end) => {
                first_target(range_of(&self.few, *start, *end), offset, exception)
            }
            ProcedureHandlers::Many(table) => table.find(offset, exception),
        }
    }
}

// The handlers from one index on and before another one.
fn range_of(few: &[Handler], start: usize, end: usize) -> &[Handler]
    requires ordered { start ≤ end }
    requires within { end ≤ length few.now }
    ensures { result.now ≡ take (end - start) (drop start few.now) }
{
    &few[start..end]
}

// The target of the first handler that takes an exception at a byte offset, if one does.
fn first_target(handlers: &[Handler], offset: usize, exception: u32) -> Option<usize>
    ensures { result ≡ handler_for handlers.now offset exception }
{
    for handler in handlers {
        if takes(*handler, offset, exception) {
            return Some(handler.target as usize);
        }
    }
    None
}

// Whether a handler takes an exception at a byte offset.
fn takes(handler: Handler, offset: usize, exception: u32) -> bool
    ensures { result ≡ (not (nat_lt offset handler.start)
        && (nat_lt offset handler.end && handler.exception == exception)) }
{
    let is_inside = handler.start as usize <= offset && offset < handler.end as usize;
    is_inside && handler.exception == exception
}

// Whether no procedure has a handler.
fn has_none(procedures: &[Procedure]) -> bool
    ensures { IsTrue result → target_by [] ≡ handler_by procedures.now }
{
    for procedure in procedures {
        if !procedure.handlers().is_empty() {
            return false;
        }
    }
    true
}
