//! How many cells the globals have, and each frame.

ghost use Rattle.common.specs.declared.limits.TheConstants.{MAX_CELLS};
ghost use Rattle.common.specs.Results.{along};
ghost use Rattle.types.specs.Finding.{require};
ghost use Rattle.types.specs.Resolution.{next_frame, next_global_cells};
ghost use Rattle.types.specs.Views.{Resolves, cells_of_slots, itself, tables_view};
ghost use Rattle.resolved.specs.WellFormed.{cell_count};
ghost use Rattle.std.specs.Prelude.{IfOk, map, nat_le, ◌≡◌, ◌≤◌};
ghost use Rattle.syntax.specs.Tree.{item_tree};

use crate::fault::{TypeFault, TypeRefusal, TypeRefusalKind};
use crate::program::ItemTables;
use crate::top::size_of_global;
use common::OrNoMemory;
use common::limits::MAX_CELLS;
use resolved::tables::Slot;
use syntax::Item;

/// The cells of a variable.
fn cells_of(size: Option<u32>) -> u32
    ensures { result ≡ cell_count size }
{
    match size {
        None => 1,
        Some(length) => length,
    }
}

/// The cells of the globals so far, with those of the next item.
fn add_global(cells: u32, item: &Item<'_>) -> Result<u32, TypeFault>
    requires { cells ≤ MAX_CELLS }
    ensures made { Resolves itself result (next_global_cells cells (item_tree item.now)) }
    ensures few { IfOk result (λ all. all ≤ MAX_CELLS) }
{
    match item {
        Item::Channel(_) | Item::Exception { .. } | Item::Procedure(_) => Ok(cells),
        Item::Global(global) => {
            let more = cells_of(size_of_global(&global.value));
            if more <= MAX_CELLS - cells {
                Ok(cells + more)
            } else {
                Err(OrNoMemory::Refused(TypeRefusal {
                    kind: TypeRefusalKind::TooManyCells,
                    at: global.name.at,
                }))
            }
        }
    }
}

/// How many cells the globals of these items have, which are refused where they are too many.
pub fn count_global_cells(items: &[Item<'_>]) -> Result<u32, TypeFault>
    ensures { Resolves itself result (along next_global_cells 0 (map item_tree items.now)) }
{
    let mut cells = 0;
    for item in items {
        cells = add_global(cells, item)?;
    }
    Ok(cells)
}

/// Whether a frame of these slots has few enough cells.
fn fits(slots: &[Slot]) -> bool
    ensures { result ≡ nat_le (cells_of_slots slots.now) MAX_CELLS }
{
    let mut cells = 0;
    for slot in slots {
        let more = cells_of(slot.size);
        if more > MAX_CELLS - cells {
            return false;
        }
        cells += more;
    }
    true
}

/// Refuses the first procedure whose frame has too many cells.
pub fn limit_frames(tables: &ItemTables) -> Result<(), TypeFault>
    ensures { Resolves (λ _. tt) result (along next_frame tt (tables_view tables.now).procedures) }
{
    for procedure in tables.procedures.as_slice() {
        if !fits(procedure.slots.as_slice()) {
            return Err(OrNoMemory::Refused(TypeRefusal {
                kind: TypeRefusalKind::TooManyCells,
                at: procedure.at,
            }));
        }
    }
    Ok(())
}
