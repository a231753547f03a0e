//! The graph of a program.
ghost use Rattle.layout.specs.Offsets.{laid_out};
ghost use Rattle.layout.specs.Runs.{graph_after_steps};
ghost use Rattle.lowering.specs.Direct.{HasDirectJumps};
ghost use Rattle.lowering.specs.Graphs.{graph_of};
ghost use Rattle.lowering.specs.Interface.{HasInterfaceOf};
ghost use Rattle.lowering.specs.SameMeaning.{SameMeaning};
ghost use Rattle.resolved.specs.CoreOf.{program_of};
ghost use Rattle.resolved.specs.Labelled.{exit_faults};
ghost use Rattle.resolved.specs.Names.{HasNames};
ghost use Rattle.std.specs.Prelude.{All, IfOk, [], ◌≡◌};
ghost use Rattle.verifier.specs.Refusals.{IsNotRefused};
ghost use Rattle.verifier.specs.Safety.{IsNeverStuck};

use crate::interface::{channels_of, globals_of, hierarchy_of};
use crate::procedures::procedures_of;
use crate::versions::module_version;
use checker::Checked;
use layout::{Graph, copy_names};
use modules::Contents;
use resolved::program::Core;
use std::alloc::{AllocError, Global};

/// The graph of a checked program.
///
/// # Errors
///
/// Memory ran out.
pub fn lower(alloc: Global, checked: &Checked) -> Result<Graph, AllocError>
    // On every world it sends what the program sends, and ends as the program ends; and it shows what the program does.
    ensures kept { IfOk result (λ graph.
        SameMeaning (program_of checked.now.core) (graph_after_steps graph)) }
    ensures interface { IfOk result (HasInterfaceOf (program_of checked.now.core)) }

    // No verifier refuses the module that it is laid out as, and no run of that is ever stuck; no jump leads to another one.
    ensures not_refused { IfOk result (λ graph. IsNotRefused (laid_out graph)) }
    ensures never_stuck { IfOk result (λ graph. IsNeverStuck (laid_out graph)) }
    ensures direct { IfOk result (λ graph. All HasDirectJumps graph.procedures) }
{
    let graph = make_graph(alloc, checked.core())?;
    // Its contract says that the graph fits the module file, so that no run of the module is stuck.
    let _contents = graph.contents();
    Ok(graph)
}

// The graph of a program, of which no statement ends where it must not, and whose names are such as a module file holds.
fn make_graph(alloc: Global, core: &Core) -> Result<Graph, AllocError>
    requires ends { exit_faults (program_of core.now) ≡ [] }
    requires names { HasNames (program_of core.now) }
    ensures { IfOk result (λ graph. graph ≡ graph_of (program_of core.now)) }
{
    Ok(Graph::new(Contents {
        version: module_version(core),
        hierarchy: hierarchy_of(alloc, &core.hierarchy)?,
        exceptions: copy_names(alloc, &core.exceptions)?,
        channels: channels_of(alloc, &core.labels, &core.channels)?,
        globals: globals_of(alloc, &core.globals)?,
        procedures: procedures_of(alloc, core)?,
        main: core.main,
    }))
}
