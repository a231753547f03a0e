//! The constraints of a program.
ghost use Rattle.gathering.specs.Gathered.{AreConstraintsOf, FitsConstraints};
ghost use Rattle.labels.specs.LabelLattice.{label_lattice};
ghost use Rattle.path_map.specs.EndsOf.{AreEndsOf};
ghost use Rattle.resolved.specs.CoreOf.{program_of};
ghost use Rattle.resolved.specs.Labelled.{FitsDemands, Labelling, exit_faults, program_demands};
ghost use Rattle.resolved.specs.WellFormed.{program_nodes};
ghost use Rattle.solver.specs.Links.{InRange};
ghost use Rattle.solver.specs.Constraints.{constraints_of};
ghost use Rattle.std.specs.Prelude.{IfOk, [], length, ◌*◌, ◌↔◌, ◌≡◌, ◌≤◌};

use crate::procedures::walk_procedures;
use crate::spreading::{Made, spread_calls};
use crate::table::Table;
use path_map::Ends;
use resolved::program::Core;
use resolved::target::Target;
use solver::Constraint;
use std::alloc::{AllocError, Global};

/// The label constraints of a program: how many unknowns there are, and the constraints in their order. A written label stands in them
/// by its number among the labels of the program.
#[derive(Debug, Drop)]
pub struct LabelConstraints {
    pub unknowns: u32,
    pub constraints: Vec<Constraint<Option<Target>>>,
}

/// Gathers the label constraints of a program: some labels for their unknowns fit them exactly where the labels of the locals and the
/// loops among these make every procedure labelled. Each has its byte and its rule, and a target by name, unless it is an inner one.
/// The caller owes the exits of that program, which has no fault of its exits, and gives them up.
///
/// It takes time and memory in proportion to the program, where the exceptions that a procedure declares count once for all of its calls,
/// and by the logarithm of these wherever the exit unknown of one of them changes between two calls.
///
/// # Errors
///
/// Memory ran out.
pub fn gather(alloc: Global, core: &Core, ends: Ends) -> Result<LabelConstraints, AllocError>
    requires ended { exit_faults (program_of core.now) ≡ [] }
    requires mapped { AreEndsOf (program_of core.now) ends }

    // They stand for the program's demands, in their order, and a label that is not written has its number.
    ensures gathered { let program = program_of core.now in
        IfOk result (λ system. AreConstraintsOf program
        (constraints_of (label_lattice program.hierarchy) core.now.labels
        system.constraints.items)) }

    // A labelling fits them, with some labels for the other unknowns, exactly where it meets the demands.
    ensures fits { let program = program_of core.now in
        IfOk result (λ system. (labelling : Labelling) →
        FitsDemands program.hierarchy labelling (program_demands program)
        ↔ FitsConstraints program (constraints_of (label_lattice program.hierarchy)
        core.now.labels system.constraints.items) labelling) }

    // Their numbers are in range, and there are few unknowns.
    ensures in_range { IfOk result (λ system. InRange (length core.now.labels)
        system.unknowns system.constraints.items) }
    ensures few { IfOk result (λ system. system.unknowns
        ≤ 4 * program_nodes (program_of core.now)) }
{
    let table = Table::of(alloc, core)?;
    let progress = walk_procedures(alloc, &table, &ends)?;
    // What was walked says all that is asked for, and what comes next takes as much memory.
    drop(ends);
    let mut made = Made {
        number: progress.number,
        constraints: progress.constraints,
    };
    spread_calls(alloc, &table, &progress.journal, &mut made)?;
    Ok(LabelConstraints {
        unknowns: made.number,
        constraints: made.constraints,
    })
}
