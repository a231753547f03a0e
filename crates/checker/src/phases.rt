//! All phases, from the text of a source to an accepted program.
ghost use Rattle.acceptance.specs.Accepted.{IsAccepted};
ghost use Rattle.checker.specs.Checked.{IsChecked, least_label};
ghost use Rattle.checker.specs.Reported.{AsksForFlow, HasFlow, IsNotAccepted, IsSourceFault};
ghost use Rattle.checker.specs.Steps.{RefusesProgram};
ghost use Rattle.common.specs.Answers.{IfRefused};
ghost use Rattle.isolation.specs.Larger.{IsolatedUnderLarger};
ghost use Rattle.path_map.specs.EndsOf.{AreEndsOf};
ghost use Rattle.resolved.specs.CoreOf.{program_of};
ghost use Rattle.resolved.specs.Labelled.{exit_faults};
ghost use Rattle.resolved.specs.Flow.{AreLeast};
ghost use Rattle.resolved.specs.Isolated.{Isolated};
ghost use Rattle.resolved.specs.Names.{HasNames};
ghost use Rattle.std.specs.Prelude.{IfErr, IfOk, IfSome, [], ◌≡◌};

use crate::analysing::{Analysed, analyse};
use crate::checked::Checked;
use crate::fault::{Fault, RefusedFlow, refusal_at};
use crate::flow::flow_of;
use acceptance::laws::resolved_programs_have_names;
use acceptance::{RefusalKind, Text};
use common::{OrNoMemory, RefusalAt};
use constraints::gather;
use path_map::Ends;
use principals::Hierarchy;
use resolved::program::Core;
use solver::{LabelsUnder, solve_by_numbers};
use std::alloc::Global;

/// Checks a source under a hierarchy, phase by phase: its length, its tokens and tree, its names, types and sizes, the exits of its
/// statements, and its labels.
///
/// # Errors
///
/// The first fault of the source, at its line and column, with the flow where one is not allowed; or out of memory.
pub fn check(alloc: Global, hierarchy: &Hierarchy, source: &str) -> Result<Checked, Fault>
    // The source stands for the program, which is isolated, also under every hierarchy that contains its own; the labels of its
    // locals and loops are the least.
    ensures accepted { IfOk result (λ checked.
        IsAccepted hierarchy.now source.now (program_of checked.core)) }
    ensures isolated { IfOk result (λ checked. Isolated (program_of checked.core)) }
    ensures larger { IfOk result (λ checked. IsolatedUnderLarger (program_of checked.core)) }
    ensures least { IfOk result (λ checked.
        AreLeast (program_of checked.core) (least_label checked)) }

    // A refusal is the first fault, at its line and column, and of a source that stands for no program.
    ensures first_fault { IfErr result (IfRefused (IsSourceFault hierarchy.now source.now)) }
    ensures rejected { IfErr result (IfRefused (λ _. IsNotAccepted hierarchy.now source.now)) }

    // There is a flow exactly where one is not allowed, and it is the one that the source asks for.
    ensures flow { IfErr result (IfRefused HasFlow) }
    ensures asked { IfErr result (IfRefused (λ refusal. IfSome refusal.flow
        (AsksForFlow hierarchy.now source.now refusal))) }
{
    isolation::noninterference::labelled_programs_are_isolated();
    isolation::noninterference::labelled_programs_stay_isolated();
    resolved_programs_have_names();
    // Its contract says that this is a hierarchy, with names that a module file holds.
    let _count = hierarchy.count();
    let analysed = match analyse(alloc, hierarchy, source) {
        Ok(analysed) => analysed,
        Err(OrNoMemory::NoMemory) => return Err(OrNoMemory::NoMemory),
        Err(OrNoMemory::Refused(RefusalAt { kind, at })) => {
            let bytes = source.as_bytes();
            let refusal = refusal_at(Text::Source, bytes, kind, at, None);
            return Err(OrNoMemory::Refused(refusal));
        }
    };
    let Analysed { core, ends } = analysed;
    match find_labels(alloc, core, ends) {
        Ok(checked) => Ok(checked),
        Err(OrNoMemory::NoMemory) => Err(OrNoMemory::NoMemory),
        Err(OrNoMemory::Refused(flow)) => {
            let (bytes, at) = (source.as_bytes(), flow.at);
            let refusal = refusal_at(
                Text::Source,
                bytes,
                RefusalKind::FlowNotAllowed,
                at,
                Some(flow),
            );
            Err(OrNoMemory::Refused(refusal))
        }
    }
}

// A program without a fault of its exits, with its least labels if it is labelled.
fn find_labels(alloc: Global, core: Core, ends: Ends) -> Result<Checked, OrNoMemory<RefusedFlow>>
    requires ended { exit_faults (program_of core) ≡ [] }
    requires mapped { AreEndsOf (program_of core) ends }
    requires names { HasNames (program_of core) }
    ensures core { IfOk result (λ checked. checked.core ≡ core) }
    ensures checked { IfOk result IsChecked }
    ensures rejected { IfErr result (IfRefused (RefusesProgram core)) }
{
    let system = gather(alloc, &core, ends)?;
    let written = LabelsUnder {
        hierarchy: &core.hierarchy,
        labels: &core.labels,
    };
    match solve_by_numbers(alloc, &written, system.unknowns, &system.constraints) {
        Ok(solution) => Ok(Checked::of(core, solution)),
        Err(OrNoMemory::NoMemory) => Err(OrNoMemory::NoMemory),
        Err(OrNoMemory::Refused(refusal)) => {
            let flow = flow_of(alloc, core, &system, &refusal)?;
            Err(OrNoMemory::Refused(flow))
        }
    }
}
