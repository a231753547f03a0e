//! What is reported of a program whose constraints the solver refuses: the policy, and the steps of the chain.
ghost use Rattle.checker.specs.Reported.{ReportsFlow, reported_by};
ghost use Rattle.checker.specs.Steps.{report_at, reported_of};
ghost use Rattle.labels.specs.LabelLattice.{label_lattice};
ghost use Rattle.resolved.specs.CoreOf.{program_of};
ghost use Rattle.resolved.specs.Flow.{AreGathered, reported_step};
ghost use Rattle.solver.specs.Links.{InRange};
ghost use Rattle.solver.specs.Rule.{rule_number};
ghost use Rattle.solver.specs.Constraints.{IsSolveRefusal, constraints_of};
ghost use Rattle.std.specs.Prelude.{IfOk, flat_map, length, map, ◌≡◌};

use crate::fault::{RefusedFlow, Step};
use constraints::LabelConstraints;
use resolved::program::Core;
use resolved::target::Target;
use solver::{Atom, Constraint, Rule, SolveRefusal};
use std::alloc::{AllocError, Global};

/// The flow for which a program is refused.
pub(crate) fn flow_of(
    alloc: Global,
    core: Core,
    system: &LabelConstraints,
    refusal: &SolveRefusal,
) -> Result<RefusedFlow, AllocError>
    requires gathered { AreGathered (program_of core)
        (constraints_of (label_lattice (program_of core).hierarchy) core.labels
        system.now.constraints.items) }
    requires in_range { InRange (length core.labels) system.now.unknowns
        system.now.constraints.items }
    requires refused { IsSolveRefusal (label_lattice (program_of core).hierarchy) core.labels
        system.now.constraints.items refusal.now }
    ensures core { IfOk result (λ flow. flow.core ≡ core) }
    ensures reported { IfOk result (λ flow. ReportsFlow flow) }
{
    let constraints = system.constraints.as_slice();
    let chain = refusal.chain.as_slice();
    let last = &constraints[chain[chain.len() - 1]];
    let Atom::Written(to) = last.right else {
        unreachable!();
    };
    // Its contract says that the numbers of labels are of 32 bits.
    let _count = core.labels.len();
    let from = refusal.from as u32;
    let Some(policy) = core.labels.find_uncovered(&core.hierarchy, from, to) else {
        unreachable!();
    };
    let policy = policy.clone()?;
    let steps = steps_of(alloc, constraints, chain)?;
    Ok(RefusedFlow {
        core,
        at: last.at,
        policy,
        steps,
    })
}

// What is reported of the constraints at these indices, in their order.
fn steps_of(
    alloc: Global,
    constraints: &[Constraint<Option<Target>>],
    chain: &[usize],
) -> Result<Vec<Step>, AllocError>
    ensures { IfOk result (λ steps. map reported_by steps.items
        ≡ flat_map (report_at constraints.now) chain.now) }
{
    let mut steps = Vec::new(alloc);
    for index in chain {
        if let Some(step) = step_at(constraints, *index) {
            steps.push(step)?;
        }
    }
    Ok(steps)
}

// What is reported of the constraint at an index.
fn step_at(constraints: &[Constraint<Option<Target>>], index: usize) -> Option<Step>
    ensures { reported_of result ≡ report_at constraints.now index }
{
    let constraint = constraints.get(index)?;
    step_to(constraint.at, constraint.rule, constraint.target?)
}

// What is reported of a step to a target: nothing of one to the label of a loop, which has no name.
fn step_to(at: usize, rule: Rule, target: Target) -> Option<Step>
    ensures { reported_of result ≡ reported_step at (rule_number rule) target }
{
    let step = Step { at, rule, target };
    match target {
        Target::ToVariable(_, _) => Some(step),
        Target::ToChannel(_) => Some(step),
        Target::ToBegin(_) => Some(step),
        Target::ToParameter(_, _) => Some(step),
        Target::ToValue(_) => Some(step),
        Target::ToEnd(_) => Some(step),
        Target::ToThrown(_, _) => Some(step),
        Target::ToLoop(_, _) => None,
    }
}
