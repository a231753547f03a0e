//! Why a flow is refused, as lines.

ghost use Rattle.channels.specs.Sink.{AppendsPrefix};
ghost use Rattle.common.specs.Answers.{IfRefused};
ghost use Rattle.explaining.specs.Flow.{flow_text, policy_line, step_line};
ghost use Rattle.resolved.specs.CoreOf.{program_of};
ghost use Rattle.std.specs.Io.KnownBytes.{Appends};
ghost use Rattle.std.specs.Prelude.{IfErr, IfOk, IsTrue, OnErr, OnOk, flat_map, ◌≡◌};
ghost use Rattle.std.specs.String.{string_bytes};

use crate::marks::MarkedText;
use crate::target_names::NamedTarget;
use channels::{Sink, ViewFault, write_all};
use checker::{RefusedFlow, Step};
use labels::{Label, Policy, PrintedLabel};
use lexer::Place;
use principals::Hierarchy;
use resolved::program::Core;
use std::alloc::{AllocError, Global};

/// Writes why a flow of a source is refused: a line with the policy that flows, and for each step of the chain a line with its place,
/// the number of its rule, and the name of what it flows to.
///
/// # Errors
///
/// The fault of the sink where that failed, or out of memory. What went out then is a prefix of the text.
pub fn write_flow<O: Sink>(
    alloc: Global,
    flow: &RefusedFlow,
    source: &[u8],
    out: &mut O,
) -> Result<(), ViewFault>
    ensures accepted { OnOk result (Appends (O.taken out.old) (O.taken out.new)
        (flow_text source.now flow.now)) }
    ensures prefix { OnErr result (AppendsPrefix (O.taken out.old) (O.taken out.new)
        (flow_text source.now flow.now)) }
    ensures rejected { IfErr result (IfRefused (λ _. IsTrue (O.has_failed out.new))) }
{
    let marked = MarkedText::of(alloc, source)?;
    let line = line_of_policy(alloc, &flow.core.hierarchy, &flow.policy)?;
    write_all(out, line.as_bytes())?;
    write_steps(alloc, &flow.core, &marked, flow.steps.as_slice(), out)
}

// The line of the policy that flows: the label of that policy alone.
fn line_of_policy(
    alloc: Global,
    hierarchy: &Hierarchy,
    policy: &Policy,
) -> Result<String, AllocError>
    ensures { IfOk result (λ line. string_bytes line ≡ policy_line hierarchy.now policy.now) }
{
    // Its contract says that the policy is canonical, as a label wants it.
    let _readers = policy.readers();
    let mut policies = Vec::new(alloc);
    policies.push(policy.clone()?)?;
    let label = Label::of(policies);
    let printed = PrintedLabel {
        hierarchy,
        label: &label,
    };
    format!(in alloc; "policy {printed}\n")
}

// Writes a line for each step of a chain.
fn write_steps<O: Sink>(
    alloc: Global,
    core: &Core,
    marked: &MarkedText,
    steps: &[Step],
    out: &mut O,
) -> Result<(), ViewFault>
    ensures accepted { OnOk result (Appends (O.taken out.old) (O.taken out.new)
        (flat_map (step_line marked.now.text.now (program_of core.now)) steps.now)) }
    ensures prefix { OnErr result (AppendsPrefix (O.taken out.old) (O.taken out.new)
        (flat_map (step_line marked.now.text.now (program_of core.now)) steps.now)) }
    ensures rejected { IfErr result (IfRefused (λ _. IsTrue (O.has_failed out.new))) }
{
    for step in steps {
        let line = line_of_step(alloc, core, marked, *step)?;
        write_all(out, line.as_bytes())?;
    }
    Ok(())
}

// The line of a step: its place, the number of its rule, and the name of what it flows to.
fn line_of_step(
    alloc: Global,
    core: &Core,
    marked: &MarkedText,
    step: Step,
) -> Result<String, AllocError>
    ensures { IfOk result (λ line. string_bytes line
        ≡ step_line marked.now.text.now (program_of core.now) step) }
{
    let Place { line, column } = marked.place_of(step.at);
    let rule = step.rule.number();
    let target = NamedTarget {
        core,
        target: step.target,
    };
    format!(in alloc; "{line}:{column} rule {rule} to {target}\n")
}
