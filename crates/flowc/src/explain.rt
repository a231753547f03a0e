//! Explains the labels of a source, or why it is refused a flow.

ghost use Rattle.checker.specs.Reported.{HasFlow, IsFirstFault, TextsAskForFlow};
ghost use Rattle.flowc.specs.Compiled.{AreAccepted};
ghost use Rattle.flowc.specs.Explained.{Explains, ExplainsRefusal, ExplainsSome};
ghost use Rattle.flowc.specs.Lines.{IsPerformFault};
ghost use Rattle.flowc.specs.Messages.{IsTextsLine};
ghost use Rattle.flowc.specs.Task.{status_of_fault};
ghost use Rattle.std.specs.Prelude.{[], ◌≡◌, IfErr, IfOk, IfSome, OnErr, OnOk};
ghost use Rattle.std.specs.String.{string_bytes};

use crate::ended::Ended;
use crate::fault::PerformFault;
use crate::reading::File;
use crate::texts::texts_line;
use channels::Sink;
use checker::{Refusal, check_texts};
use common::OrNoMemory;
use explaining::{write_flow, write_labels};
use std::alloc::Global;

/// Explains a source under a hierarchy: writes the least label of each local that is written without one; or, where a flow is
/// refused, the chain of that flow.
pub fn explain<O: Sink>(
    alloc: Global,
    hierarchy: File<'_>,
    source: File<'_>,
    out: &mut O,
) -> Result<Ended, PerformFault>
    ensures accepted { OnOk result (AreAccepted hierarchy.entry.bytes.now source.entry.bytes.now) }
    ensures rejected { IfErr result (λ fault. status_of_fault fault ≡ 1 →
        ¬ AreAccepted hierarchy.entry.bytes.now source.entry.bytes.now) }
    ensures stdout { OnOk result (Explains
        hierarchy.entry.bytes.now source.entry.bytes.now (O.taken out.old) (O.taken out.new)) }
    ensures chain { IfErr result (λ fault. status_of_fault fault ≡ 1 → ExplainsRefusal
        hierarchy.entry.bytes.now source.entry.bytes.now (O.taken out.old) (O.taken out.new)) }
    ensures prefix { OnErr result (ExplainsSome
        hierarchy.entry.bytes.now source.entry.bytes.now (O.taken out.old) (O.taken out.new)) }
    ensures status { IfOk result (λ ended. ended.status ≡ 0) }
    ensures silent { IfOk result (λ ended. string_bytes ended.line ≡ []) }
    ensures message { IfErr result (IsPerformFault (IsTextsLine
        hierarchy.entry.path.now source.entry.path.now
        hierarchy.entry.bytes.now source.entry.bytes.now) (O.has_failed out.new)) }
{
    match check_texts(alloc, hierarchy.bytes, source.bytes) {
        Ok(checked) => {
            write_labels(alloc, &checked, source.bytes, out)?;
            Ok(Ended::report_nothing(alloc))
        }
        Err(OrNoMemory::NoMemory) => Err(PerformFault::NoMemory),
        Err(OrNoMemory::Refused(refusal)) => {
            let line = explain_refusal(alloc, hierarchy, source, &refusal, out)?;
            Err(PerformFault::Refused(line))
        }
    }
}

// The line that reports why two texts are refused. Before it the chain of the flow goes to standard output, where one is not
// allowed.
fn explain_refusal<O: Sink>(
    alloc: Global,
    hierarchy: File<'_>,
    source: File<'_>,
    refusal: &Refusal,
    out: &mut O,
) -> Result<String, PerformFault>
    requires first_fault { IsFirstFault hierarchy.bytes.now source.bytes.now refusal.now }
    requires flow { HasFlow refusal.now }
    requires asked { IfSome refusal.now.flow
        (TextsAskForFlow hierarchy.bytes.now source.bytes.now refusal.now) }
    ensures line { IfOk result (λ line. IsTextsLine
        hierarchy.entry.path.now source.entry.path.now
        hierarchy.entry.bytes.now source.entry.bytes.now (string_bytes line)) }
    ensures chain { OnOk result (ExplainsRefusal
        hierarchy.entry.bytes.now source.entry.bytes.now (O.taken out.old) (O.taken out.new)) }
    ensures prefix { ExplainsSome
        hierarchy.entry.bytes.now source.entry.bytes.now (O.taken out.old) (O.taken out.new) }
    ensures message { IfErr result (IsPerformFault (λ _. ⊥) (O.has_failed out.new)) }
{
    if let Some(flow) = &refusal.flow {
        write_flow(alloc, flow, source.bytes, out)?;
    }
    Ok(texts_line(alloc, hierarchy, source, refusal)?)
}
