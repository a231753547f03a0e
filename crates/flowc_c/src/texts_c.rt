//! Two texts: checked, compiled and explained.

ghost use Rattle.checker.specs.Reported.{StandForNone};
ghost use Rattle.explaining.specs.Flow.{flow_text};
ghost use Rattle.explaining.specs.Locals.{WritesLabels};
ghost use Rattle.flowc.specs.Compiled.{AreAccepted};
ghost use Rattle.flowc.specs.Explained.{ShowsChain};
ghost use Rattle.flowc_c.specs.Outcome.{SaysFirstFault, SaysRefusal, TellsFirstFault};
ghost use Rattle.flowc_c.specs.Buffer.{IsPut, IsPutIfFits};
ghost use Rattle.flowc_c.specs.Results.{NeedsModule, PutsChain, PutsLabels, PutsModule};
ghost use Rattle.acceptance.specs.RefusalKinds.{refusal_message};
ghost use Rattle.std.specs.Prelude.{[], ◌≡◌, ◌<◌, ℕ, List, IfOk, None, Some, length};

use crate::buffer::{deliver, deliver_words};
use crate::outcome::{DONE, NO_MEMORY, Outcome, REFUSED, TOO_SHORT, ended, refuse_texts};
use channels::{Device, ViewFault};
use explaining::{write_flow, write_labels};
use flowc::{Checked, OrNoMemory, Refusal, RefusedFlow, Reported, check_texts, compile};
use std::alloc::Global;

/// Checks a source under a hierarchy text.
///
/// Where they are refused it says the first fault, and puts its words at the head of the buffer.
#[unsafe(no_mangle)]
pub extern "C" fn flowc_check(
    alloc: Global,
    hierarchy: &[u8],
    source: &[u8],
    words: &mut [u8],
) -> Outcome
    ensures accepted { result.status ≡ DONE → AreAccepted hierarchy.now source.now }
    ensures rejected { result.status ≡ REFUSED → StandForNone hierarchy.now source.now }
    ensures first_fault { result.status ≡ REFUSED →
        TellsFirstFault hierarchy.now source.now result words.old words.new }
    ensures unchanged { ¬ (result.status ≡ REFUSED) → words.new ≡ words.old }
    ensures never_short { ¬ (result.status ≡ TOO_SHORT) }
{
    match check_texts(alloc, hierarchy, source) {
        Ok(_checked) => ended(DONE, 0),
        Err(OrNoMemory::NoMemory) => ended(NO_MEMORY, 0),
        Err(OrNoMemory::Refused(refusal)) => tell(&refusal, words),
    }
}

/// Compiles a source under a hierarchy text, and puts the bytes of the module at the head of a buffer.
///
/// Where they are refused it says the first fault, and puts its words there.
#[unsafe(no_mangle)]
pub extern "C" fn flowc_compile(
    alloc: Global,
    hierarchy: &[u8],
    source: &[u8],
    out: &mut [u8],
) -> Outcome
    ensures compiled { result.status ≡ DONE →
        PutsModule hierarchy.now source.now result.length out.old out.new }
    ensures rejected { result.status ≡ REFUSED → StandForNone hierarchy.now source.now }
    ensures first_fault { result.status ≡ REFUSED →
        TellsFirstFault hierarchy.now source.now result out.old out.new }
    ensures too_short { result.status ≡ TOO_SHORT →
        NeedsModule hierarchy.now source.now result.length out.old }
    ensures short_unchanged { result.status ≡ TOO_SHORT → out.new ≡ out.old }
    ensures memory_unchanged { result.status ≡ NO_MEMORY → out.new ≡ out.old }
{
    match compile(alloc, hierarchy, source) {
        Ok(code) => deliver(&code, out),
        Err(OrNoMemory::NoMemory) => ended(NO_MEMORY, 0),
        Err(OrNoMemory::Refused(refusal)) => tell(&refusal, out),
    }
}

// The outcome of two texts that are refused, with the words of the refusal at the head of a buffer.
fn tell(refusal: &Refusal, out: &mut [u8]) -> Outcome
    ensures status { result.status ≡ REFUSED }
    ensures says { SaysRefusal refusal.now result }
    ensures words { IsPutIfFits (refusal_message refusal.now.kind).words result.length out.old
        out.new }
{
    let length = deliver_words(refusal.kind.words(), out);
    refuse_texts(refusal, length)
}

/// Explains a source under a hierarchy text: puts the least label of each local that is written without one at the head of a buffer;
/// or, where a flow is refused, the chain of that flow, and of another refusal nothing.
#[unsafe(no_mangle)]
pub extern "C" fn flowc_explain(
    alloc: Global,
    hierarchy: &[u8],
    source: &[u8],
    out: &mut [u8],
) -> Outcome
    ensures labels { result.status ≡ DONE →
        PutsLabels hierarchy.now source.now result.length out.old out.new }
    ensures chain { result.status ≡ REFUSED →
        PutsChain hierarchy.now source.now result.length out.old out.new }
    ensures rejected { result.status ≡ REFUSED → StandForNone hierarchy.now source.now }
    ensures first_fault { result.status ≡ REFUSED →
        SaysFirstFault hierarchy.now source.now result }
    ensures too_short { result.status ≡ TOO_SHORT → length out.old < result.length }
    ensures short_unchanged { result.status ≡ TOO_SHORT → out.new ≡ out.old }
    ensures memory_unchanged { result.status ≡ NO_MEMORY → out.new ≡ out.old }
{
    match check_texts(alloc, hierarchy, source) {
        Ok(checked) => explain_labels(alloc, &checked, source, out),
        Err(OrNoMemory::NoMemory) => ended(NO_MEMORY, 0),
        Err(OrNoMemory::Refused(refusal)) => explain_refusal(alloc, source, &refusal, out),
    }
}

// The outcome of a checked source, with its least labels at the head of a buffer.
fn explain_labels(alloc: Global, checked: &Checked, source: &[u8], out: &mut [u8]) -> Outcome
    ensures labels { result.status ≡ DONE → (text : List ℕ)
        × WritesLabels checked.now source.now (Some []) (Some text)
        × IsPut text result.length out.old out.new }
    ensures accepted { ¬ (result.status ≡ REFUSED) }
    ensures too_short { result.status ≡ TOO_SHORT → length out.old < result.length }
    ensures unchanged { ¬ (result.status ≡ DONE) → out.new ≡ out.old }
{
    match labels_of(alloc, checked, source) {
        Ok(text) => deliver(&text, out),
        Err(_) => ended(NO_MEMORY, 0),
    }
}

// The text of the least labels of a checked source.
fn labels_of(alloc: Global, checked: &Checked, source: &[u8]) -> Result<Vec<u8>, ViewFault>
    ensures { IfOk result (λ text.
        WritesLabels checked.now source.now (Some []) (Some text.items)) }
{
    let mut sink = Device::new(Vec::new(alloc));
    write_labels(alloc, checked, source, &mut sink)?;
    Ok(sink.into_inner())
}

// The outcome of two texts that are refused, with the chain of the flow where one is not allowed.
fn explain_refusal(alloc: Global, source: &[u8], refusal: &Refusal, out: &mut [u8]) -> Outcome
    ensures chain { result.status ≡ REFUSED → (text : List ℕ)
        × ShowsChain source.now refusal.now.flow (Some []) (Some text)
        × IsPut text result.length out.old out.new }
    ensures done { ¬ (result.status ≡ DONE) }
    ensures says { result.status ≡ REFUSED → SaysRefusal refusal.now result }
    ensures too_short { result.status ≡ TOO_SHORT → length out.old < result.length }
    ensures unchanged { ¬ (result.status ≡ REFUSED) → out.new ≡ out.old }
{
    let text = match chain_of(alloc, &refusal.flow, source) {
        Ok(text) => text,
        Err(_) => return ended(NO_MEMORY, 0),
    };
    let delivered = deliver(&text, out);
    if delivered.status != DONE {
        return delivered;
    }
    refuse_texts(refusal, delivered.length)
}

// The text of the chain of a flow, if there is one.
fn chain_of(alloc: Global, flow: &Option<RefusedFlow>, source: &[u8]) -> Result<Vec<u8>, ViewFault>
    ensures { IfOk result (λ text. ShowsChain source.now flow.now (Some []) (Some text.items)) }
{
    let mut sink = Device::new(Vec::new(alloc));
    if let Some(flow) = flow {
        write_flow(alloc, flow, source, &mut sink)?;
    }
    Ok(sink.into_inner())
}
