//! What the sessions of a host have sent, put into buffers of the caller.

ghost use Rattle.flowc_c.specs.Hosts.{Asked, AskedSent, IsEventRefused, IsUnknownSession, NeedsSent, NeedsView, PutsSent, PutsView, SaysHostRefusal, hosted, shown_of};
ghost use Rattle.flowc_c.specs.Buffer.{IsPut, IsTooShort};
ghost use Rattle.common.specs.declared.fault.OrNoMemory.TheVariants as faults;
ghost use Rattle.host.specs.Meaning.{Refused, View, Viewed};
ghost use Rattle.host.specs.Values.{viewed_or};
ghost use Rattle.host.specs.declared.fault.HostRefusal.{HostRefusal};
ghost use Rattle.common.specs.declared.sent.Pair.{Pair};
ghost use Rattle.std.specs.Option.{option_map};
ghost use Rattle.std.specs.Prelude.{◌≡◌, ◌≤◌, ◌↔◌, IfOk, List, None, Some, map};

use crate::outcome::{DONE, NO_MEMORY, REFUSED, TOO_SHORT};
use crate::reply::{NO_HOST, Reply, ended, refuse_event};
use flowc::{Host, HostFault, OrNoMemory, Pair};
use host_handle::Handle;
use std::alloc::{AllocError, Global};

/// A number that was sent on a channel.
#[repr(C)]
#[derive(Clone, Copy, Drop)]
pub struct ShownPair {
    /// The number of the channel in its module.
    pub channel: u32,
    /// What was sent.
    pub number: i32,
}

/// Puts the pairs that a principal sees of a session at the head of a buffer.
#[unsafe(no_mangle)]
pub extern "C" fn flowc_host_view(
    alloc: Global,
    handle: &mut Handle,
    id: u64,
    principal: u32,
    out: &mut [ShownPair],
) -> Reply
    ensures shown { result.status ≡ DONE → PutsView
        (hosted handle.old.slot.held) id principal result.length out.old out.new }
    ensures rejected { result.status ≡ REFUSED → IsEventRefused
        (hosted handle.old.slot.held) (View id principal) result }
    ensures no_host { (result.status ≡ NO_HOST) ↔ (hosted handle.old.slot.held ≡ None) }
    ensures too_short { result.status ≡ TOO_SHORT → NeedsView
        (hosted handle.old.slot.held) id principal result.length out.old }
    ensures out_unchanged { ¬ (result.status ≡ DONE) → out.new ≡ out.old }
    ensures unchanged { hosted handle.new.slot.held ≡ hosted handle.old.slot.held }
    ensures ends { result.status ≤ TOO_SHORT }
{
    let answer = ask_view(alloc, handle, id, principal);
    reply_to_view(alloc, answer, out)
}

// Asks the host of a handle what a principal sees.
fn ask_view(
    alloc: Global,
    handle: &mut Handle,
    id: u64,
    principal: u32,
) -> Option<Result<Vec<Pair>, HostFault>>
    ensures { Asked handle.old.slot.held (View id principal) (option_map viewed_or result)
        handle.new.slot.held }
{
    let Some(host) = handle.take(alloc) else {
        return None;
    };
    let answer = host.view(id, principal);
    handle.put(host);
    Some(answer)
}

/// Puts all pairs that a session has sent at the head of a buffer, for the operator.
#[unsafe(no_mangle)]
pub extern "C" fn flowc_host_sent(
    alloc: Global,
    handle: &mut Handle,
    id: u64,
    out: &mut [ShownPair],
) -> Reply
    ensures sent { result.status ≡ DONE → PutsSent
        (hosted handle.old.slot.held) id result.length out.old out.new }
    ensures rejected { result.status ≡ REFUSED → IsUnknownSession
        (hosted handle.old.slot.held) id result }
    ensures no_host { (result.status ≡ NO_HOST) ↔ (hosted handle.old.slot.held ≡ None) }
    ensures too_short { result.status ≡ TOO_SHORT → NeedsSent
        (hosted handle.old.slot.held) id result.length out.old }
    ensures out_unchanged { ¬ (result.status ≡ DONE) → out.new ≡ out.old }
    ensures unchanged { hosted handle.new.slot.held ≡ hosted handle.old.slot.held }
    ensures ends { result.status ≤ TOO_SHORT }
{
    let answer = ask_sent(alloc, handle, id);
    reply_to_view(alloc, answer, out)
}

// Asks the host of a handle for all that a session has sent.
fn ask_sent(alloc: Global, handle: &mut Handle, id: u64) -> Option<Result<Vec<Pair>, HostFault>>
    ensures { AskedSent handle.old.slot.held id (option_map viewed_or result)
        handle.new.slot.held }
{
    let Some(host) = handle.take(alloc) else {
        return None;
    };
    let answer = copy_sent(alloc, &host, id);
    handle.put(host);
    Some(answer)
}

// All that a session has sent.
fn copy_sent(alloc: Global, host: &Host, id: u64) -> Result<Vec<Pair>, HostFault>
    ensures { AskedSent (Some host.now) id (Some (viewed_or result)) (Some host.now) }
{
    let sent = match host.sent(id) {
        Ok(sent) => sent,
        Err(fault) => return Err(fault),
    };
    match Vec::from_slice(alloc, sent.pairs()) {
        Ok(pairs) => Ok(pairs),
        Err(_) => Err(OrNoMemory::NoMemory),
    }
}

// The reply to a view, or to all that was sent.
fn reply_to_view(
    alloc: Global,
    answer: Option<Result<Vec<Pair>, HostFault>>,
    out: &mut [ShownPair],
) -> Reply
    ensures shown { result.status ≡ DONE → (pairs : List Pair)
        × (option_map viewed_or answer ≡ Some (Viewed pairs))
        × IsPut (map shown_of pairs) result.length out.old out.new }
    ensures rejected { result.status ≡ REFUSED → (refusal : HostRefusal)
        × (option_map viewed_or answer ≡ Some (Refused (faults.Refused refusal)))
        × SaysHostRefusal refusal result }
    ensures no_host { (result.status ≡ NO_HOST) ↔ (option_map viewed_or answer ≡ None) }
    ensures too_short { result.status ≡ TOO_SHORT → (pairs : List Pair)
        × (option_map viewed_or answer ≡ Some (Viewed pairs))
        × IsTooShort (map shown_of pairs) result.length out.old }
    ensures unchanged { ¬ (result.status ≡ DONE) → out.new ≡ out.old }
    ensures ends { result.status ≤ TOO_SHORT }
{
    match answer {
        None => ended(NO_HOST),
        Some(Ok(pairs)) => show(alloc, &pairs, out),
        Some(Err(fault)) => refuse_event(fault),
    }
}

// Puts pairs at the head of a buffer, if there is memory for them and they fit.
fn show(alloc: Global, pairs: &[Pair], out: &mut [ShownPair]) -> Reply
    ensures shown { result.status ≡ DONE →
        IsPut (map shown_of pairs.now) result.length out.old out.new }
    ensures too_short { result.status ≡ TOO_SHORT →
        IsTooShort (map shown_of pairs.now) result.length out.old }
    ensures unchanged { ¬ (result.status ≡ DONE) → out.new ≡ out.old }
    ensures accepted { ¬ (result.status ≡ REFUSED) }
    ensures there { ¬ (result.status ≡ NO_HOST) }
    ensures ends { result.status ≤ TOO_SHORT }
{
    match shown_pairs(alloc, pairs) {
        Ok(shown) => deliver_pairs(&shown, out),
        Err(_) => ended(NO_MEMORY),
    }
}

// Pairs as C has them.
fn shown_pairs(alloc: Global, pairs: &[Pair]) -> Result<Vec<ShownPair>, AllocError>
    ensures { IfOk result (λ shown. shown.items ≡ map shown_of pairs.now) }
{
    pairs
        .iter()
        .map(|pair| ShownPair {
            channel: pair.channel,
            number: pair.number,
        })
        .collect(alloc)
}

// Puts pairs at the head of a buffer, if they fit.
fn deliver_pairs(shown: &[ShownPair], out: &mut [ShownPair]) -> Reply
    ensures done { result.status ≡ DONE → IsPut shown.now result.length out.old out.new }
    ensures too_short { result.status ≡ TOO_SHORT → IsTooShort shown.now result.length out.old }
    ensures unchanged { ¬ (result.status ≡ DONE) → out.new ≡ out.old }
    ensures either { ¬ (result.status ≡ DONE) → result.status ≡ TOO_SHORT }
{
    let length = shown.len();
    if length > out.len() {
        return ended_with(TOO_SHORT, length);
    }
    out[..length].copy_from_slice(shown);
    ended_with(DONE, length)
}

// A reply with a status and a length.
fn ended_with(status: u32, length: usize) -> Reply
    ensures { (result.status ≡ status) × (result.length ≡ length) }
{
    let mut reply = ended(status);
    reply.length = length;
    reply
}
