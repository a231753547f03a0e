//! Sessions opened from C, and the principals of a module by their names.

ghost use Rattle.flowc_c.specs.Hosts.{hosted};
ghost use Rattle.flowc_c.specs.Opening.{HasNoPrincipal, IsPrincipalOf, OpensSession, OpensSessionUnder, SaysOpenRefusal, SaysOpening, TellsOpenRefusal, TellsUnderRefusal, open_message};
ghost use Rattle.flowc_c.specs.Buffer.{IsPutIfFits};
ghost use Rattle.principals.specs.ActsFor.{HasName};
ghost use Rattle.std.specs.Prelude.{◌≡◌, ◌<◌, ◌≤◌, ◌↔◌, Contains, IsUtf8, None};

use crate::buffer::deliver_words;
use crate::opening::{OpenFault, OpenRefusal, ask_open, ask_open_under, refuse_open};
use crate::outcome::{DONE, NO_MEMORY, REFUSED};
use crate::reply::{NO_HOST, Reply, ended};
use flowc::{Id, Module, OrNoMemory, Reported, decode};
use host_handle::Handle;
use std::alloc::Global;

/// Opens a session of the module that bytes spell, on the world that a text writes for it.
///
/// Where that is refused the words of the refusal go to the head of the buffer.
#[unsafe(no_mangle)]
pub extern "C" fn flowc_host_open(
    alloc: Global,
    handle: &mut Handle,
    bytes: &[u8],
    world: &[u8],
    words: &mut [u8],
) -> Reply
    ensures opened { result.status ≡ DONE → OpensSession
        (hosted handle.old.slot.held) bytes.now world.now None result.id
        (hosted handle.new.slot.held) }
    ensures rejected { result.status ≡ REFUSED → TellsOpenRefusal
        (hosted handle.old.slot.held) bytes.now world.now result words.old words.new }
    ensures no_host { (result.status ≡ NO_HOST) ↔ (hosted handle.old.slot.held ≡ None) }
    ensures unchanged { ¬ (result.status ≡ DONE) →
        hosted handle.new.slot.held ≡ hosted handle.old.slot.held }
    ensures words_unchanged { ¬ (result.status ≡ REFUSED) → words.new ≡ words.old }
    ensures ends { result.status ≤ NO_MEMORY }
{
    let answer = ask_open(alloc, handle, bytes, world);
    reply_to_open(answer, words)
}

/// Opens a session as [`flowc_host_open`] does, under the hierarchy of a text, which has to contain the module's. Its principals
/// view the session.
#[unsafe(no_mangle)]
pub extern "C" fn flowc_host_open_under(
    alloc: Global,
    handle: &mut Handle,
    bytes: &[u8],
    world: &[u8],
    hierarchy: &[u8],
    words: &mut [u8],
) -> Reply
    ensures opened { result.status ≡ DONE → OpensSessionUnder
        (hosted handle.old.slot.held) bytes.now world.now hierarchy.now result.id
        (hosted handle.new.slot.held) }
    ensures rejected { result.status ≡ REFUSED → TellsUnderRefusal
        (hosted handle.old.slot.held) bytes.now world.now hierarchy.now result
        words.old words.new }
    ensures no_host { (result.status ≡ NO_HOST) ↔ (hosted handle.old.slot.held ≡ None) }
    ensures unchanged { ¬ (result.status ≡ DONE) →
        hosted handle.new.slot.held ≡ hosted handle.old.slot.held }
    ensures words_unchanged { ¬ (result.status ≡ REFUSED) → words.new ≡ words.old }
    ensures ends { result.status ≤ NO_MEMORY }
{
    let answer = ask_open_under(alloc, handle, bytes, world, hierarchy);
    reply_to_open(answer, words)
}

// The reply to an opening.
fn reply_to_open(answer: Option<Result<Id, OpenFault>>, words: &mut [u8]) -> Reply
    ensures { SaysOpening answer result words.old words.new }
{
    match answer {
        None => ended(NO_HOST),
        Some(Ok(id)) => opened(id),
        Some(Err(OrNoMemory::NoMemory)) => ended(NO_MEMORY),
        Some(Err(OrNoMemory::Refused(refusal))) => tell(&refusal, words),
    }
}

// The reply that a session was opened.
fn opened(id: Id) -> Reply
    ensures { (result.status ≡ DONE) × (result.id ≡ id) }
{
    let mut reply = ended(DONE);
    reply.id = id;
    reply
}

// The reply to a refused opening, with the words of the refusal at the head of a buffer.
fn tell(refusal: &OpenRefusal, words: &mut [u8]) -> Reply
    ensures status { result.status ≡ REFUSED }
    ensures says { SaysOpenRefusal refusal.now result }
    ensures words { IsPutIfFits (open_message refusal.now).words result.length words.old
        words.new }
{
    let length = deliver_words(refusal.words(), words);
    refuse_open(refusal, length)
}

/// No principal of a module has a name, or the bytes spell no module.
pub const NO_PRINCIPAL: u32 = u32::MAX;

/// Memory ran out before the principal was found.
pub const PRINCIPAL_NO_MEMORY: u32 = u32::MAX - 1;

/// The number of the principal of a module that has a name.
#[unsafe(no_mangle)]
pub extern "C" fn flowc_principal(alloc: Global, bytes: &[u8], name: &[u8]) -> u32
    ensures named { result < PRINCIPAL_NO_MEMORY → IsPrincipalOf bytes.now name.now result }
    ensures none { result ≡ NO_PRINCIPAL → HasNoPrincipal bytes.now name.now }
{
    match decode(alloc, bytes) {
        Ok(program) => principal_named(&program, name),
        Err(OrNoMemory::NoMemory) => PRINCIPAL_NO_MEMORY,
        Err(OrNoMemory::Refused(_)) => NO_PRINCIPAL,
    }
}

// The number of the principal of a module that has a name.
fn principal_named(program: &Module, name: &[u8]) -> u32
    ensures named { ¬ (result ≡ NO_PRINCIPAL) → HasName program.now.hierarchy result name.now }
    ensures none { result ≡ NO_PRINCIPAL → IsUtf8 name.now →
        ¬ Contains program.now.hierarchy.names name.now }
    ensures memory { ¬ (result ≡ PRINCIPAL_NO_MEMORY) }
{
    let Ok(name) = std::str::from_utf8(name) else {
        return NO_PRINCIPAL;
    };
    let hierarchy = program.hierarchy();
    // There are at most 256 principals, so that no number of one says that there is none.
    let _count = hierarchy.count();
    match hierarchy.find(name) {
        Some(number) => number,
        None => NO_PRINCIPAL,
    }
}
