//! Opens a session of the bytes of a module on the text of a world, under the module's hierarchy or under that of a further text.

ghost use Rattle.acceptance.specs.Accepted.{HasHierarchy};
ghost use Rattle.channels.specs.World.{input_names};
ghost use Rattle.channels.specs.WorldText.{IsWorldText, lines_of, world_of};
ghost use Rattle.common.specs.Answers.{IfRefused};
ghost use Rattle.flowc_c.specs.Opening.{AskedToOpen, AskedToOpenUnder, CannotReadWorld, IsNoHierarchy, IsNoWorld, IsWorldFor, OpensOn, OpensUnder, SaysOpenRefusal, open_message};
ghost use Rattle.host.specs.Values.{host_of};
ghost use Rattle.std.specs.Prelude.{◌≡◌, IfErr, IfOk, OnOk};

use crate::outcome::REFUSED;
use crate::reply::{BYTES, HIERARCHY, Reply, WORLD, ended, refuse};
use channels::WorldRefusal;
use checker::read_hierarchy;
use flowc::{
    FormatRefusal, Host, HostRefusal, Id, Message, Module, OrNoMemory, Refusal, RefusalKind,
    Reported, World, decode,
};
use host_handle::Handle;
use principals::Hierarchy;
use std::alloc::Global;

/// Why a session is not opened.
#[derive(Drop)]
pub enum OpenRefusal {
    /// The bytes spell no module.
    Bytes(FormatRefusal),
    /// The bytes of the world are no characters.
    Encoding,
    /// A line of the world is wrong for the module.
    World(WorldRefusal),
    /// The text of the hierarchy has none.
    Hierarchy(Refusal),
    /// The host refuses the event.
    Host(HostRefusal),
}

/// Why a session was not opened.
pub type OpenFault = OrNoMemory<OpenRefusal>;

impl Reported for OpenRefusal {
    ghost contents = { open_message };

    fn message(&self) -> Message {
        match self {
            OpenRefusal::Bytes(refusal) => refusal.kind.message(),
            OpenRefusal::Encoding => RefusalKind::NotUtf8.message(),
            OpenRefusal::World(refusal) => refusal.kind.message(),
            OpenRefusal::Hierarchy(refusal) => refusal.kind.message(),
            OpenRefusal::Host(refusal) => refusal.message(),
        }
    }
}

// Asks the host of a handle to open a session.
pub(crate) fn ask_open(
    alloc: Global,
    handle: &mut Handle,
    bytes: &[u8],
    text: &[u8],
) -> Option<Result<Id, OpenFault>>
    ensures { AskedToOpen handle.old.slot.held bytes.now text.now result handle.new.slot.held }
{
    let Some(mut host) = handle.take(alloc) else {
        return None;
    };
    let answer = open_on(alloc, &mut host, bytes, text);
    handle.put(host);
    Some(answer)
}

// Opens a session of bytes on the world that a text writes for them.
fn open_on(alloc: Global, host: &mut Host, bytes: &[u8], text: &[u8]) -> Result<Id, OpenFault>
    ensures { OpensOn (host_of host.old) bytes.now text.now result (host_of host.new) }
{
    let world = match read_world(alloc, bytes, text) {
        Ok(world) => world,
        Err(fault) => return Err(fault),
    };
    match host.open(bytes, world) {
        Ok(id) => Ok(id),
        Err(OrNoMemory::NoMemory) => Err(OrNoMemory::NoMemory),
        Err(OrNoMemory::Refused(refusal)) => Err(OrNoMemory::Refused(OpenRefusal::Host(refusal))),
    }
}

// Asks the host of a handle to open a session under the hierarchy of a text.
pub(crate) fn ask_open_under(
    alloc: Global,
    handle: &mut Handle,
    bytes: &[u8],
    text: &[u8],
    hierarchy: &[u8],
) -> Option<Result<Id, OpenFault>>
    ensures { AskedToOpenUnder handle.old.slot.held bytes.now text.now hierarchy.now result
        handle.new.slot.held }
{
    let Some(mut host) = handle.take(alloc) else {
        return None;
    };
    let answer = open_under(alloc, &mut host, bytes, text, hierarchy);
    handle.put(host);
    Some(answer)
}

// Opens a session of bytes on the world that a text writes for them, under the hierarchy of a text.
fn open_under(
    alloc: Global,
    host: &mut Host,
    bytes: &[u8],
    text: &[u8],
    hierarchy: &[u8],
) -> Result<Id, OpenFault>
    ensures { OpensUnder (host_of host.old) bytes.now text.now hierarchy.now result
        (host_of host.new) }
{
    let world = match read_world(alloc, bytes, text) {
        Ok(world) => world,
        Err(fault) => return Err(fault),
    };
    let larger = match read_larger(alloc, hierarchy) {
        Ok(larger) => larger,
        Err(fault) => return Err(fault),
    };
    match host.open_under(bytes, world, larger) {
        Ok(id) => Ok(id),
        Err(OrNoMemory::NoMemory) => Err(OrNoMemory::NoMemory),
        Err(OrNoMemory::Refused(refusal)) => Err(OrNoMemory::Refused(OpenRefusal::Host(refusal))),
    }
}

// The hierarchy of a text.
fn read_larger(alloc: Global, text: &[u8]) -> Result<Hierarchy, OpenFault>
    ensures has { IfOk result (HasHierarchy text.now) }
    ensures rejected { IfErr result (IfRefused (IsNoHierarchy text.now)) }
{
    match read_hierarchy(alloc, text) {
        Ok(hierarchy) => Ok(hierarchy),
        Err(OrNoMemory::NoMemory) => Err(OrNoMemory::NoMemory),
        Err(OrNoMemory::Refused(refusal)) => {
            Err(OrNoMemory::Refused(OpenRefusal::Hierarchy(refusal)))
        }
    }
}

// The world that a text writes for the module that bytes spell.
fn read_world(alloc: Global, bytes: &[u8], text: &[u8]) -> Result<World, OpenFault>
    ensures accepted { IfOk result (IsWorldFor bytes.now text.now) }
    ensures rejected { IfErr result (IfRefused (CannotReadWorld bytes.now text.now)) }
{
    match decode(alloc, bytes) {
        Ok(program) => world_for(alloc, &program, text),
        Err(OrNoMemory::NoMemory) => Err(OrNoMemory::NoMemory),
        Err(OrNoMemory::Refused(refusal)) => Err(OrNoMemory::Refused(OpenRefusal::Bytes(refusal))),
    }
}

// The world that a text writes for a module.
fn world_for(alloc: Global, program: &Module, text: &[u8]) -> Result<World, OpenFault>
    ensures right { OnOk result (IsWorldText (input_names program.now) (lines_of text.now)) }
    ensures exact { IfOk result (λ world.
        world ≡ world_of (input_names program.now) (lines_of text.now)) }
    ensures rejected { IfErr result (IfRefused (IsNoWorld program.now text.now)) }
{
    let Ok(text) = std::str::from_utf8(text) else {
        return Err(OrNoMemory::Refused(OpenRefusal::Encoding));
    };
    match World::read(alloc, program, text) {
        Ok(world) => Ok(world),
        Err(OrNoMemory::NoMemory) => Err(OrNoMemory::NoMemory),
        Err(OrNoMemory::Refused(refusal)) => Err(OrNoMemory::Refused(OpenRefusal::World(refusal))),
    }
}

// The reply to a refused opening, with the number of bytes of its words.
pub(crate) fn refuse_open(refusal: &OpenRefusal, length: usize) -> Reply
    ensures status { result.status ≡ REFUSED }
    ensures length { result.length ≡ length }
    ensures says { SaysOpenRefusal refusal.now result }
{
    let mut reply = reply_to(refusal);
    reply.length = length;
    reply
}

// The same without a length.
fn reply_to(refusal: &OpenRefusal) -> Reply
    ensures status { result.status ≡ REFUSED }
    ensures says { SaysOpenRefusal refusal.now result }
{
    let mut reply = ended(REFUSED);
    reply.number = refusal.number();
    match refusal {
        OpenRefusal::Bytes(refusal) => {
            reply.text = BYTES;
            reply.offset = refusal.at;
        }
        OpenRefusal::Encoding => {
            reply.text = WORLD;
            reply.line = 1;
        }
        OpenRefusal::World(refusal) => {
            reply.text = WORLD;
            reply.line = refusal.line;
        }
        OpenRefusal::Hierarchy(refusal) => {
            reply.text = HIERARCHY;
            reply.line = refusal.at.line;
            reply.column = refusal.at.column;
        }
        OpenRefusal::Host(refusal) => return refuse(*refusal),
    }
    reply
}
