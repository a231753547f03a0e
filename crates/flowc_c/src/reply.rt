//! What a host replies to a call, in numbers.

ghost use Rattle.flowc_c.specs.Hosts.{Says, SaysHostRefusal};
ghost use Rattle.host.specs.Meaning.{Refused};
ghost use Rattle.std.specs.Prelude.{◌≡◌, Some};

use crate::outcome::{DONE, NO_MEMORY, REFUSED};
use flowc::{HostFault, HostRefusal, LoadRefusal, OrNoMemory, Reported};

/// The handle holds no host.
pub const NO_HOST: u32 = 2;

// What of a call is refused.
pub(crate) const HIERARCHY: u32 = 0;

pub(crate) const BYTES: u32 = 2;

pub(crate) const CODE: u32 = 3;

pub(crate) const WORLD: u32 = 4;

pub(crate) const EVENT: u32 = 5;

/// How a call on a host ended. A number that a status does not speak of is 0.
#[repr(C)]
#[derive(Drop)]
pub struct Reply {
    /// 0 done, 1 refused, 2 there is no host, 3 out of memory, 4 the buffer for the result is too short.
    pub status: u32,
    /// Of a refusal: the number that it is reported by.
    pub number: u32,
    /// Of a refusal: what is refused. 0 the text of a hierarchy, 2 the bytes of a module, 3 the code of a procedure of a module, 4 the
    /// text of a world, 5 the event itself.
    pub text: u32,
    /// Of the code of a procedure: its number.
    pub procedure: u32,
    /// Of a text: the line, from 1.
    pub line: usize,
    /// Of a hierarchy: the column, from 1.
    pub column: usize,
    /// Of a module: the byte, from 0, of its bytes or of the code of the procedure.
    pub offset: usize,
    /// How many pairs there are, or how many bytes the words of a refusal have.
    pub length: usize,
    /// The session that was opened.
    pub id: u64,
    /// How many steps a session has taken.
    pub taken: u64,
    /// How its run then stands: 0 running, 1 finished, 2 threw, 3 too deep, 4 out of memory.
    pub run: u32,
    /// The exception that the run threw.
    pub thrown: u32,
}

// A reply with a status alone.
pub(crate) fn ended(status: u32) -> Reply
    ensures { result.status ≡ status }
{
    Reply {
        status,
        number: 0,
        text: 0,
        procedure: 0,
        line: 0,
        column: 0,
        offset: 0,
        length: 0,
        id: 0,
        taken: 0,
        run: 0,
        thrown: 0,
    }
}

// The reply to an event that a host refuses.
pub(crate) fn refuse(refusal: HostRefusal) -> Reply
    ensures status { result.status ≡ REFUSED }
    ensures says { SaysHostRefusal refusal result }
{
    let mut reply = ended(REFUSED);
    reply.number = refusal.number();
    reply.text = match refusal {
        HostRefusal::Full
        | HostRefusal::UnknownId
        | HostRefusal::UnknownPrincipal
        | HostRefusal::NotContained => EVENT,
        HostRefusal::New(_) => WORLD,
        HostRefusal::Load(LoadRefusal::Bytes(refusal)) => {
            reply.offset = refusal.at;
            BYTES
        }
        HostRefusal::Load(LoadRefusal::Code(refusal)) => {
            reply.procedure = refusal.procedure;
            reply.offset = refusal.offset as usize;
            CODE
        }
    };
    reply
}

// The reply to an event that is not carried out.
pub(crate) fn refuse_event(fault: HostFault) -> Reply
    ensures { Says (Some (Refused fault)) result }
{
    match fault {
        OrNoMemory::NoMemory => ended(NO_MEMORY),
        OrNoMemory::Refused(refusal) => refuse(refusal),
    }
}
