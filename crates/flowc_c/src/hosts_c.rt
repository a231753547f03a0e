//! A host in a handle of the caller: made, let go on, and freed.

ghost use Rattle.flowc_c.specs.Hosts.{Asked, GivesAnswer, IsEventRefused, Says, TakesTurn, hosted, run_number, thrown_number};
ghost use Rattle.host.specs.Meaning.{Close, Closed, Turn};
ghost use Rattle.host.specs.Values.{closed_or, turned_or};
ghost use Rattle.std.specs.Option.{option_map};
ghost use Rattle.std.specs.Prelude.{[], ◌≡◌, ◌≤◌, ◌↔◌, None, Some};

use crate::outcome::{DONE, NO_MEMORY, REFUSED};
use crate::reply::{NO_HOST, Reply, ended, refuse_event};
use flowc::{Host, HostFault, Status};
use host_handle::Handle;
use std::alloc::Global;

/// Makes a host without sessions. A host that the handle holds is freed before.
#[unsafe(no_mangle)]
pub extern "C" fn flowc_host_new(alloc: Global, handle: &mut Handle) -> u32
    ensures made { result ≡ DONE →
        hosted handle.new.slot.held ≡ Some (record { next = 0; sessions = [] }) }
    ensures freed { result ≡ NO_MEMORY → hosted handle.new.slot.held ≡ None }
    ensures ends { ¬ (result ≡ DONE) → result ≡ NO_MEMORY }
{
    let _freed = handle.take(alloc);
    match Box::new(alloc, Host::new(alloc)) {
        Ok(made) => {
            handle.put(made);
            DONE
        }
        Err(_) => NO_MEMORY,
    }
}

/// Frees the host that the handle holds, if it holds one.
#[unsafe(no_mangle)]
pub extern "C" fn flowc_host_free(alloc: Global, handle: &mut Handle)
    ensures { hosted handle.new.slot.held ≡ None }
{
    let _freed = handle.take(alloc);
}

/// Lets a session take at most `steps` steps, and says how many it took and the status of its run.
#[unsafe(no_mangle)]
pub extern "C" fn flowc_host_turn(alloc: Global, handle: &mut Handle, id: u64, steps: u64) -> Reply
    ensures turned { result.status ≡ DONE → TakesTurn
        (hosted handle.old.slot.held) id steps result (hosted handle.new.slot.held) }
    ensures rejected { result.status ≡ REFUSED → IsEventRefused
        (hosted handle.old.slot.held) (Turn id steps) result }
    ensures no_host { (result.status ≡ NO_HOST) ↔ (hosted handle.old.slot.held ≡ None) }
    ensures unchanged { ¬ (result.status ≡ DONE) →
        hosted handle.new.slot.held ≡ hosted handle.old.slot.held }
    ensures ends { result.status ≤ NO_HOST }
{
    let answer = ask_turn(alloc, handle, id, steps);
    reply_to_turn(answer)
}

// Asks the host of a handle for a turn.
fn ask_turn(
    alloc: Global,
    handle: &mut Handle,
    id: u64,
    steps: u64,
) -> Option<Result<(u64, Status), HostFault>>
    ensures { Asked handle.old.slot.held (Turn id steps) (option_map turned_or result)
        handle.new.slot.held }
{
    let Some(mut host) = handle.take(alloc) else {
        return None;
    };
    let answer = host.turn(id, steps);
    handle.put(host);
    Some(answer)
}

// The reply to a turn.
fn reply_to_turn(answer: Option<Result<(u64, Status), HostFault>>) -> Reply
    ensures { Says (option_map turned_or answer) result }
{
    match answer {
        None => ended(NO_HOST),
        Some(Ok((taken, status))) => turned(taken, status),
        Some(Err(fault)) => refuse_event(fault),
    }
}

// The reply to a turn that was taken.
fn turned(taken: u64, status: Status) -> Reply
    ensures status { result.status ≡ DONE }
    ensures taken { result.taken ≡ taken }
    ensures run { result.run ≡ run_number status }
    ensures thrown { result.thrown ≡ thrown_number status }
{
    let (run, thrown) = match status {
        Status::Running => (0, 0),
        Status::Finished => (1, 0),
        Status::Threw(exception) => (2, exception),
        Status::Deep => (3, 0),
        Status::NoMemory => (4, 0),
    };
    let mut reply = ended(DONE);
    reply.taken = taken;
    reply.run = run;
    reply.thrown = thrown;
    reply
}

/// Says how the run of a session stands. The session takes no step.
#[unsafe(no_mangle)]
pub extern "C" fn flowc_host_status(alloc: Global, handle: &mut Handle, id: u64) -> Reply
    ensures stands { result.status ≡ DONE → TakesTurn
        (hosted handle.old.slot.held) id 0 result (hosted handle.old.slot.held) }
    ensures rejected { result.status ≡ REFUSED → IsEventRefused
        (hosted handle.old.slot.held) (Turn id 0) result }
    ensures no_host { (result.status ≡ NO_HOST) ↔ (hosted handle.old.slot.held ≡ None) }
    ensures unchanged { hosted handle.new.slot.held ≡ hosted handle.old.slot.held }
    ensures ends { result.status ≤ NO_HOST }
{
    let answer = ask_turn(alloc, handle, id, 0);
    reply_to_turn(answer)
}

/// Closes a session. Its id is not given again.
#[unsafe(no_mangle)]
pub extern "C" fn flowc_host_close(alloc: Global, handle: &mut Handle, id: u64) -> Reply
    ensures closed { result.status ≡ DONE → GivesAnswer
        (hosted handle.old.slot.held) (Close id) Closed (hosted handle.new.slot.held) }
    ensures rejected { result.status ≡ REFUSED → IsEventRefused
        (hosted handle.old.slot.held) (Close id) result }
    ensures no_host { (result.status ≡ NO_HOST) ↔ (hosted handle.old.slot.held ≡ None) }
    ensures unchanged { ¬ (result.status ≡ DONE) →
        hosted handle.new.slot.held ≡ hosted handle.old.slot.held }
    ensures ends { result.status ≤ NO_HOST }
{
    let answer = ask_close(alloc, handle, id);
    reply_to_close(answer)
}

// Asks the host of a handle to close a session.
fn ask_close(alloc: Global, handle: &mut Handle, id: u64) -> Option<Result<(), HostFault>>
    ensures { Asked handle.old.slot.held (Close id) (option_map closed_or result)
        handle.new.slot.held }
{
    let Some(mut host) = handle.take(alloc) else {
        return None;
    };
    let answer = host.close(id);
    handle.put(host);
    Some(answer)
}

// The reply to the closing of a session.
fn reply_to_close(answer: Option<Result<(), HostFault>>) -> Reply
    ensures { Says (option_map closed_or answer) result }
{
    match answer {
        None => ended(NO_HOST),
        Some(Ok(())) => ended(DONE),
        Some(Err(fault)) => refuse_event(fault),
    }
}
