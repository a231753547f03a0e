//! Hosts whose growths are refused, and the laws of hosts.
//!
//! Undisturbed these tests show that the calls answer; `tools/out-of-memory` runs them with each allocation refused in turn.

use bytecode::decode;
use channels::World;
use common::OrNoMemory;
use host::{Event, Host, HostFault, HostRefusal, Id, laws};
use machine::Status;
use std::alloc::Global;
use std::test::Fail;

// Alice, Bob and Carol, who acts for Bob; an input `s` and an output `a` for Alice, an output `pub` for all. The code is
// PUSH 1, SEND pub, RECV s, STORE 0, LOAD 0, PUSH 1, ADD, SEND a, RET.
const MODULE: [u8; 176] = [
    70, 76, 79, 66, 0, 0, 0, 1, 0, 0, 0, 3, 0, 0, 0, 5, 65, 108, 105, 99, 101, 0, 0, 0, 3, 66, 111,
    98, 0, 0, 0, 5, 67, 97, 114, 111, 108, 0, 0, 0, 1, 0, 0, 0, 2, 0, 0, 0, 1, 0, 0, 0, 0, 0, 0, 0,
    3, 0, 0, 0, 0, 1, 115, 0, 0, 0, 1, 0, 0, 0, 0, 0, 0, 0, 0, 1, 0, 0, 0, 1, 97, 0, 0, 0, 1, 0, 0,
    0, 0, 0, 0, 0, 0, 1, 0, 0, 0, 3, 112, 117, 98, 0, 0, 0, 0, 0, 0, 0, 0, 0, 0, 0, 1, 0, 0, 0, 0,
    0, 0, 0, 0, 1, 0, 0, 0, 0, 0, 0, 0, 0, 37, 1, 0, 0, 0, 1, 38, 0, 0, 0, 2, 37, 0, 0, 0, 0, 5, 0,
    0, 0, 0, 4, 0, 0, 0, 0, 1, 0, 0, 0, 1, 16, 38, 0, 0, 0, 1, 35, 0, 0, 0, 0, 0, 0, 0, 0,
];

#[test]
fn the_laws_are_called(_rt: HostRuntime) {
    laws::sessions_are_fresh_runs();
    laws::sessions_are_isolated();
    laws::sessions_go_on();
    laws::transcripts_join();
    laws::ids_are_never_given_again();
    laws::at_most_64_sessions_are_open();
}

// The world that has 4 for the input `s`, or none where memory runs out.
fn world_once(alloc: Global) -> Option<World> {
    let module = decode(alloc, &MODULE).ok()?;
    World::read(alloc, &module, "s = 4").ok()
}

// The same, made anew where memory runs out.
fn world_of(alloc: Global) -> Result<World, Fail> {
    if let Some(world) = world_once(alloc) {
        return Ok(world);
    }
    Ok(world_once(alloc).ok_or("no world")?)
}

// Opens a session, and tries again where memory runs out.
fn opened(alloc: Global, host: &mut Host) -> Result<Id, Fail> {
    match host.open(&MODULE, world_of(alloc)?) {
        Err(OrNoMemory::NoMemory) => Ok(host.open(&MODULE, world_of(alloc)?)?),
        other => Ok(other?),
    }
}

// Turns a session to its end, again where memory runs out.
fn turned(host: &mut Host, id: Id) -> Result<(u64, Status), Fail> {
    let (taken, status) = host.turn(id, 1000)?;
    if status != Status::NoMemory {
        return Ok((taken, status));
    }
    let (more, status) = host.turn(id, 1000)?;
    Ok((taken.saturating_add(more), status))
}

// How many pairs Alice sees, asked again where memory runs out.
fn count_of_view(host: &Host, id: Id) -> Result<usize, HostFault> {
    match host.view(id, 0) {
        Err(OrNoMemory::NoMemory) => Ok(host.view(id, 0)?.len()),
        other => Ok(other?.len()),
    }
}

// Whether two sessions are opened.
fn opens(alloc: Global, host: &mut Host) -> Result<bool, Fail> {
    Ok(opened(alloc, host)? == 0 && opened(alloc, host)? == 1)
}

// Whether both sessions end, the later one first.
fn ends(host: &mut Host) -> Result<bool, Fail> {
    let ended = (9, Status::Finished);
    Ok(turned(host, 1)? == ended && turned(host, 0)? == ended)
}

// Whether Alice sees two pairs of a session, which is closed then.
fn is_seen(host: &mut Host, id: Id) -> bool {
    count_of_view(host, id) == Ok(2) && host.close(id) == Ok(())
}

// Wherever memory runs out, a call answers out of memory or what it answers undisturbed, and asked again it answers that. The other
// session stays as it was.
#[test]
fn a_refused_growth_changes_nothing(rt: HostRuntime) -> Result<(), Fail> {
    let mut host = Host::new(rt.alloc());
    assert!(rt; opens(rt.alloc(), &mut host)? && ends(&mut host)?);
    assert!(rt; is_seen(&mut host, 0) && is_seen(&mut host, 1));
    Ok(())
}

// The event that opens a session, or none where memory runs out.
fn opening(alloc: Global) -> Option<Event> {
    let bytes = Vec::from_slice(alloc, &MODULE).ok()?;
    Some(Event::Open(bytes, world_once(alloc)?))
}

// Two events, or none where memory runs out.
fn events_of(alloc: Global) -> Option<Vec<Event>> {
    let first = opening(alloc)?;
    vec![in alloc; first, Event::Turn(0, 9)].ok()
}

// Whether two events are answered, or none is, and then no session is open.
fn answers_both_or_none(host: &mut Host, events: Vec<Event>) -> bool {
    match host.run(events) {
        Ok(answers) => answers.len() == 2,
        Err(_) => host.close(0) == Err(OrNoMemory::Refused(HostRefusal::UnknownId)),
    }
}

// Where memory runs out for the list of answers, no event was answered.
#[test]
fn a_refused_list_answers_nothing(rt: HostRuntime) {
    if let Some(events) = events_of(rt.alloc()) {
        let mut host = Host::new(rt.alloc());
        assert!(rt; answers_both_or_none(&mut host, events));
    }
}
