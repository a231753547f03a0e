ghost use Rattle.common.specs.declared.fault.OrNoMemory.TheVariants as faults;
ghost use Rattle.host.specs.Meaning.{Answered, Close, HasSent, IsNotOpen, MayAnswer, Open, Turn, View};
ghost use Rattle.host.specs.Values.{answer_of, closed_or, event_of, host_of, opened_or, turned_or, viewed_or};
ghost use Rattle.host.specs.Next.{next_of};
ghost use Rattle.host.specs.declared.fault.HostRefusal.TheVariants.{UnknownId};
ghost use Rattle.std.specs.Prelude.{[], ◌≡◌, ◌+◌, ◌<◌, ◌^◌, IfErr, IfOk, None, OnErr, Some, map};

use crate::event::{Answer, Event, Id};
use crate::fault::{HostFault, HostRefusal};
use crate::session::{Session, find, first_session, remove};
use channels::{Sent, World};
use common::{OrNoMemory, Pair};
use machine::Status;
use principals::Hierarchy;
use std::alloc::{AllocError, Global};
use std::marker::Model;

/// How many sessions a host has open at the most.
pub const MAX_SESSIONS: usize = 64;

/// A host of sessions.
///
/// A call that is refused changes no session. Where several calls are asked by [`Host::run`], each happens to its end
/// before the next one.
#[derive(Debug, Drop)]
pub struct Host {
    // The next id, if not every one was given.
    next: Option<Id>,
    // The newest session comes first.
    sessions: Vec<Session>,
    alloc: Global,
}

impl Model for Host {
    ghost use Rattle.host.specs.Next.{next_of};
    ghost use Rattle.host.specs.Values.{HostRuns};

    ghost Value = { HostRuns };

    ghost view = { λ host. record { next = next_of host.next; sessions = host.sessions.items } };
}

impl Host {
    /// A host without sessions, which has given no id. It takes no memory.
    pub fn new(alloc: Global) -> Host
        ensures { host_of result ≡ record { next = 0; sessions = [] } }
    {
        Host {
            next: Some(0),
            sessions: Vec::new(alloc),
            alloc,
        }
    }

    /// Opens a session of the module that the bytes spell, on a world, and answers its id. The principals of the
    /// module's own hierarchy view it.
    ///
    /// # Errors
    ///
    /// The first of these that applies: the host is full; the bytes spell no module; the module is refused for its
    /// code; the names of the world's inputs are not those of the module's inputs. Out of memory may be answered
    /// in place of all but the first.
    pub fn open(&mut self, bytes: &[u8], world: World) -> Result<Id, HostFault>
        ensures { MayAnswer MAX_SESSIONS (host_of self.old) (Open bytes.now world None)
            (opened_or result) (host_of self.new) }
    {
        self.open_session(bytes, world, None)
    }

    /// Opens a session as [`Host::open`] does, under a hierarchy that contains the module's: each principal and each
    /// acts-for of the module's is there by name. The principals of this hierarchy view the session, and its labels
    /// are carried over to it by name.
    ///
    /// # Errors
    ///
    /// As [`Host::open`], and last: the hierarchy does not contain the module's.
    pub fn open_under(
        &mut self,
        bytes: &[u8],
        world: World,
        hierarchy: Hierarchy,
    ) -> Result<Id, HostFault>
        ensures { MayAnswer MAX_SESSIONS (host_of self.old) (Open bytes.now world (Some hierarchy))
            (opened_or result) (host_of self.new) }
    {
        self.open_session(bytes, world, Some(hierarchy))
    }

    // Opens a session under a hierarchy that is given, or under the module's own.
    fn open_session(
        &mut self,
        bytes: &[u8],
        world: World,
        under: Option<Hierarchy>,
    ) -> Result<Id, HostFault>
        ensures { MayAnswer MAX_SESSIONS (host_of self.old) (Open bytes.now world under)
            (opened_or result) (host_of self.new) }
    {
        let Some(id) = self.next else {
            return Err(OrNoMemory::Refused(HostRefusal::Full));
        };
        if self.sessions.len() >= MAX_SESSIONS {
            return Err(OrNoMemory::Refused(HostRefusal::Full));
        }
        let after = next_id(id);
        let session = first_session(self.alloc, id, bytes, world, under)?;
        self.sessions.insert(0, session)?;
        self.next = after;
        Ok(id)
    }

    /// Lets a session take at most `steps` steps, and answers how many it took and the status of its run.
    ///
    /// # Errors
    ///
    /// No open session has the id. Out of memory is a status, and no error. The refusal takes no memory.
    pub fn turn(&mut self, id: Id, steps: u64) -> Result<(u64, Status), HostFault>
        ensures { MayAnswer MAX_SESSIONS (host_of self.old) (Turn id steps) (turned_or result)
            (host_of self.new) }
    {
        let Some(index) = find(&self.sessions, id) else {
            return Err(OrNoMemory::Refused(HostRefusal::UnknownId));
        };
        let session = &mut self.sessions[index];
        Ok(session.turn(steps))
    }

    /// What a principal of a session's hierarchy sees of what the session has sent so far: the pairs on channels whose
    /// labels it may read, in order.
    ///
    /// # Errors
    ///
    /// No open session has the id, else its hierarchy has no principal of this number, else out of memory. The first
    /// two take no memory.
    pub fn view(&self, id: Id, principal: u32) -> Result<Vec<Pair>, HostFault>
        ensures { MayAnswer MAX_SESSIONS (host_of self.now) (View id principal) (viewed_or result)
            (host_of self.now) }
    {
        let Some(index) = find(&self.sessions, id) else {
            return Err(OrNoMemory::Refused(HostRefusal::UnknownId));
        };
        let session = &self.sessions[index];
        if principal >= session.hierarchy().count() {
            return Err(OrNoMemory::Refused(HostRefusal::UnknownPrincipal));
        }
        let pairs = session.view(self.alloc, principal)?;
        Ok(pairs)
    }

    /// All that a session has sent so far, for the operator. It takes no memory.
    ///
    /// # Errors
    ///
    /// No open session has the id.
    pub fn sent(&self, id: Id) -> Result<&Sent, HostFault>
        ensures sent { IfOk result (λ sent. HasSent (host_of self.now) id sent.now) }
        ensures rejected { IfErr result (λ fault. (fault ≡ faults.Refused UnknownId)
            × IsNotOpen (host_of self.now) id) }
    {
        let Some(index) = find(&self.sessions, id) else {
            return Err(OrNoMemory::Refused(HostRefusal::UnknownId));
        };
        let session = &self.sessions[index];
        Ok(session.sent())
    }

    /// Closes a session. Its id is not given again. It takes no memory.
    ///
    /// # Errors
    ///
    /// No open session has the id.
    pub fn close(&mut self, id: Id) -> Result<(), HostFault>
        ensures { MayAnswer MAX_SESSIONS (host_of self.old) (Close id) (closed_or result)
            (host_of self.new) }
    {
        let Some(_) = find(&self.sessions, id) else {
            return Err(OrNoMemory::Refused(HostRefusal::UnknownId));
        };
        remove(&mut self.sessions, id);
        Ok(())
    }

    /// Answers events one after another. An event that is refused answers its fault, and the next one follows.
    ///
    /// # Errors
    ///
    /// There is no memory for the list of answers. It is asked for first, and nothing has happened then.
    pub fn run(&mut self, events: Vec<Event>) -> Result<Vec<Answer>, AllocError>
        ensures answered { IfOk result (λ answers. Answered MAX_SESSIONS (host_of self.old)
            (map event_of events.items) (map answer_of answers.items) (host_of self.new)) }
        ensures unchanged { OnErr result (self.new ≡ self.old) }
    {
        let mut answers = Vec::with_capacity(self.alloc, events.len())?;
        for event in events {
            let answer = self.answer(event);
            answers.push_reserved(answer);
        }
        Ok(answers)
    }

    /// Answers one event.
    pub fn answer(&mut self, event: Event) -> Answer
        ensures { MayAnswer MAX_SESSIONS (host_of self.old) (event_of event) (answer_of result)
            (host_of self.new) }
    {
        match event {
            Event::Open(bytes, world) => match self.open(&bytes, world) {
                Ok(id) => Answer::Opened(id),
                Err(fault) => Answer::Refused(fault),
            },
            Event::OpenUnder(bytes, world, hierarchy) => {
                match self.open_under(&bytes, world, hierarchy) {
                    Ok(id) => Answer::Opened(id),
                    Err(fault) => Answer::Refused(fault),
                }
            }
            Event::Turn(id, steps) => match self.turn(id, steps) {
                Ok((taken, status)) => Answer::Turned(taken, status),
                Err(fault) => Answer::Refused(fault),
            },
            Event::View(id, principal) => match self.view(id, principal) {
                Ok(pairs) => Answer::Viewed(pairs),
                Err(fault) => Answer::Refused(fault),
            },
            Event::Close(id) => match self.close(id) {
                Ok(()) => Answer::Closed,
                Err(fault) => Answer::Refused(fault),
            },
        }
    }
}

// The id after another one, if there is one.
fn next_id(id: Id) -> Option<Id>
    ensures within { id < 2 ^ 64 }
    ensures next { next_of result ≡ id + 1 }
{
    id.checked_add(1)
}
