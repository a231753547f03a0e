ghost use Rattle.modules.specs.Machine.{sent_of};
ghost use Rattle.common.specs.Answers.{IfRefused};
ghost use Rattle.host.specs.Meaning.{CanOpen, CannotOpen, IsContained, IsPrincipal, Takes, first_machine, session_view};
ghost use Rattle.host.specs.Meaning as meaning;
ghost use Rattle.host.specs.Numbered.{IsNumberedFor};
ghost use Rattle.host.specs.Values.{contents_of};
ghost use Rattle.host.specs.declared.fault.HostRefusal.TheVariants.{NotContained};
ghost use Rattle.machine.specs.Run.{machine_of};
ghost use Rattle.std.specs.Prelude.{◌≡◌, ◌==◌, IfErr, IfOk, IfSome, None, OnOk, filter, not, option_map, position};

use crate::event::Id;
use crate::fault::{HostFault, HostRefusal};
use channels::{Sent, World, pairs_for, pairs_for_under};
use common::{OrNoMemory, Pair};
use labels::Renumbering;
use machine::{Machine, Status};
use modules::Module;
use principals::Hierarchy;
use std::alloc::{AllocError, Global};
use std::marker::Model;
use verifier::load;

// A hierarchy that contains a module's, and the numbers that the module's principals have there.
#[derive(Debug, Drop)]
struct Larger {
    hierarchy: Hierarchy,
    numbers: Renumbering,
}

/// An open session.
#[derive(Debug, Drop)]
pub struct Session {
    id: Id,
    machine: Machine,
    // The hierarchy that the session was opened under, if it was not the module's own.
    larger: Option<Larger>,
}

impl Model for Session {
    ghost use Rattle.host.specs.Values.{SessionRun};

    ghost Value = { SessionRun };

    ghost use Rattle.host.specs.Numbered.{IsNumberedFor};
    ghost use Rattle.std.specs.Prelude.{IfSome, option_map};

    ghost view = { λ session. record {
      id = session.id;
      run = session.machine;
      under = option_map (λ larger. larger.hierarchy) session.larger;
    } };

    ghost invariant = { λ session. IfSome session.larger (IsNumberedFor session.machine.program) };
}

impl Session {
    pub fn id(&self) -> Id
        ensures { result ≡ self.now.id }
    {
        self.id
    }

    /// The hierarchy whose principals view the session.
    pub fn hierarchy(&self) -> &Hierarchy
        ensures { result.now ≡ (contents_of self.now).hierarchy }
    {
        match &self.larger {
            Some(larger) => &larger.hierarchy,
            None => self.machine.module().hierarchy(),
        }
    }

    /// What the run has sent so far.
    pub fn sent(&self) -> &Sent
        ensures { result.now ≡ sent_of (machine_of self.now.run) }
    {
        self.machine.sent()
    }

    /// What a principal of the session's hierarchy sees of what the run has sent so far.
    pub fn view(&self, alloc: Global, principal: u32) -> Result<Vec<Pair>, AllocError>
        requires { IsPrincipal (contents_of self.now) principal }
        ensures { IfOk result (λ pairs. pairs.items ≡ session_view (contents_of self.now)
            principal) }
    {
        let (sent, program) = (self.machine.sent(), self.machine.module());
        match &self.larger {
            Some(larger) => {
                pairs_for_under(
                    alloc,
                    sent,
                    program,
                    &larger.hierarchy,
                    &larger.numbers,
                    principal,
                )
            }
            None => pairs_for(alloc, sent, program, principal),
        }
    }

    /// Takes at most `steps` steps, and reports how many it took and the status of the run.
    pub fn turn(&mut self, steps: u64) -> (u64, Status)
        ensures id { self.new.id ≡ self.old.id }
        ensures program { self.new.run.program ≡ self.old.run.program }
        ensures under { self.new.under ≡ self.old.under }
        ensures takes { Takes (contents_of self.old) steps result.0 result.1
            (machine_of self.new.run) }
    {
        self.machine.run(steps)
    }
}

/// The session of the module that the bytes spell, on a world, under a hierarchy that is given or under the module's own, before
/// its first step.
pub fn first_session(
    alloc: Global,
    number: Id,
    bytes: &[u8],
    world: World,
    under: Option<Hierarchy>,
) -> Result<Session, HostFault>
    ensures accepted { IfOk result (λ session.
        CanOpen bytes.now world under session.run.program) }
    ensures first { IfOk result (λ session. contents_of session
        ≡ meaning.first_session number session.run.program world under) }
    ensures under { IfOk result (λ session. session.under ≡ under) }
    ensures rejected { IfErr result (IfRefused (CannotOpen bytes.now world under)) }
{
    let machine = first_run(alloc, bytes, world)?;
    let larger = larger_for(alloc, machine.module(), under)?;
    Ok(Session {
        id: number,
        machine,
        larger,
    })
}

// A hierarchy that is given for a module, with the numbers that the module's principals have there.
fn larger_for(
    alloc: Global,
    program: &Module,
    under: Option<Hierarchy>,
) -> Result<Option<Larger>, HostFault>
    ensures same { IfOk result (λ larger. option_map (λ l. l.hierarchy) larger ≡ under) }
    ensures numbered { IfOk result (λ larger. IfSome larger (IsNumberedFor program.now)) }
    ensures contained { OnOk result (IsContained program.now under) }
    ensures rejected { IfErr result (IfRefused (λ refusal. (refusal ≡ NotContained)
        × ¬ IsContained program.now under)) }
{
    let Some(hierarchy) = under else {
        return Ok(None);
    };
    let own = program.hierarchy();
    if !hierarchy.contains(own) {
        return Err(OrNoMemory::Refused(HostRefusal::NotContained));
    }
    let numbers = Renumbering::by_name(alloc, own, &hierarchy)?;
    Ok(Some(Larger { hierarchy, numbers }))
}

// The run of the module that the bytes spell, on a world, before its first step.
fn first_run(alloc: Global, bytes: &[u8], world: World) -> Result<Machine, HostFault>
    ensures accepted { IfOk result (λ run. CanOpen bytes.now world None run.program) }
    ensures first { IfOk result (λ run. machine_of run ≡ first_machine run.program world) }
    ensures rejected { IfErr result (IfRefused (CannotOpen bytes.now world None)) }
{
    let verified = load(alloc, bytes).map_err(OrNoMemory::cast)?;
    Machine::new(alloc, verified, world).map_err(OrNoMemory::cast)
}

/// The index of the first session with an id.
pub fn find(sessions: &[Session], id: Id) -> Option<usize>
    ensures { result ≡ position (λ session. session.id == id) sessions.now }
{
    sessions.iter().position(|session| session.id() == id)
}

/// Drops the sessions with an id.
pub fn remove(sessions: &mut Vec<Session>, id: Id)
    ensures { sessions.new.items ≡ filter (λ session. not (session.id == id)) sessions.old.items }
{
    sessions.retain(|session| session.id() != id);
}
