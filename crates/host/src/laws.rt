//! Laws of hosts, proved for every host and every list of events. They do nothing when they are called.

ghost use Rattle.host.specs.Laws.{IdsGoUp, SessionsAreFreshRuns, SessionsAreIsolated, SessionsCanBeOpened, SessionsEndAsReported, SessionsGoOn, SessionsShowOn, SessionsStandAsReported, StepsAddUp, TranscriptsJoin};
ghost use Rattle.std.specs.Prelude.{◌≡◌};

use crate::hosts::MAX_SESSIONS;

/// A session is a run of its module alone on its world. What is shown of it is what that run has sent after the steps that the
/// session's own turns reported, it has ended where one of them reported an end, and after all events it stands where that run
/// stands, whatever events of other sessions come between. Its bytes can be opened on its world, and the hierarchy that it is
/// opened under, where one is given, contains their module's.
pub fn sessions_are_fresh_runs()
    ensures views { SessionsAreFreshRuns }
    ensures ended { SessionsEndAsReported }
    ensures stands { SessionsStandAsReported }
    ensures opened { SessionsCanBeOpened }
{
    bytecode::laws::one_spelling();
}

/// Sessions of isolated bytes are isolated: where two are opened from the same bytes, by any hosts among any events, under a hierarchy
/// under which the bytes are isolated, on worlds that agree there for a principal, one of what they show to it is a prefix of the
/// other.
pub fn sessions_are_isolated()
    ensures { SessionsAreIsolated }
{
    bytecode::laws::one_spelling();
}

/// A session that was open before goes on: by the steps that its own turns report, whatever events of other sessions come
/// between, and so it is shown.
pub fn sessions_go_on()
    ensures stands { SessionsGoOn }
    ensures views { SessionsShowOn }
{}

/// What a host answers in several calls is one transcript: events and answers in a row, with the steps of each session added up.
pub fn transcripts_join()
    ensures joined { TranscriptsJoin }
    ensures steps { StepsAddUp }
{}

/// No id is given twice: of two sessions that a host opens, the later one has the greater id.
pub fn ids_are_never_given_again()
    ensures { IdsGoUp }
{}

/// A host has at most 64 sessions open: a constant that is changed is refused here, while the contracts that cite it would follow the
/// change.
pub fn at_most_64_sessions_are_open()
    ensures { MAX_SESSIONS ≡ 64 }
{}
