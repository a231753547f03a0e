//! What is promised of the bytes that two texts are compiled to, from the texts to what a principal is shown. They do nothing
//! when they are called.

ghost use Rattle.flowc.specs.Promises.{RunsAreIsolated, RunsEndAsTheSource, RunsShowThemselves, CompiledSessionsAreIsolated, SessionsEndAsTheSource, SessionsShowNoLess, SessionsShowNoMore, SilentModulesShowLess, SomeSessionsShowAll, StandardErrorIsFixed};

/// Sessions of compiled bytes show what the source means: never more than a principal sees of the source, and all that it sees of it
/// with any given amount of fuel where they have taken enough steps or have answered that their run has ended. Where one has
/// ended the source ends so too.
///
/// `some` says of the relation between events and answers alone that it is not empty: it allows a session that shows all. It says
/// of no host that it has one.
pub fn sessions_mean_the_source()
    ensures no_more { SessionsShowNoMore }
    ensures no_less { SessionsShowNoLess }
    ensures some { SomeSessionsShowAll }
    ensures ended { SessionsEndAsTheSource }
{
    host::laws::sessions_are_fresh_runs();
}

/// A module of which no run is stuck, and which sends nothing on a world on which its bytes can be opened, does not show what a
/// source means of which some principal of the module sees anything on that world: it does not meet what
/// [`sessions_mean_the_source`] says with `no_less` of compiled bytes.
pub fn silent_modules_show_less()
    ensures { SilentModulesShowLess }
{}

/// Sessions of compiled bytes are isolated: where two are opened on worlds that agree for a principal, by any hosts among any
/// events, one of the lists that they show to it is a prefix of the other.
pub fn sessions_are_isolated()
    ensures { CompiledSessionsAreIsolated }
{
    bytecode::laws::one_spelling();
    host::laws::sessions_are_isolated();
    host::laws::sessions_are_fresh_runs();
}

/// What the program shows an observer. On standard output: where compiled bytes are run twice for it, on worlds that agree for it,
/// one of the two texts there is a prefix of the other, and a run that is shown whole has the status 0. On standard error: whatever
/// the world, a run that can be run for it has no line there with status 0, and with status 3 one of two fixed ones.
///
/// Whether such a run ends with status 0 or 3 is not said: that depends on memory and on the streams.
pub fn runs_are_isolated()
    ensures stdout { RunsShowThemselves }
    ensures isolated { RunsAreIsolated }
    ensures fixed { StandardErrorIsFixed }
{
    bytecode::laws::one_spelling();
    bytecode::laws::spellings_are_not_refused();
    principals::laws::one_reading();
}

/// What the program says of the end of a run of compiled bytes, without an observer, is true of the source: the line has the
/// source's names of exceptions, and the source ends as the run has ended.
pub fn runs_end_as_the_source()
    ensures { RunsEndAsTheSource }
{
    bytecode::laws::one_spelling();
}
