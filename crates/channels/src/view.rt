//! What an observer is shown of the pairs that a run has sent.

ghost use Rattle.labels.specs.Carried.{number_by_name, numbered};
ghost use Rattle.labels.specs.Label.{may_read};
ghost use Rattle.modules.specs.Isolated.{module_view};
ghost use Rattle.principals.specs.ActsFor.{ContainsHierarchy};
ghost use Rattle.channels.specs.View as view;
ghost use Rattle.channels.specs.View.{CarriesLabels, ShowsAll, ShowsPrefix, answers_for, is_shown, name_in, pair_line, readable, renumbered};
ghost use Rattle.common.specs.Answers.{IfRefused};
ghost use Rattle.std.specs.Prelude.{◌≡◌, IfErr, IfOk, IsTrue, OnErr, OnOk, filter, option_map, slice_get};
ghost use Rattle.std.specs.String.{string_bytes};

use crate::sent::Sent;
use crate::sink::{Sink, SinkFault, write_all};
use common::{OrNoMemory, Pair};
use labels::{Label, Renumbering, may_read, may_read_under};
use modules::Module;
use modules::laws::labels_are_those_written;
use principals::Hierarchy;
use std::alloc::{AllocError, Global};

/// Why a view was not written to its end: memory ran out, or the sink did not take what was written.
pub type ViewFault = OrNoMemory<SinkFault>;

impl From<SinkFault> for ViewFault {
    ghost use Rattle.common.specs.declared.fault.OrNoMemory.TheVariants.{Refused};

    ghost from_gives = { λ refusal fault. fault ≡ Refused refusal };

    fn from(refusal: SinkFault) -> ViewFault {
        OrNoMemory::Refused(refusal)
    }
}

// Who looks at what a module sent, one principal of a hierarchy or the operator, who sees all. Whether a principal may read a channel
// is tested once for each channel: a label may be long, and there may be many pairs.
#[derive(Drop)]
struct Observer<'a> {
    program: &'a Module,
    hierarchy: &'a Hierarchy,
    principal: Option<u32>,
    answers: Vec<bool>,
    ghost known: { answers.items ≡ answers_for hierarchy.now program.now principal },
}

impl<'a> Observer<'a> {
    // An observer under the module's own hierarchy, or under another one with the numbers that the module's principals have there.
    fn of(
        alloc: Global,
        program: &'a Module,
        hierarchy: &'a Hierarchy,
        numbers: Option<&Renumbering>,
        principal: Option<u32>,
    ) -> Result<Observer<'a>, AllocError>
        requires { CarriesLabels hierarchy.now program.now (option_map (λ r. r.now) numbers) }
        ensures program { IfOk result (λ observer. observer.program.now ≡ program.now) }
        ensures hierarchy { IfOk result (λ observer. observer.hierarchy.now ≡ hierarchy.now) }
        ensures principal { IfOk result (λ observer. observer.principal ≡ principal) }
    {
        let answers = match principal {
            None => Vec::new(alloc),
            Some(reader) => readable_channels(alloc, program, hierarchy, numbers, reader)?,
        };
        Ok(Observer {
            program,
            hierarchy,
            principal,
            answers,
        })
    }

    // Whether the observer is shown a pair.
    #[tactic(auto, using(crate::proofs::Views::readable_is))]
    fn sees(&self, pair: Pair) -> bool
        ensures { result ≡
            is_shown self.now.hierarchy.now self.now.program.now self.now.principal pair }
    {
        match self.principal {
            None => true,
            Some(_) => is_readable(&self.answers, pair.channel),
        }
    }
}

// For each channel of a module, by its number, whether a principal may read it.
fn readable_channels(
    alloc: Global,
    program: &Module,
    hierarchy: &Hierarchy,
    numbers: Option<&Renumbering>,
    principal: u32,
) -> Result<Vec<bool>, AllocError>
    requires { CarriesLabels hierarchy.now program.now (option_map (λ r. r.now) numbers) }
    ensures { IfOk result (λ answers.
        answers.items ≡ readable hierarchy.now program.now principal) }
{
    let mut answers = Vec::new(alloc);
    for channel in program.channels() {
        answers.push(may_read_label(hierarchy, numbers, principal, channel.label()))?;
    }
    Ok(answers)
}

// Whether a principal may read what a label guards, as it is or with its principals renumbered.
fn may_read_label(
    hierarchy: &Hierarchy,
    numbers: Option<&Renumbering>,
    principal: u32,
    label: &Label,
) -> bool
    ensures { result ≡ may_read hierarchy.now principal
        (renumbered (option_map (λ r. r.now) numbers.entry) label.now) }
{
    match numbers {
        None => may_read(hierarchy, principal, label),
        Some(there) => may_read_under(hierarchy, there, principal, label),
    }
}

// The answer for a channel; one that is not there is for everybody.
fn is_readable(answers: &[bool], channel: u32) -> bool
    ensures { result ≡ view.is_readable (slice_get answers.now channel) }
{
    match answers.get(channel as usize) {
        Some(answer) => *answer,
        None => true,
    }
}

// The name of a channel.
fn name_of(program: &Module, channel: u32) -> &str
    ensures { result.now ≡ name_in (slice_get program.now.channels channel) }
{
    match program.channels().get(channel as usize) {
        Some(found) => found.name(),
        None => "",
    }
}

// The line of a pair: the channel's name and the number.
fn line_of(alloc: Global, program: &Module, pair: Pair) -> Result<String, AllocError>
    ensures { IfOk result (λ line. string_bytes line ≡ pair_line program.now pair) }
{
    let name = name_of(program, pair.channel);
    let number = pair.number;
    format!(in alloc; "{name} {number}\n")
}

// So many bytes of lines are written at once, or up to a line more.
const BLOCK: usize = 8192;

// Writes a line for each pair that the observer is shown.
fn write_lines<S: Sink>(
    alloc: Global,
    observer: &Observer,
    pairs: &[Pair],
    out: &mut S,
) -> Result<(), ViewFault>
    ensures accepted { OnOk result (ShowsAll observer.now.hierarchy.now observer.now.program.now
        observer.now.principal pairs.now (S.taken out.old) (S.taken out.new)) }
    ensures prefix { OnErr result (ShowsPrefix observer.now.hierarchy.now observer.now.program.now
        observer.now.principal pairs.now (S.taken out.old) (S.taken out.new)) }
    ensures kept { OnOk result (S.has_failed out.new ≡ S.has_failed out.old) }
    ensures rejected { IfErr result (IfRefused (λ _. IsTrue (S.has_failed out.new))) }
{
    // Lines are put together, so that a sink that costs much for each write is asked seldom.
    let mut lines = Vec::new(alloc);
    for pair in pairs {
        if observer.sees(*pair) {
            let line = line_of(alloc, observer.program, *pair)?;
            lines.extend_from_slice(line.as_bytes())?;
            if lines.len() >= BLOCK {
                write_all(out, &lines)?;
                lines.clear();
            }
        }
    }
    write_all(out, &lines)?;
    Ok(())
}

/// Writes what an observer is shown of the pairs that a module sent, under the module's own hierarchy, or all of them where there is
/// no observer: a line for each, with the channel's name, a space, the number in decimal and a line feed.
///
/// # Errors
///
/// The fault of the sink where that failed, or out of memory. What went out then is a prefix of the text.
pub fn write_view<S: Sink>(
    alloc: Global,
    sent: &Sent,
    program: &Module,
    observer: Option<u32>,
    out: &mut S,
) -> Result<(), ViewFault>
    ensures accepted { OnOk result (ShowsAll program.now.hierarchy program.now observer sent.now
        (S.taken out.old) (S.taken out.new)) }
    ensures prefix { OnErr result (ShowsPrefix program.now.hierarchy program.now observer sent.now
        (S.taken out.old) (S.taken out.new)) }
    ensures kept { OnOk result (S.has_failed out.new ≡ S.has_failed out.old) }
    ensures rejected { IfErr result (IfRefused (λ _. IsTrue (S.has_failed out.new))) }
{
    labels_are_those_written();
    let viewer = Observer::of(alloc, program, program.hierarchy(), None, observer)?;
    write_lines(alloc, &viewer, sent.pairs(), out)
}

/// The same under a hierarchy that contains the module's own, to which the principals of its labels are carried over by name. The
/// observer is a principal of that hierarchy.
///
/// Precondition: the hierarchy contains the module's own.
///
/// # Errors
///
/// The fault of the sink where that failed, or out of memory. What went out then is a prefix of the text.
pub fn write_view_under<S: Sink>(
    alloc: Global,
    sent: &Sent,
    program: &Module,
    larger: &Hierarchy,
    observer: Option<u32>,
    out: &mut S,
) -> Result<(), ViewFault>
    requires contains { ContainsHierarchy larger.now program.now.hierarchy }
    ensures accepted { OnOk result (ShowsAll larger.now program.now observer sent.now
        (S.taken out.old) (S.taken out.new)) }
    ensures prefix { OnErr result (ShowsPrefix larger.now program.now observer sent.now
        (S.taken out.old) (S.taken out.new)) }
    ensures kept { OnOk result (S.has_failed out.new ≡ S.has_failed out.old) }
    ensures rejected { IfErr result (IfRefused (λ _. IsTrue (S.has_failed out.new))) }
{
    let numbers = Renumbering::by_name(alloc, program.hierarchy(), larger)?;
    let viewer = Observer::of(alloc, program, larger, Some(&numbers), observer)?;
    write_lines(alloc, &viewer, sent.pairs(), out)
}

// The pairs of a list that the observer is shown.
fn select_pairs(alloc: Global, observer: &Observer, sent: &[Pair]) -> Result<Vec<Pair>, AllocError>
    ensures { IfOk result (λ pairs. pairs.items ≡ filter (is_shown observer.now.hierarchy.now
        observer.now.program.now observer.now.principal) sent.now) }
{
    let mut pairs = Vec::new(alloc);
    for pair in sent {
        if observer.sees(*pair) {
            pairs.push(*pair)?;
        }
    }
    Ok(pairs)
}

/// The pairs that a principal sees of those that a module sent, in order: those on channels whose label it may read, under the
/// module's own hierarchy.
pub fn pairs_for(
    alloc: Global,
    sent: &Sent,
    program: &Module,
    principal: u32,
) -> Result<Vec<Pair>, AllocError>
    ensures { IfOk result (λ pairs.
        pairs.items ≡ module_view program.now.hierarchy program.now principal sent.now) }
{
    labels_are_those_written();
    let observer = Observer::of(alloc, program, program.hierarchy(), None, Some(principal))?;
    select_pairs(alloc, &observer, sent.pairs())
}

/// The same under another hierarchy, to which the principals of the module's labels are carried over by name.
///
/// Precondition: the numbers are those that the principals of the module's hierarchy have in the other one, by their names.
pub fn pairs_for_under(
    alloc: Global,
    sent: &Sent,
    program: &Module,
    larger: &Hierarchy,
    numbers: &Renumbering,
    principal: u32,
) -> Result<Vec<Pair>, AllocError>
    requires numbers { numbered numbers.now ≡ number_by_name program.now.hierarchy larger.now }
    ensures { IfOk result (λ pairs.
        pairs.items ≡ module_view larger.now program.now principal sent.now) }
{
    let observer = Observer::of(alloc, program, larger, Some(numbers), Some(principal))?;
    select_pairs(alloc, &observer, sent.pairs())
}
