//! Runs the module of a file on the world of another one.

ghost use Rattle.modules.specs.Contents.{ModuleContents};
ghost use Rattle.modules.specs.ByteFormat.{Spells};
ghost use Rattle.modules.specs.Format.{module_file};
ghost use Rattle.modules.specs.Machine.{Running, first_state, sent_of};
ghost use Rattle.channels.specs.World.{input_names};
ghost use Rattle.channels.specs.WorldText.{IsWorldText, lines_of};
ghost use Rattle.channels.specs.View.{ShowsAll, ShowsPrefix};
ghost use Rattle.common.specs.Answers.{IfRefused};
ghost use Rattle.flowc.specs.Compiled.{NamedText, bytes_of};
ghost use Rattle.flowc.specs.Given.{text_of};
ghost use Rattle.flowc.specs.Lines.{IsPerformFault};
ghost use Rattle.flowc.specs.Stdout.{CannotRun, IsViewedUnder, ShowsRun, ShowsSome, numbers_in};
ghost use Rattle.flowc.specs.Messages.{IsEndLine, IsHierarchyLine, IsObserverLine, IsRefusedLine, IsUnderLine, reported_line};
ghost use Rattle.flowc.specs.Task.{reported_status, status_of_fault};
ghost use Rattle.flowc.specs.View.{IsObserver};
ghost use Rattle.flowc.specs.declared.fault.PerformFault.TheVariants.{NoMemory};
ghost use Rattle.host.specs.Meaning.{IsContained, hierarchy_under};
ghost use Rattle.machine.specs.Run.{machine_of};
ghost use Rattle.principals.specs.ActsFor.{PrincipalHierarchy};
ghost use Rattle.std.specs.Prelude.{◌≡◌, IfErr, IfOk, IsTrue, IsUtf8, List, ℕ, OnErr, OnOk, Option, Some, false, option_map};
ghost use Rattle.std.specs.String.{string_bytes};
ghost use Rattle.verifier.specs.Refusals.{IsNotRefused};
ghost use Rattle.verifier.specs.Loaded.{IsLoaded};

use crate::ended::Ended;
use crate::fault::PerformFault;
use crate::messages::{not_contained_line, observer_line, text_line};
use crate::reading::{File, read_module, read_world};
use channels::{Sink, ViewFault, write_view, write_view_under};
use checker::read_hierarchy;
use common::OrNoMemory;
use machine::{Machine, NewRefusal, Status};
use modules::Module;
use principals::Hierarchy;
use principals::laws::one_reading;
use resolved::exceptions::exception_name;
use std::alloc::Global;

/// What a run reads: the files of a module and of a world, and of a hierarchy where one is named.
#[derive(Clone, Copy)]
pub struct RunFiles<'a> {
    pub code: File<'a>,
    pub world: File<'a>,
    pub under: Option<File<'a>>,
}

/// Runs a module on a world for at most `steps` steps, and writes what it sent: all of it, or what the observer may read, who is a
/// principal of the module's hierarchy, or of the one that is named, which contains it.
pub fn run<O: Sink>(
    alloc: Global,
    files: RunFiles<'_>,
    observer: Option<&str>,
    steps: u64,
    out: &mut O,
) -> Result<Ended, PerformFault>
    ensures stdout { IfOk result (λ ended. ShowsRun
        files.entry.code.bytes.now files.entry.world.bytes.now
        (bytes_of (option_map text_of files.entry.under))
        (option_map (λ name. name.now) observer.entry)
        steps ended.status (O.taken out.old) (O.taken out.new)) }
    ensures prefix { OnErr result (ShowsSome
        files.entry.code.bytes.now files.entry.world.bytes.now
        (bytes_of (option_map text_of files.entry.under))
        (option_map (λ name. name.now) observer.entry)
        steps (O.taken out.old) (O.taken out.new)) }
    ensures rejected { IfErr result (λ fault. status_of_fault fault ≡ 1 → CannotRun
        files.entry.code.bytes.now files.entry.world.bytes.now
        (bytes_of (option_map text_of files.entry.under))
        (option_map (λ name. name.now) observer.entry)) }
    ensures unchanged { IfErr result (λ fault. status_of_fault fault ≡ 1 →
        O.taken out.old ≡ O.taken out.new) }
    ensures end { IfOk result (λ ended. IsEndLine
        files.entry.code.bytes.now files.entry.world.bytes.now
        (bytes_of (option_map text_of files.entry.under))
        (option_map (λ name. name.now) observer.entry)
        steps ended.status (string_bytes ended.line)) }
    ensures message { IfErr result (IsPerformFault (IsRefusedLine
        (text_of files.entry.code) (text_of files.entry.world)
        (option_map text_of files.entry.under) (option_map (λ name. name.now) observer.entry))
        (O.has_failed out.new)) }
{
    one_reading();
    let mut machine = start(alloc, files.code, files.world)?;
    let larger = read_under(alloc, machine.module(), files.under)?;
    let principal = principal_of(alloc, machine.module(), &larger, observer)?;
    let (_, status) = machine.run(steps);
    show(alloc, &machine, &larger, principal, out)?;
    report_end(alloc, machine.module(), principal, status)
}

// The hierarchy of a file, if one is named, which has to contain that of a module.
fn read_under(
    alloc: Global,
    program: &Module,
    under: Option<File<'_>>,
) -> Result<Option<Hierarchy>, PerformFault>
    ensures accepted { IfOk result (λ larger. IsViewedUnder program.now
        (bytes_of (option_map text_of under.entry)) (hierarchy_under larger program.now)) }
    ensures contained { IfOk result (IsContained program.now) }
    ensures rejected { IfErr result (λ fault. status_of_fault fault ≡ 1 →
        (hierarchy : PrincipalHierarchy) →
        ¬ IsViewedUnder program.now (bytes_of (option_map text_of under.entry)) hierarchy) }
    ensures message { IfErr result (IsPerformFault
        (IsUnderLine program.now (option_map text_of under.entry)) false) }
{
    match under {
        Some(file) => Ok(Some(read_larger(alloc, program, file)?)),
        None => Ok(None),
    }
}

// The hierarchy of a file, which has to contain that of a module.
fn read_larger(alloc: Global, program: &Module, file: File<'_>) -> Result<Hierarchy, PerformFault>
    ensures accepted { IfOk result
        (IsViewedUnder program.now (Some file.entry.bytes.now)) }
    ensures rejected { IfErr result (λ fault. status_of_fault fault ≡ 1 →
        (hierarchy : PrincipalHierarchy) →
        ¬ IsViewedUnder program.now (Some file.entry.bytes.now) hierarchy) }
    ensures message { IfErr result (IsPerformFault
        (IsHierarchyLine program.now (text_of file.entry)) false) }
{
    one_reading();
    let path = file.path;
    match read_hierarchy(alloc, file.bytes) {
        Ok(hierarchy) => {
            if hierarchy.contains(program.hierarchy()) {
                Ok(hierarchy)
            } else {
                Err(PerformFault::Refused(not_contained_line(alloc, path)?))
            }
        }
        Err(OrNoMemory::NoMemory) => Err(PerformFault::NoMemory),
        Err(OrNoMemory::Refused(refusal)) => {
            Err(PerformFault::Refused(text_line(alloc, path, &refusal)?))
        }
    }
}

// The hierarchy whose principals view a run of a module: the one that is given, or else the module's own.
fn viewing<'a>(program: &'a Module, larger: &'a Option<Hierarchy>) -> &'a Hierarchy
    ensures { result.now ≡ hierarchy_under larger.now program.now }
{
    match larger {
        Some(hierarchy) => hierarchy,
        None => program.hierarchy(),
    }
}

// Writes what a machine has sent so far: all of it, or what a principal of the viewing hierarchy may read.
fn show<O: Sink>(
    alloc: Global,
    machine: &Machine,
    larger: &Option<Hierarchy>,
    principal: Option<u32>,
    out: &mut O,
) -> Result<(), ViewFault>
    requires contained { IsContained machine.now.program larger.now }
    ensures accepted { OnOk result (ShowsAll (hierarchy_under larger.now machine.now.program)
        machine.now.program principal (sent_of (machine_of machine.now))
        (O.taken out.old) (O.taken out.new)) }
    ensures prefix { OnErr result (ShowsPrefix (hierarchy_under larger.now machine.now.program)
        machine.now.program principal (sent_of (machine_of machine.now))
        (O.taken out.old) (O.taken out.new)) }
    ensures rejected { IfErr result (IfRefused (λ _. IsTrue (O.has_failed out.new))) }
{
    let (sent, program) = (machine.sent(), machine.module());
    match larger {
        Some(hierarchy) => write_view_under(alloc, sent, program, hierarchy, principal, out),
        None => write_view(alloc, sent, program, principal, out),
    }
}

// The machine of a file's module at its start on the world of another file.
fn start(alloc: Global, code: File<'_>, world: File<'_>) -> Result<Machine, PerformFault>
    ensures accepted { IfOk result (λ machine. IsLoaded code.entry.bytes.now machine.program) }
    ensures encoded { OnOk result (IsUtf8 world.entry.bytes.now) }
    ensures rejected { IfErr result (λ fault. status_of_fault fault ≡ 1 →
        (program : ModuleContents) → Spells module_file program code.entry.bytes.now →
        IsNotRefused program → IsUtf8 world.entry.bytes.now → ¬ IsWorldText (input_names program)
        (lines_of world.entry.bytes.now)) }
    ensures message { IfErr result (IsPerformFault (λ line.
        (under : Option NamedText) (observer : Option (List ℕ)) →
        IsRefusedLine (text_of code.entry) (text_of world.entry) under observer line) false) }
    ensures right { IfOk result (λ machine. IsWorldText (input_names machine.program)
        (lines_of world.entry.bytes.now)) }
    ensures first { IfOk result (λ machine. machine_of machine
        ≡ Running (first_state machine.program (numbers_in machine.program
        world.entry.bytes.now))) }
{
    let verified = read_module(alloc, code)?;
    let numbers = read_world(alloc, verified.module(), world)?;
    match Machine::new(alloc, verified, numbers) {
        Ok(machine) => Ok(machine),
        Err(OrNoMemory::NoMemory) => Err(PerformFault::NoMemory),
        // The world was read for this module.
        Err(OrNoMemory::Refused(NewRefusal::UnknownChannel)) => unreachable!(),
    }
}

// The number of the principal who observes a run of a module, if one is named.
fn principal_of(
    alloc: Global,
    program: &Module,
    larger: &Option<Hierarchy>,
    observer: Option<&str>,
) -> Result<Option<u32>, PerformFault>
    ensures found { IfOk result (λ principal. IsObserver (hierarchy_under larger.now program.now)
        (option_map (λ name. name.now) observer.entry) principal) }
    ensures rejected { IfErr result (λ fault. status_of_fault fault ≡ 1 → (principal : Option ℕ) →
        ¬ IsObserver (hierarchy_under larger.now program.now)
        (option_map (λ name. name.now) observer.entry) principal) }
    ensures message { IfErr result (IsPerformFault
        (IsObserverLine (hierarchy_under larger.now program.now)
        (option_map (λ name. name.now) observer.entry)) false) }
{
    let Some(name) = observer else {
        return Ok(None);
    };
    match viewing(program, larger).find(name) {
        Some(number) => Ok(Some(number)),
        None => Err(PerformFault::Refused(observer_line(alloc, name)?)),
    }
}

// The exit status and the line of the end of a run, which is not reported to an observer.
fn report_end(
    alloc: Global,
    program: &Module,
    observer: Option<u32>,
    status: Status,
) -> Result<Ended, PerformFault>
    ensures message { IfOk result (λ ended. ended.status ≡ reported_status observer status) }
    ensures line { IfOk result (λ ended. string_bytes ended.line ≡ reported_line program.now
        observer status) }
    ensures memory { IfErr result (λ fault. fault ≡ NoMemory) }
{
    if observer.is_some() {
        return Ok(Ended::report_nothing(alloc));
    }
    let (status, line) = match status {
        Status::Finished => (0, String::from_str(alloc, "finished\n")?),
        Status::Threw(exception) => {
            let name = exception_name(program.exceptions(), exception);
            (4, format!(in alloc; "threw {name}\n")?)
        }
        Status::Deep => (5, String::from_str(alloc, "deep\n")?),
        Status::Running => (6, String::from_str(alloc, "running\n")?),
        Status::NoMemory => (3, String::from_str(alloc, "no memory\n")?),
    };
    Ok(Ended { status, line })
}
