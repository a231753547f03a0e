ghost use Rattle.acceptance.specs.Accepted.{StandFor};
ghost use Rattle.command_line.specs.Task.{path_if_given};
ghost use Rattle.flowc.specs.Compiled.{HoldsProgram, IsBuilt, bytes_at, text_at};
ghost use Rattle.flowc.specs.Given.{text_of};
ghost use Rattle.flowc.specs.Lines.{line_of_fault};
ghost use Rattle.flowc.specs.Messages.{WritesMessage, WroteLine};
ghost use Rattle.flowc.specs.Stdout.{WritesStdout};
ghost use Rattle.flowc.specs.Task.{files_of, hands_out, makes_file, may_end, reads_source, status_of_fault};
ghost use Rattle.resolved.specs.CoreOf.{program_of};
ghost use Rattle.std.specs.Prelude.{[], ◌≡◌, ◌+◌, ◌≤◌, ◌<◌, ◌↔◌, IfSome, IsSome, IsTrue, MatchResult, None, Some, length, option_map};
ghost use Rattle.std.specs.String.{string_bytes};

use crate::ended::Ended;
use crate::explain::explain;
use crate::fault::PerformFault;
use crate::list::list_module;
use crate::reading::File;
use crate::running::{RunFiles, run};
use crate::texts::{Accepted, build, check};
use channels::{Sink, write_all};
use checker::Checked;
use command_line::Task;
use std::alloc::Global;
use std::fmt;

/// What the program leaves to do: its exit status, and the bytes for the output file if it makes one.
///
/// A check and a build also hand out the program that they checked, so that who called them decides when it is freed: it is a tree of
/// many small pieces, and freeing them takes about a twentieth of a check. A process that ends with the task need not do so.
#[derive(Drop)]
pub struct Done {
    pub status: u8,
    pub code: Option<Vec<u8>>,
    pub checked: Option<Checked>,
}

// The checked program is left out: its size is that of the source.
impl fmt::Debug for Done {
    fn fmt<W: fmt::Write>(&self, f: &mut fmt::Formatter<W>) -> fmt::Result {
        write!(f, "{:?} {:?}", self.status, self.code)
    }
}

/// Does a task: all of the program but for its files. What goes to standard output and to standard error is written to the
/// two sinks. The caller hands over the bytes of each file that the task reads, in the order in which the task names them.
///
/// On standard error stands one line: the fault that the task ended with, or, of a run without an observer, the end that it came to.
/// Any other task that ends with status 0 has no line.
///
/// There are bytes for the output file exactly where a task builds a module and ends with status 0. A checked program is handed out
/// exactly where a task checks or builds and ends with status 0: the one that the texts of the first two files stand for.
pub fn perform<O: Sink, E: Sink>(
    alloc: Global,
    task: &Task,
    files: &[Vec<u8>],
    out: &mut O,
    err: &mut E,
) -> Done
    requires files { length files.now ≡ files_of task.now }
    ensures small { result.status ≤ 6 }
    ensures status { IsTrue (may_end task.now result.status) }
    ensures code { IsSome result.code ↔ (IsTrue (makes_file task.now) × (result.status ≡ 0)) }
    ensures compiled { IfSome result.code (λ code. IsBuilt files.now code.items) }
    ensures handed_out { IsSome result.checked
        ↔ (IsTrue (hands_out task.now) × (result.status ≡ 0)) }
    ensures checked { IfSome result.checked (λ checked. StandFor
        (bytes_at files.now 0) (bytes_at files.now 1) (program_of checked.core)) }
    ensures accepted { IsTrue (reads_source task.now) → result.status ≡ 0 → HoldsProgram files.now }
    ensures rejected { IsTrue (reads_source task.now) → result.status ≡ 1 →
        ¬ HoldsProgram files.now }
    ensures stdout { WritesStdout task.now files.now result.status (O.taken out.old)
        (O.taken out.new) }
    ensures message { WritesMessage task.now files.now result.status (O.has_failed out.new)
        (E.taken err.old) (E.taken err.new) (E.has_failed err.new) }
{
    match task {
        Task::Check { hier, src } => {
            let (hierarchy, source) = (file_at(hier, files, 0), file_at(src, files, 1));
            finish_texts(check(alloc, hierarchy, source, out), err)
        }
        Task::Build { hier, src, .. } => {
            let (hierarchy, source) = (file_at(hier, files, 0), file_at(src, files, 1));
            finish_texts(build(alloc, hierarchy, source), err)
        }
        Task::Run {
            file,
            world,
            under,
            observer,
            steps,
        } => {
            let read = run_files(file, world, under, files);
            finish(run(alloc, read, name_of(observer), *steps, out), err)
        }
        Task::List { file } => finish(list_module(alloc, file_at(file, files, 0), out), err),
        Task::Explain { hier, src } => {
            let (hierarchy, source) = (file_at(hier, files, 0), file_at(src, files, 1));
            finish(explain(alloc, hierarchy, source, out), err)
        }
    }
}

// The name of an observer, if one is named.
fn name_of(observer: &Option<String>) -> Option<&str>
    ensures { option_map (λ name. name.now) result ≡ option_map string_bytes observer.now }
{
    observer.as_ref().map(|name| name.as_str())
}

// One of the files that were read, by its path.
fn file_at<'a>(path: &'a String, files: &'a [Vec<u8>], index: usize) -> File<'a>
    requires { index < length files.now }
    ensures path { result.path.now ≡ string_bytes path.now }
    ensures bytes { result.bytes.now ≡ bytes_at files.now index }
{
    File {
        path: path.as_str(),
        bytes: files[index].as_slice(),
    }
}

// The files that a run reads, by their paths.
fn run_files<'a>(
    file: &'a String,
    world: &'a String,
    under: &'a Option<String>,
    files: &'a [Vec<u8>],
) -> RunFiles<'a>
    requires { length files.now ≡ 2 + length (path_if_given under.now) }
    ensures code { text_of result.code ≡ text_at file.now files.now 0 }
    ensures world { text_of result.world ≡ text_at world.now files.now 1 }
    ensures under { option_map text_of result.under
        ≡ option_map (λ path. text_at path files.now 2) under.now }
{
    RunFiles {
        code: file_at(file, files, 0),
        world: file_at(world, files, 1),
        under: match under {
            Some(path) => Some(file_at(path, files, 2)),
            None => None,
        },
    }
}

// The end of a task that leaves nothing for a file. Where standard error fails too, there is nowhere left to report it.
fn finish<E: Sink>(outcome: Result<Ended, PerformFault>, err: &mut E) -> Done
    ensures code { result.code ≡ None }
    ensures checked { result.checked ≡ None }
    ensures status { MatchResult outcome
        (λ ended. result.status ≡ ended.status) (λ fault. result.status ≡ status_of_fault fault) }
    ensures message { MatchResult outcome
        (λ ended. WroteLine (string_bytes ended.line)
        (E.taken err.old) (E.taken err.new) (E.has_failed err.new))
        (λ fault. WroteLine (line_of_fault fault)
        (E.taken err.old) (E.taken err.new) (E.has_failed err.new)) }
{
    let (status, line) = match &outcome {
        Ok(ended) => (ended.status, ended.line.as_str()),
        Err(fault) => fault.report(),
    };
    // Where standard error fails too, nothing is left to report it on.
    let _ = write_all(err, line.as_bytes());
    Done {
        status,
        code: None,
        checked: None,
    }
}

// The end of a task that checks a source.
fn finish_texts<E: Sink>(outcome: Result<Accepted, PerformFault>, err: &mut E) -> Done
    ensures code { MatchResult outcome
        (λ accepted. result.code ≡ accepted.code) (λ _. result.code ≡ None) }
    ensures checked { MatchResult outcome
        (λ accepted. result.checked ≡ Some accepted.checked) (λ _. result.checked ≡ None) }
    ensures status { MatchResult outcome
        (λ _. result.status ≡ 0) (λ fault. result.status ≡ status_of_fault fault) }
    ensures message { MatchResult outcome
        (λ _. WroteLine [] (E.taken err.old) (E.taken err.new) (E.has_failed err.new))
        (λ fault. WroteLine (line_of_fault fault)
        (E.taken err.old) (E.taken err.new) (E.has_failed err.new)) }
{
    match outcome {
        Ok(accepted) => Done {
            status: 0,
            code: accepted.code,
            checked: Some(accepted.checked),
        },
        Err(fault) => {
            let (status, line) = fault.report();
            // Where standard error fails too, nothing is left to report it on.
            let _ = write_all(err, line.as_bytes());
            Done {
                status,
                code: None,
                checked: None,
            }
        }
    }
}
