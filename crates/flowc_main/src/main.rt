//! The program `flowc`: takes the words, reads the files, does the task, and ends with its status.
#![tactic(auto)]

ghost use Rattle.flowc.specs.Task.{files_of};
ghost use Rattle.std.specs.Prelude.{◌≡◌, IfOk, length};

use channels::{Device, write_all};
use common::OrNoMemory;
use flowc::{Feed, SourceFault, Task, TaskRefusal, perform, read_text, task};
use std::alloc::AllocError;
use std::io::{Error, ErrorKind};
use std::mem::forget;
use std::process::ExitCode;
use std::rt::Files;
use std::{env, fs};

// What the program refuses, apart from what its task reports.
#[derive(Debug, Drop)]
enum ProgramRefusal {
    // Wrong words, or words that ask for help: the text that says so.
    Words(String),
    // A file that cannot be read or written: the line that says so.
    File(String),
    // A word of the command line is no text.
    NoText,
}

// The most bytes of a block that the allocator of the C library takes from the memory that it keeps, once it has seen such a block
// freed; before, each large block that is freed goes back to the system. A second such block makes room that is asked for at once
// and not piece by piece; memory is taken where it is written to.
const LARGE_BLOCK: usize = 32 * 1024 * 1024 - 64 * 1024;

// Why the program stops.
type ProgramFault = OrNoMemory<ProgramRefusal>;

impl From<TaskRefusal> for ProgramRefusal {
    fn from(refusal: TaskRefusal) -> ProgramRefusal {
        let TaskRefusal { text } = refusal;
        ProgramRefusal::Words(text)
    }
}

fn main(rt: HostRuntime) -> ExitCode {
    for _ in 0..2 {
        if let Ok(block) = Vec::<u8>::with_capacity(rt.alloc(), LARGE_BLOCK) {
            drop(block);
        }
    }
    match perform_words(&rt) {
        Ok(status) => ExitCode::from(status),
        Err(fault) => ExitCode::from(report(&rt, &fault)),
    }
}

// Does the task that the words ask for, and answers its status.
fn perform_words(rt: &HostRuntime) -> Result<u8, ProgramFault> {
    let words = match env::args(rt) {
        Ok(words) => words,
        // The words are there unless memory ran out or one of them is not UTF-8.
        Err(error) if error.kind() == ErrorKind::OutOfMemory => return Err(OrNoMemory::NoMemory),
        Err(_) => return Err(OrNoMemory::Refused(ProgramRefusal::NoText)),
    };
    let mut owned = Vec::new(rt.alloc());
    for word in words {
        owned.push(word)?;
    }
    // The program calls itself `flowc`, whatever the name of its file.
    let mut lent: Vec<&str> = Vec::new(rt.alloc());
    lent.push("flowc")?;
    for word in owned.iter().skip(1) {
        lent.push(word.as_str())?;
    }
    let asked = task(rt.alloc(), &lent).map_err(OrNoMemory::cast)?;
    let files = read_files(rt, &asked)?;
    let mut out = Device::new(rt.stdout());
    let mut err = Device::new(rt.stderr());
    let outcome = perform(rt.alloc(), &asked, &files, &mut out, &mut err);
    // The file for a module is not touched before there is a module.
    if let (Task::Build { out, .. }, Some(code)) = (&asked, &outcome.code) {
        write(rt, out.as_str(), code)?;
    }
    let status = outcome.status;
    // The process ends here, and the system takes its memory back as a whole.
    forget(outcome);
    Ok(status)
}

// The bytes of each file that the task reads, at most three, in the order in which it names them.
fn read_files(rt: &HostRuntime, asked: &Task) -> Result<Vec<Vec<u8>>, ProgramFault>
    ensures { IfOk result (λ files. length files.items ≡ files_of asked.now) }
{
    let mut files = Vec::new(rt.alloc());
    if let Some(path) = asked.path(0) {
        files.push(read_file(rt, asked, path)?)?;
    }
    if let Some(path) = asked.path(1) {
        files.push(read_file(rt, asked, path)?)?;
    }
    // The third file is the hierarchy of a run.
    if let Some(path) = asked.path(2) {
        files.push(read_start(rt, path)?)?;
    }
    Ok(files)
}

// The bytes of one of the first two files that the task reads. A hierarchy and a source are read no further than it takes to see
// that they are too long; a module and a world have no such limit.
fn read_file(rt: &HostRuntime, asked: &Task, path: &str) -> Result<Vec<u8>, ProgramFault> {
    match asked {
        Task::Check { .. } | Task::Build { .. } | Task::Explain { .. } => read_start(rt, path),
        Task::Run { .. } | Task::List { .. } => read_whole(rt, path),
    }
}

// What is read of the file of a text.
fn read_start(rt: &HostRuntime, path: &str) -> Result<Vec<u8>, ProgramFault> {
    let file = match fs::open(rt, path) {
        Ok(file) => file,
        Err(error) => return Err(no_file(rt, path, &error)?),
    };
    match read_text(rt.alloc(), &mut Feed::new(file)) {
        Ok(bytes) => Ok(bytes),
        Err(OrNoMemory::NoMemory) => Err(OrNoMemory::NoMemory),
        Err(OrNoMemory::Refused(SourceFault)) => Err(cannot_read(rt, path)?),
    }
}

// All bytes of a file.
fn read_whole(rt: &HostRuntime, path: &str) -> Result<Vec<u8>, ProgramFault> {
    match fs::read(rt, path) {
        Ok(bytes) => Ok(bytes),
        Err(error) => Err(no_file(rt, path, &error)?),
    }
}

// Why a file was not opened or not read: memory ran out, or it cannot be read.
fn no_file(rt: &HostRuntime, path: &str, error: &Error) -> Result<ProgramFault, AllocError> {
    if error.kind() == ErrorKind::OutOfMemory {
        return Ok(OrNoMemory::NoMemory);
    }
    cannot_read(rt, path)
}

// The refusal of a file that cannot be read.
fn cannot_read(rt: &HostRuntime, path: &str) -> Result<ProgramFault, AllocError> {
    let line = format!(in rt.alloc(); "flowc: {path}: cannot read\n")?;
    Ok(OrNoMemory::Refused(ProgramRefusal::File(line)))
}

// Makes these bytes the content of a file.
fn write(rt: &HostRuntime, path: &str, bytes: &[u8]) -> Result<(), ProgramFault> {
    match fs::write(rt, path, bytes) {
        Ok(()) => Ok(()),
        Err(_) => {
            let line = format!(in rt.alloc(); "flowc: {path}: cannot write\n")?;
            Err(OrNoMemory::Refused(ProgramRefusal::File(line)))
        }
    }
}

// Reports a fault on standard error, and answers the status that stands for it.
fn report(rt: &HostRuntime, fault: &ProgramFault) -> u8 {
    let (line, status) = match fault {
        OrNoMemory::NoMemory => ("flowc: no memory\n", 3),
        OrNoMemory::Refused(ProgramRefusal::Words(text)) => (text.as_str(), 2),
        OrNoMemory::Refused(ProgramRefusal::File(line)) => (line.as_str(), 3),
        OrNoMemory::Refused(ProgramRefusal::NoText) => {
            ("error: a word of the command line is not UTF-8\n", 2)
        }
    };
    // Where standard error fails too, nothing is left to report it on.
    let _ = write_all(&mut Device::new(rt.stderr()), line.as_bytes());
    status
}
