//! Rows that ask the program `flowc` for something.

ghost use Rattle.flowc.specs.Task.{files_of};
ghost use Rattle.std.specs.Prelude.{◌≡◌, IfOk, length};

use crate::answer::{write_lines, write_status};
use crate::fault::LineFault;
use crate::line::words_of;
use crate::texts::Texts;
use channels::Device;
use common::OrNoMemory;
use flowc::{Done, Task, TaskFault, perform, task};
use std::alloc::Global;

/// Answers a command line, whose files are texts. The bytes that it leaves for a file become the text of that name.
pub fn answer_command(
    texts: &mut Texts,
    line: &str,
    answer: &mut Vec<u8>,
) -> Result<(), LineFault> {
    let alloc = texts.alloc();
    match task_of(alloc, line)? {
        Ok(asked) => answer_task(texts, &asked, answer),
        Err(OrNoMemory::NoMemory) => Err(OrNoMemory::NoMemory),
        Err(OrNoMemory::Refused(refusal)) => {
            write_status(alloc, answer, 2)?;
            write_lines(answer, b'!', refusal.text.as_bytes())
        }
    }
}

fn task_of(alloc: Global, line: &str) -> Result<Result<Task, TaskFault>, LineFault> {
    let words = words_of(alloc, line)?;
    Ok(task(alloc, &words))
}

fn answer_task(texts: &mut Texts, asked: &Task, answer: &mut Vec<u8>) -> Result<(), LineFault> {
    let files = copy_texts(texts, asked)?;
    let outcome = answer_files(texts.alloc(), asked, &files, answer)?;
    keep(texts, asked, outcome)
}

// The texts that stand in for the files that the task reads, at most three, in the order in which it names them.
fn copy_texts(texts: &Texts, asked: &Task) -> Result<Vec<Vec<u8>>, LineFault>
    ensures { IfOk result (λ files. length files.items ≡ files_of asked.now) }
{
    let mut files = Vec::new(texts.alloc());
    if let Some(name) = asked.path(0) {
        files.push(texts.copy(name)?)?;
    }
    if let Some(name) = asked.path(1) {
        files.push(texts.copy(name)?)?;
    }
    if let Some(name) = asked.path(2) {
        files.push(texts.copy(name)?)?;
    }
    Ok(files)
}

// Does the task, and writes what went to standard output and standard error.
fn answer_files(
    alloc: Global,
    asked: &Task,
    files: &[Vec<u8>],
    answer: &mut Vec<u8>,
) -> Result<Done, LineFault>
    requires files { length files.now ≡ files_of asked.now }
{
    let mut out = Device::new(Vec::new(alloc));
    let mut err = Device::new(Vec::new(alloc));
    let outcome = perform(alloc, asked, files, &mut out, &mut err);
    write_status(alloc, answer, outcome.status)?;
    write_lines(answer, b'>', &out.into_inner())?;
    write_lines(answer, b'!', &err.into_inner())?;
    Ok(outcome)
}

// A module becomes a text. Where a build makes none, no text has the name.
fn keep(texts: &mut Texts, asked: &Task, outcome: Done) -> Result<(), LineFault> {
    let Task::Build { out, .. } = asked else {
        return Ok(());
    };
    let Done { code, .. } = outcome;
    match code {
        Some(code) => texts.put(out, code),
        None => {
            texts.forget(out);
            Ok(())
        }
    }
}
