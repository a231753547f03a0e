//! The program `rows`: does what the rows of data files ask for, and reports each row whose answer is not the one that it wants.
#![tactic(auto)]

mod answer;
mod book;
mod changes;
mod commands;
mod counts;
mod events;
mod fault;
mod line;
mod sessions;
mod texts;
mod tokens;

use crate::book::Book;
use crate::counts::Counts;
use crate::fault::{LineFault, LineRefusal};
use channels::{Device, write_all};
use common::OrNoMemory;
use std::process::ExitCode;
use std::{env, fs};

fn main(rt: HostRuntime) -> ExitCode {
    let counts = read_files(&rt);
    match print_counts(&rt, "all", counts) {
        Ok(()) => ExitCode::from(counts.status()),
        Err(_) => ExitCode::from(2),
    }
}

// Reads each data file that an argument names. Without one there is no row, which is a fault.
fn read_files(rt: &HostRuntime) -> Counts {
    let mut all = Counts::new();
    let Ok(words) = env::args(rt) else {
        return all;
    };
    for path in words.skip(1) {
        match read_file(rt, &path) {
            Ok(counts) => all = all.and(counts),
            Err(_) => all = all.and_fault(),
        }
    }
    all
}

// Reads a data file, and prints what it comes to.
fn read_file(rt: &HostRuntime, path: &str) -> Result<Counts, LineFault> {
    let Ok(text) = fs::read_to_string(rt, path) else {
        print(rt, path.as_bytes())?;
        print(rt, b": cannot read\n")?;
        return Err(OrNoMemory::Refused(LineRefusal::NO_FILE));
    };
    let book = Book::read(rt, path, &text)?;
    print(rt, book.report())?;
    let counts = book.counts();
    print_counts(rt, path, counts)?;
    Ok(counts)
}

fn print_counts(rt: &HostRuntime, of: &str, counts: Counts) -> Result<(), LineFault> {
    let Counts {
        rows,
        differ,
        faults,
    } = counts;
    let line = format!(in rt.alloc(); "{of}: {rows} rows, {differ} differ, {faults} faults\n")?;
    print(rt, line.as_bytes())
}

fn print(rt: &HostRuntime, bytes: &[u8]) -> Result<(), LineFault> {
    match write_all(&mut Device::new(rt.stdout()), bytes) {
        Ok(()) => Ok(()),
        Err(_) => Err(OrNoMemory::Refused(LineRefusal::NO_FILE)),
    }
}
