//! The lines that make texts.

use crate::fault::{LineFault, LineRefusal};
use crate::line::{bytes_of, cut_word, place_of};
use crate::texts::Texts;
use common::OrNoMemory;
use std::alloc::Global;
use std::fs;
use std::io::ErrorKind;

/// Makes a text, or changes the newest one, as a line asks.
pub fn change(
    rt: &HostRuntime,
    texts: &mut Texts,
    word: &str,
    rest: &str,
) -> Result<(), LineFault> {
    let alloc = texts.alloc();
    match word {
        "text" => texts.put(rest, Vec::new(alloc)),
        "like" => put_copy(texts, rest),
        "file" => put_file(rt, texts, rest),
        "&" => add_text(texts, rest),
        "|" => add_line(texts.newest()?, rest),
        "+" => add(texts.newest()?, rest.as_bytes()),
        "*" => add_times(texts.newest()?, rest),
        "%" => add_hex(alloc, texts.newest()?, rest),
        "at" => write_at(alloc, texts.newest()?, rest),
        "cut" => cut(texts.newest()?, rest),
        "swap" => swap(alloc, texts, rest),
        _ => Err(OrNoMemory::Refused(LineRefusal::UNKNOWN_WORD)),
    }
}

fn add(bytes: &mut Vec<u8>, more: &[u8]) -> Result<(), LineFault> {
    bytes.extend_from_slice(more)?;
    Ok(())
}

fn add_line(bytes: &mut Vec<u8>, line: &str) -> Result<(), LineFault> {
    add(bytes, line.as_bytes())?;
    add(bytes, b"\n")
}

// `like NAME OTHER`: a text like another one.
fn put_copy(texts: &mut Texts, rest: &str) -> Result<(), LineFault> {
    let (name, other) = cut_word(rest);
    let copy = texts.copy(other)?;
    texts.put(name, copy)
}

// `file NAME PATH`: what is in a file.
fn put_file(rt: &HostRuntime, texts: &mut Texts, rest: &str) -> Result<(), LineFault> {
    let (name, path) = cut_word(rest);
    match fs::read(rt, path) {
        Ok(bytes) => texts.put(name, bytes),
        Err(error) if error.kind() == ErrorKind::OutOfMemory => Err(OrNoMemory::NoMemory),
        Err(_) => Err(OrNoMemory::Refused(LineRefusal::NO_FILE)),
    }
}

// `& NAME`: another text. `& NAME FROM TO`: its bytes from one offset up to another.
fn add_text(texts: &mut Texts, rest: &str) -> Result<(), LineFault> {
    let (name, range) = cut_word(rest);
    let copy = texts.copy(name)?;
    if range.is_empty() {
        return add(texts.newest()?, &copy);
    }
    let (first, last) = cut_word(range);
    add(
        texts.newest()?,
        part(&copy, place_of(first)?, place_of(last)?)?,
    )
}

// The bytes from one offset up to another.
fn part(bytes: &[u8], from: usize, to: usize) -> Result<&[u8], LineFault> {
    if from > to || to > bytes.len() {
        return Err(OrNoMemory::Refused(LineRefusal::OUTSIDE));
    }
    Ok(&bytes[from..to])
}

// `* TIMES PIECE`: a piece, repeated.
fn add_times(bytes: &mut Vec<u8>, rest: &str) -> Result<(), LineFault> {
    let (times, piece) = cut_word(rest);
    for _ in 0..place_of(times)? {
        add(bytes, piece.as_bytes())?;
    }
    Ok(())
}

// `% HEX ..`: bytes.
fn add_hex(alloc: Global, bytes: &mut Vec<u8>, digits: &str) -> Result<(), LineFault> {
    let more = bytes_of(alloc, digits)?;
    add(bytes, &more)
}

// `at OFFSET HEX ..`: bytes in the place of those that stand there.
fn write_at(alloc: Global, bytes: &mut Vec<u8>, rest: &str) -> Result<(), LineFault> {
    let (offset, digits) = cut_word(rest);
    let offset = place_of(offset)?;
    let more = bytes_of(alloc, digits)?;
    overwrite(bytes, offset, &more)
}

fn overwrite(bytes: &mut [u8], offset: usize, more: &[u8]) -> Result<(), LineFault> {
    if offset > bytes.len() || more.len() > bytes.len() - offset {
        return Err(OrNoMemory::Refused(LineRefusal::OUTSIDE));
    }
    let end = offset + more.len();
    bytes[offset..end].copy_from_slice(more);
    Ok(())
}

// `cut LENGTH`: the first bytes alone.
fn cut(bytes: &mut Vec<u8>, rest: &str) -> Result<(), LineFault> {
    let length = place_of(rest)?;
    if length > bytes.len() {
        return Err(OrNoMemory::Refused(LineRefusal::OUTSIDE));
    }
    bytes.truncate(length);
    Ok(())
}

// `swap OLD => NEW`: a piece in the place of another one that stands in the text once.
fn swap(alloc: Global, texts: &mut Texts, rest: &str) -> Result<(), LineFault> {
    let Some((old, new)) = rest.split_once(" =>") else {
        return Err(OrNoMemory::Refused(LineRefusal::WRONG_FORM));
    };
    let new = new.strip_prefix(' ').unwrap_or("");
    let bytes = texts.newest()?;
    let swapped = swapped(alloc, bytes, old, new)?;
    *bytes = swapped;
    Ok(())
}

fn swapped(alloc: Global, bytes: &[u8], old: &str, new: &str) -> Result<Vec<u8>, LineFault> {
    let Ok(text) = str::from_utf8(bytes) else {
        return Err(OrNoMemory::Refused(LineRefusal::WRONG_FORM));
    };
    let Some((before, after)) = text.split_once(old) else {
        return Err(OrNoMemory::Refused(LineRefusal::NOT_ONCE));
    };
    if after.contains(old) {
        return Err(OrNoMemory::Refused(LineRefusal::NOT_ONCE));
    }
    let mut swapped = Vec::new(alloc);
    for piece in [before, new, after] {
        add(&mut swapped, piece.as_bytes())?;
    }
    Ok(swapped)
}
