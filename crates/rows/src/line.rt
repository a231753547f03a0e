//! The words of a line.

use crate::fault::{LineFault, LineRefusal};
use common::OrNoMemory;
use hex::FromHexError;
use std::alloc::Global;

/// The first word of a line, and what stands after the space that follows it.
pub fn cut_word(line: &str) -> (&str, &str) {
    match line.split_once(' ') {
        Some(split) => split,
        None => (line, ""),
    }
}

/// The words of a line, parted by single spaces. The word `''` is the empty one.
pub fn words_of(alloc: Global, line: &str) -> Result<Vec<&str>, LineFault> {
    let mut words = Vec::new(alloc);
    for word in line.split(' ') {
        words.push(if word == "''" { "" } else { word })?;
    }
    Ok(words)
}

/// The number that a word writes.
pub fn number_of(word: &str) -> Result<u64, LineFault> {
    match word.parse::<u64>() {
        Ok(number) => Ok(number),
        Err(_) => Err(OrNoMemory::Refused(LineRefusal::WRONG_FORM)),
    }
}

/// The same for a length or an offset in a text.
pub fn place_of(word: &str) -> Result<usize, LineFault> {
    match word.parse::<usize>() {
        Ok(number) => Ok(number),
        Err(_) => Err(OrNoMemory::Refused(LineRefusal::WRONG_FORM)),
    }
}

/// The bytes that words of hexadecimal digits write.
pub fn bytes_of(alloc: Global, digits: &str) -> Result<Vec<u8>, LineFault> {
    let mut bytes = Vec::new(alloc);
    for word in digits.split(' ') {
        add_hex(alloc, &mut bytes, word)?;
    }
    Ok(bytes)
}

fn add_hex(alloc: Global, bytes: &mut Vec<u8>, word: &str) -> Result<(), LineFault> {
    match hex::decode(alloc, word) {
        Ok(more) => Ok(bytes.extend_from_slice(&more)?),
        Err(FromHexError::OutOfMemory) => Err(OrNoMemory::NoMemory),
        Err(_) => Err(OrNoMemory::Refused(LineRefusal::WRONG_FORM)),
    }
}
