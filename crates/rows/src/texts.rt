//! The texts of a data file, by their names.

use crate::fault::{LineFault, LineRefusal};
use common::OrNoMemory;
use std::alloc::Global;

#[derive(Drop)]
struct NamedText {
    name: String,
    bytes: Vec<u8>,
}

/// The texts that have been named so far, each name once. The newest is the last.
#[derive(Drop)]
pub struct Texts {
    texts: Vec<NamedText>,
    alloc: Global,
}

impl Texts {
    pub fn new(alloc: Global) -> Texts {
        Texts {
            texts: Vec::new(alloc),
            alloc,
        }
    }

    pub fn alloc(&self) -> Global {
        self.alloc
    }

    /// The bytes of the text with a name.
    pub fn get(&self, name: &str) -> Result<&[u8], LineFault> {
        match self.texts.iter().find(|text| text.name.as_str() == name) {
            Some(text) => Ok(text.bytes.as_slice()),
            None => Err(OrNoMemory::Refused(LineRefusal::NO_TEXT)),
        }
    }

    /// A copy of the bytes of the text with a name.
    pub fn copy(&self, name: &str) -> Result<Vec<u8>, LineFault> {
        Ok(Vec::from_slice(self.alloc, self.get(name)?)?)
    }

    /// The bytes of the newest text.
    pub fn newest(&mut self) -> Result<&mut Vec<u8>, LineFault> {
        match self.texts.last_mut() {
            Some(text) => Ok(&mut text.bytes),
            None => Err(OrNoMemory::Refused(LineRefusal::NO_TEXT)),
        }
    }

    /// Forgets the text with a name.
    pub fn forget(&mut self, name: &str) {
        self.texts.retain(|text| text.name.as_str() != name);
    }

    /// Makes the bytes the text with a name, in place of the one that had it.
    pub fn put(&mut self, name: &str, bytes: Vec<u8>) -> Result<(), LineFault> {
        self.forget(name);
        let name = String::from_str(self.alloc, name)?;
        self.texts.push(NamedText { name, bytes })?;
        Ok(())
    }
}
