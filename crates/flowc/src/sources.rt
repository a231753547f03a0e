//! Where texts are read from: sources of bytes, and what is read from one.

ghost use Rattle.common.specs.Answers.{IfRefused};
ghost use Rattle.common.specs.declared.limits.TheConstants.{MAX_TEXT};
ghost use Rattle.common.specs.declared.fault.OrNoMemory.TheVariants.{NoMemory};
ghost use Rattle.flowc.specs.Source.{GivesSome, IsTextOf, is_fault};
ghost use Rattle.std.specs.Io.KnownBytes.{Consumes, ReadConsumes};
ghost use Rattle.std.specs.Io.{ReadsAtMost};
ghost use Rattle.std.specs.Prelude.{◌≡◌, ◌+◌, ◌≤◌, ◌||◌, ℕ, Bool, IfErr, IfOk, IsErr, IsTrue, List, None, OnErr, OnOk, Option, false, length};

use common::OrNoMemory;
use common::limits::MAX_TEXT;
use std::alloc::Global;
use std::io::Read;
use thiserror::Error;

/// A source did not give what it was asked for.
#[derive(Clone, Copy, Debug, PartialEq, Eq, Error)]
#[error("cannot read")]
pub struct SourceFault;

/// Where bytes come from: a file, a stream, or memory.
///
/// A source has failed, and stays so, once a read answered a fault. Nothing else makes it fail: a read that gives no byte, into
/// room that there was, tells the end.
pub trait Source {
    /// The bytes that the source gives from here on, where they are known.
    ghost left: { Self → Option (List ℕ) } = { λ _. None };

    /// Whether a read has failed so far.
    ghost has_failed: { Self → Bool };

    /// Puts the next bytes at the front of the buffer, and answers how many: none at the end, or where there is no room.
    fn read(&mut self, buffer: &mut [u8]) -> Result<usize, SourceFault>
        ensures bound { ReadsAtMost result buffer.new }
        ensures bytes { ReadConsumes (left self.old) (left self.new) result buffer.new }
        ensures fails { has_failed self.new ≡ (has_failed self.old || is_fault result) };

    /// Whether a read has failed so far.
    fn failed(&self) -> bool
        ensures { result ≡ has_failed self.now };
}

/// A source over any reader. After its first failure it gives nothing more.
#[derive(Drop)]
pub struct Feed<R> {
    reader: R,
    has_failed: bool,
}

impl<R: Read> Feed<R> {
    /// A source that has not failed, over a reader.
    pub fn new(reader: R) -> Self
        ensures left { ⟦<Feed<R> as Source>⟧.left result ≡ R.remaining reader }
        ensures failed { ⟦<Feed<R> as Source>⟧.has_failed result ≡ false }
    {
        Feed {
            reader,
            has_failed: false,
        }
    }

    /// The reader, with what it has left.
    pub fn into_inner(self) -> R
        ensures { R.remaining result ≡ ⟦<Feed<R> as Source>⟧.left self }
    {
        let Feed {
            reader,
            has_failed: _,
        } = self;
        reader
    }
}

impl<R: Read> Source for Feed<R> {
    ghost left = { λ feed. R.remaining feed.reader };

    ghost has_failed = { λ feed. feed.has_failed };

    fn read(&mut self, buffer: &mut [u8]) -> Result<usize, SourceFault>
        ensures bound { ReadsAtMost result buffer.new }
        ensures bytes { ReadConsumes (⟦<Feed<R> as Source>⟧.left self.old)
            (⟦<Feed<R> as Source>⟧.left self.new) result buffer.new }
        ensures fails { ⟦<Feed<R> as Source>⟧.has_failed self.new
            ≡ (⟦<Feed<R> as Source>⟧.has_failed self.old || is_fault result) }
        ensures stays { IsTrue (⟦<Feed<R> as Source>⟧.has_failed self.old) → IsErr result }
    {
        if self.has_failed {
            return Err(SourceFault);
        }
        match self.reader.read(buffer) {
            Ok(count) => Ok(count),
            Err(_) => {
                self.has_failed = true;
                Err(SourceFault)
            }
        }
    }

    fn failed(&self) -> bool {
        self.has_failed
    }
}

/// Why a text was not read: memory ran out, or the source failed.
pub type ReadFault = OrNoMemory<SourceFault>;

impl From<SourceFault> for ReadFault {
    ghost use Rattle.common.specs.declared.fault.OrNoMemory.TheVariants.{Refused};

    ghost from_gives = { λ refusal fault. fault ≡ Refused refusal };

    fn from(refusal: SourceFault) -> ReadFault {
        OrNoMemory::Refused(refusal)
    }
}

// The bytes that are read of a text: one more than it may have, so that one that is too long is seen.
const MOST: usize = MAX_TEXT + 1;

// The bytes that one read asks for.
const CHUNK: usize = 16 * 1024;

/// The bytes of a source up to its end, or the first 1,048,577 of them: one more than a text may have, so that who is given them
/// sees that there are too many. Memory grows by what was read.
///
/// # Errors
///
/// The fault of the source at the first read that fails, or out of memory. What was read until then is dropped.
pub fn read_text<R: Source>(alloc: Global, source: &mut R) -> Result<Vec<u8>, ReadFault>
    ensures text { IfOk result (λ text. IsTextOf (R.left source.old) text.items) }
    ensures bound { IfOk result (λ text. length text.items ≤ MAX_TEXT + 1) }
    ensures rest { IfOk result (λ text. Consumes (R.left source.old) (R.left source.new)
        text.items) }
    ensures prefix { OnErr result (GivesSome (R.left source.old) (R.left source.new)) }
    ensures kept { OnOk result (R.has_failed source.new ≡ R.has_failed source.old) }
    ensures rejected { IfErr result (IfRefused (λ _. IsTrue (R.has_failed source.new))) }
    ensures unfailed { IfErr result (λ fault. fault ≡ NoMemory →
        R.has_failed source.new ≡ R.has_failed source.old) }
{
    let mut text = Vec::new(alloc);
    let mut chunk = [0; CHUNK];
    while text.len() < MOST {
        let room = CHUNK.min(MOST - text.len());
        let count = source.read(&mut chunk[..room])?;
        if count == 0 {
            break;
        }
        text.extend_from_slice(&chunk[..count])?;
    }
    Ok(text)
}
