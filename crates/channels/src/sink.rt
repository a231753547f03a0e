ghost use Rattle.channels.specs.Sink.{AppendsPrefix, is_failure};
ghost use Rattle.std.specs.Io.KnownBytes.{Appends, WriteAppends};
ghost use Rattle.std.specs.Io.{WritesAtMost};
ghost use Rattle.std.specs.Prelude.{◌≡◌, ◌||◌, ℕ, Bool, IsErr, IsTrue, List, None, OnErr, OnOk, Option, false};

use std::io::Write;
use thiserror::Error;

/// A sink did not take what it was given.
#[derive(Clone, Copy, Debug, PartialEq, Eq, Error)]
#[error("cannot write")]
pub struct SinkFault;

/// Where bytes go: a file, a stream, or memory.
///
/// A sink has failed, and stays so, once a write answered a fault or took nothing of bytes that there were. Nothing else
/// makes it fail.
pub trait Sink {
    /// The bytes that the sink took so far, where they are known.
    ghost taken: { Self → Option (List ℕ) } = { λ _. None };

    /// Whether a write has failed so far.
    ghost has_failed: { Self → Bool };

    /// Takes a prefix of the bytes, and answers how many it took.
    fn write(&mut self, bytes: &[u8]) -> Result<usize, SinkFault>
        ensures bound { WritesAtMost result bytes.now }
        ensures taken { WriteAppends (taken self.old) (taken self.new) result bytes.now }
        ensures fails { has_failed self.new
            ≡ (has_failed self.old || is_failure result bytes.now) };

    /// Whether a write has failed so far.
    fn failed(&self) -> bool
        ensures { result ≡ has_failed self.now };
}

/// A sink over any writer. After its first failure it takes nothing more, so that what it took is
/// always a prefix of what it was given.
#[derive(Drop)]
pub struct Device<W> {
    writer: W,
    has_failed: bool,
}

impl<W: Write> Device<W> {
    /// A sink that has not failed, over a writer.
    pub fn new(writer: W) -> Self
        ensures taken { ⟦<Device<W> as Sink>⟧.taken result ≡ W.contents writer }
        ensures failed { ⟦<Device<W> as Sink>⟧.has_failed result ≡ false }
    {
        Device {
            writer,
            has_failed: false,
        }
    }

    /// The writer, with what it took.
    pub fn into_inner(self) -> W
        ensures { W.contents result ≡ ⟦<Device<W> as Sink>⟧.taken self }
    {
        let Device {
            writer,
            has_failed: _,
        } = self;
        writer
    }
}

impl<W: Write> Sink for Device<W> {
    ghost taken = { λ device. W.contents device.writer };

    ghost has_failed = { λ device. device.has_failed };

    fn write(&mut self, bytes: &[u8]) -> Result<usize, SinkFault>
        ensures bound { WritesAtMost result bytes.now }
        ensures taken { WriteAppends (⟦<Device<W> as Sink>⟧.taken self.old)
            (⟦<Device<W> as Sink>⟧.taken self.new) result bytes.now }
        ensures fails { ⟦<Device<W> as Sink>⟧.has_failed self.new
            ≡ (⟦<Device<W> as Sink>⟧.has_failed self.old || is_failure result bytes.now) }
        ensures stays { IsTrue (⟦<Device<W> as Sink>⟧.has_failed self.old) → IsErr result }
    {
        if self.has_failed {
            return Err(SinkFault);
        }
        match self.writer.write(bytes) {
            Ok(count) => {
                if count == 0 && !bytes.is_empty() {
                    self.has_failed = true;
                }
                Ok(count)
            }
            Err(_) => {
                self.has_failed = true;
                Err(SinkFault)
            }
        }
    }

    fn failed(&self) -> bool {
        self.has_failed
    }
}

/// Writes all of the bytes, in as many writes as the sink wants.
///
/// # Errors
///
/// A fault at the first write that fails; what the sink took then is a prefix of the bytes.
pub fn write_all<S: Sink>(sink: &mut S, bytes: &[u8]) -> Result<(), SinkFault>
    ensures accepted { OnOk result (Appends (S.taken sink.old) (S.taken sink.new) bytes.now) }
    ensures prefix { OnErr result (AppendsPrefix (S.taken sink.old) (S.taken sink.new) bytes.now) }
    ensures kept { OnOk result (S.has_failed sink.new ≡ S.has_failed sink.old) }
    ensures rejected { OnErr result (IsTrue (S.has_failed sink.new)) }
{
    let mut rest = bytes;
    while !rest.is_empty() {
        let count = sink.write(rest)?;
        if count == 0 {
            return Err(SinkFault);
        }
        rest = &rest[count..];
    }
    Ok(())
}
