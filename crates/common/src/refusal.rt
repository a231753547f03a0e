//! A refusal at a byte of what was read.

ghost use Rattle.common.specs.Answers.{HasKind, IsCast};
ghost use Rattle.std.specs.Prelude.{Some};

use crate::fault::OrNoMemory;
use crate::message::Reported;
use std::error::Error;
use std::fmt;

/// Why an input is refused: what is wrong, and the byte at which it stands.
///
/// The kind is of the crate that refuses, and says by which number and words it is reported.
#[derive(Clone, Copy, Debug, PartialEq, Eq, Drop)]
pub struct RefusalAt<K> {
    pub kind: K,
    pub at: usize,
}

impl<K: Reported> fmt::Display for RefusalAt<K> {
    ghost output = { λ refusal. Some (K.contents refusal.kind).words };

    fn fmt<W: fmt::Write>(&self, f: &mut fmt::Formatter<W>) -> fmt::Result {
        write!(f, "{}", self.kind.words())
    }
}

impl<K: Reported + fmt::Debug + Drop> Error for RefusalAt<K> {}

impl<K> OrNoMemory<RefusalAt<K>> {
    /// The same fault with the caller's kind of refusal, at the same byte.
    pub fn cast_kind<L: From<K>>(self) -> OrNoMemory<RefusalAt<L>>
        ensures { IsCast (HasKind L.from_gives) self result }
    {
        match self {
            OrNoMemory::NoMemory => OrNoMemory::NoMemory,
            OrNoMemory::Refused(refusal) => OrNoMemory::Refused(RefusalAt {
                kind: L::from(refusal.kind),
                at: refusal.at,
            }),
        }
    }
}
