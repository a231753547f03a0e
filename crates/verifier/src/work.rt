//! The offsets that are still to be looked at.

ghost use Rattle.std.specs.Prelude.{IfNone, IfOk, IfSome, OnOk, [], ◌++◌, ◌∷◌, ◌≡◌};
ghost use Rattle.verifier.specs.Work.{listed_at};

use std::alloc::{AllocError, Global};
use std::marker::Model;

/// An offset that has a list: the numbers of the instruction that begins there and of the list.
#[derive(Clone, Copy)]
pub(crate) struct ListedOffset {
    pub at: u32,
    pub number: u32,
    pub list: u32,
}

// The start, with the empty list.
const START: ListedOffset = ListedOffset {
    at: 0,
    number: 0,
    list: 0,
};

/// Offsets that wait with their lists, of which the one that came last goes first.
#[derive(Drop)]
pub(crate) struct Work {
    offsets: Vec<ListedOffset>,
}

impl Model for Work {
    ghost use Rattle.std.specs.Prelude.{List};
    ghost use Rattle.verifier.specs.declared.work.ListedOffset.{ListedOffset};

    ghost Value = { List ListedOffset };

    ghost view = { λ work. work.offsets.items };
}

impl Work {
    /// The start alone, which is the offset 0.
    pub(crate) fn new(alloc: Global) -> Result<Work, AllocError>
        ensures { IfOk result (λ work. work ≡ listed_at 0 0 0 ∷ []) }
    {
        let mut offsets = Vec::with_capacity(alloc, 16)?;
        offsets.push_reserved(START);
        Ok(Work { offsets })
    }

    /// The start alone again.
    pub(crate) fn restart(&mut self) -> Result<(), AllocError>
        ensures { OnOk result (self.new ≡ listed_at 0 0 0 ∷ []) }
    {
        self.offsets.clear();
        self.offsets.push(START)?;
        Ok(())
    }

    /// One more waits.
    pub(crate) fn push(&mut self, offset: ListedOffset) -> Result<(), AllocError>
        ensures { OnOk result (self.new ≡ self.old ++ offset ∷ []) }
    {
        self.offsets.push(offset)?;
        Ok(())
    }

    /// Takes the one that came last, if any waits.
    pub(crate) fn pop(&mut self) -> Option<ListedOffset>
        ensures some { IfSome result (λ offset. self.old ≡ self.new ++ offset ∷ []) }
        ensures none { IfNone result (self.old ≡ []) }
        ensures empty { IfNone result (self.new ≡ []) }
    {
        self.offsets.pop()
    }
}
