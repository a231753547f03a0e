//! Names of parameters and locals.

ghost use Rattle.std.specs.Prelude.{IfOk, ◌≡◌};

use smallvec::SmallVec;
use std::alloc::{AllocError, Global};
use std::marker::Model;
use std::str;

/// The name of a parameter or local. Up to 16 bytes lie in the slot itself: most names have no more.
#[derive(Drop)]
pub struct SlotName {
    bytes: SmallVec<u8, 16>,
}

impl Model for SlotName {
    ghost use Rattle.std.specs.Prelude.{IsUtf8, List, ℕ};

    ghost Value = { List ℕ };

    ghost view = { λ name. name.bytes.items };

    ghost invariant = { λ name. IsUtf8 name.bytes.items };
}

impl SlotName {
    /// This name.
    ///
    /// # Errors
    ///
    /// Out of memory.
    pub fn of(alloc: Global, name: &str) -> Result<SlotName, AllocError>
        ensures { IfOk result (λ made. made ≡ name.now) }
    {
        let bytes = SmallVec::from_slice(alloc, name.as_bytes())?;
        Ok(SlotName { bytes })
    }

    /// The name as a text.
    pub fn as_str(&self) -> &str
        ensures { result.now ≡ self.now }
    {
        let Ok(name) = str::from_utf8(self.bytes.as_slice()) else {
            unreachable!();
        };
        name
    }
}
