ghost use Rattle.modules.specs.Values.{kind_of_slot};
ghost use Rattle.std.specs.Prelude.{◌≡◌};

use common::BaseType;

/// A slot of a frame: a value, or an array of the given number of elements, at least one.
#[derive(Clone, Copy, Debug, PartialEq, Eq)]
pub enum Slot {
    Scalar(BaseType),
    Array(BaseType, u32),
}

impl Slot {
    /// The kind of the slot's values.
    pub fn kind(self) -> BaseType
        ensures { result ≡ kind_of_slot self }
    {
        match self {
            Slot::Scalar(kind) | Slot::Array(kind, _) => kind,
        }
    }
}

/// A global: a value with the one that it starts with, or an array of the given number of elements, at least one, which
/// starts with 0 or `false` in each.
#[derive(Clone, Copy, Debug, PartialEq, Eq)]
pub enum Global {
    Int(i32),
    Boolean(bool),
    Array(BaseType, u32),
}

/// An entry of a procedure's handler table: an exception that an instruction raises at an offset from `start` on and before
/// `end` goes on at `target`. All three are byte offsets of the procedure's code.
#[derive(Clone, Copy, Debug, PartialEq, Eq)]
pub struct Handler {
    pub start: u32,
    pub end: u32,
    pub exception: u32,
    pub target: u32,
}
