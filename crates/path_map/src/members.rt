//! How sets of exceptions are kept.
ghost use Rattle.path_map.specs.Kept.{IsSetInside};
ghost use Rattle.std.specs.Prelude.{◌<◌};

use labels::Row;
use std::alloc::Global;

// How a set is kept: a row takes memory, so there is one only where several exceptions came together.
#[derive(Drop)]
pub(crate) enum SetForm {
    Empty,
    Single(u32),
    Many(Row),
}

// A set of exceptions below a bound.
#[derive(Drop)]
pub(crate) struct ExceptionSet {
    pub(crate) alloc: Global,
    pub(crate) bound: u32,
    pub(crate) kept: SetForm,
    ghost inside: { IsSetInside bound kept },
    ghost short: { bound < 4294967296 },
}
