//! The exceptions that every program has, by their numbers and their names. The declared ones have the numbers after.

/// The number of the exception that a division by zero raises.
pub const ARITH: u32 = 0;

/// The number of the exception that an index out of range raises.
pub const BOUNDS: u32 = 1;

/// The number of the exception that is raised where an input has no further number.
pub const END: u32 = 2;

/// How many built-in exceptions there are.
pub const BUILT_IN: u32 = 3;

/// The name of `ARITH`.
pub const ARITH_NAME: &str = "Arith";

/// The name of `BOUNDS`.
pub const BOUNDS_NAME: &str = "Bounds";

/// The name of `END`.
pub const END_NAME: &str = "End";
