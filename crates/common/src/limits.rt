//! The limits of texts, programs and modules. Each stands here alone: the code tests it, and the definitions cite it.

/// How many bytes a text has at most: a hierarchy, a source, or a name.
pub const MAX_TEXT: usize = 1_048_576;

/// The greatest integer.
pub const MAX_INTEGER: u32 = 2_147_483_647;

/// How many levels of a source are open at a time at most.
pub const MAX_LEVELS: u32 = 64;

/// How many principals a hierarchy has at most.
pub const MAX_PRINCIPALS: u32 = 256;

/// How many elements an array has at most.
pub const MAX_ELEMENTS: u32 = 65_536;

/// How many cells the globals have at most, all together, and how many the parameters and locals of a procedure.
pub const MAX_CELLS: u32 = 1_048_576;

/// How many frames a run has at most at a time.
pub const MAX_FRAMES: u32 = 512;
