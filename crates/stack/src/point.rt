//! Where instructions stand.

/// Where an instruction stands: in the code of which procedure, and at which byte offset there. A code has fewer than 2^32 bytes.
#[derive(Clone, Copy, Debug)]
pub struct Point {
    pub procedure: u32,
    pub offset: u32,
}
