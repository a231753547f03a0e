//! The directions of channels.

/// Whether a program receives numbers from a channel or sends them on it.
#[derive(Clone, Copy, Debug, PartialEq, Eq)]
pub enum Direction {
    Input,
    Output,
}
