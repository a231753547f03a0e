//! What is wrong with bytes that spell no module.

/// What is wrong with bytes that spell no module.
#[derive(Clone, Copy, Debug, PartialEq, Eq, Drop)]
pub enum FormatRefusalKind {
    /// They do not begin with `FLOB`.
    Magic,
    /// They are of another version of the format.
    Version,
    /// They end inside a field or before it.
    Short,
    /// A byte, number or name has no meaning where it stands.
    BadValue,
    /// Pairs, policies or readers are out of order, or an owner is among the readers.
    NotCanonical,
    /// There are more bytes after the end of the module.
    Trailing,
}

/// A refusal, and where it stands, as how many bytes are left from there to the end.
#[derive(Clone, Copy, Debug)]
pub struct ReadRefusal {
    pub kind: FormatRefusalKind,
    pub left: usize,
}
