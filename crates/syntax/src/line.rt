use common::Connective;

/// A line of binary operators. Those of an earlier line bind tighter.
#[derive(Clone, Copy, Debug, PartialEq, Eq)]
pub enum Line {
    /// `*`, `/` and `%`
    Product,
    /// `+` and `-`
    Sum,
    /// `<<`, `>>` and `>>>`
    Shift,
    /// `<`, `<=`, `>` and `>=`
    Relation,
    /// `==` and `!=`
    Equality,
    /// `&`
    BitAnd,
    /// `^`
    BitXor,
    /// `|`
    BitOr,
    /// `&&`, and on another line `||`
    Connected(Connective),
}
