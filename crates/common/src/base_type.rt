//! The types of single values.

/// The type of a value without its label: of a variable, an operand or a cell.
#[derive(Clone, Copy, Debug, PartialEq, Eq)]
pub enum BaseType {
    Int,
    Boolean,
}
