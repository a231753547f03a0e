//! What a rule of labels names.

use crate::expression::Variable;

/// What stands on the right side of a demand of the label rules, each in a procedure by the number of that.
#[derive(Clone, Copy, Debug, PartialEq, Eq)]
pub enum Target {
    ToVariable(u32, Variable),
    ToChannel(u32),
    ToBegin(u32),
    /// A parameter, by the number of its procedure and its own.
    ToParameter(u32, usize),
    ToValue(u32),
    ToEnd(u32),
    /// The label of an exception that a procedure declares.
    ToThrown(u32, u32),
    ToLoop(u32, u32),
}
