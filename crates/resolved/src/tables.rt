//! The tables in which the numbers of a tree are looked up.

use crate::slot_name::SlotName;
use crate::statement::Statement;
use common::{BaseType, Direction, Value};

/// An input or an output.
#[derive(Drop)]
pub struct Channel {
    pub direction: Direction,
    pub name: String,
    /// The number of its label.
    pub label: u32,
}

/// A global: a scalar, or an array of `size` elements. Each of its cells holds `first` at first.
#[derive(Drop)]
pub struct GlobalVariable {
    pub name: String,
    pub base: BaseType,
    pub size: Option<u32>,
    /// The number of its label.
    pub label: u32,
    pub first: Value,
}

/// A parameter or a local: a scalar, or an array of `size` elements. A parameter has a written label.
#[derive(Drop)]
pub struct Slot {
    pub base: BaseType,
    pub size: Option<u32>,
    /// The number of the label that is written.
    pub written: Option<u32>,
    /// The byte at which its declaration begins.
    pub at: usize,
    pub name: SlotName,
}

/// The base type of a procedure's value, and its label.
#[derive(Drop)]
pub struct ResultType {
    pub base: BaseType,
    /// The number of its label.
    pub label: u32,
}

/// An exception that a procedure declares in `throws`, and its label.
#[derive(Drop)]
pub struct Thrown {
    pub exception: u32,
    /// The number of its label.
    pub label: u32,
}

/// A procedure. Its parameters are the first slots of its frame.
#[derive(Drop)]
pub struct Procedure {
    /// The byte at which its name begins.
    pub at: usize,
    pub name: String,
    pub result: Option<ResultType>,
    /// The numbers of its begin label and its end label.
    pub begin_label: u32,
    pub end_label: u32,
    pub throws: Vec<Thrown>,
    pub parameters: u32,
    pub slots: Vec<Slot>,
    /// How many loops its body has.
    pub loops: u32,
    pub body: Vec<Statement>,
}
