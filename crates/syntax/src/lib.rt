//! The syntax tree of a program, with the byte at which each node begins, and the grammar that says which tokens spell which tree.
#![tactic(auto)]

pub mod line;
pub mod program;
pub mod tree;

pub use line::Line;
pub use program::Program;
pub use tree::{
    BinaryOperator, Block, Call, Catch, Channel, Component, Constant, Element, Expression,
    GlobalValue, GlobalVariable, Item, Name, Parameter, Procedure, RightSide, Size, Statement,
    Thrown, WrittenLabel, WrittenResult,
};
