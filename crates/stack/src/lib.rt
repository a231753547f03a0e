//! The call stack of a run: how the slots and the operands of its open frames lie on one slab of cells, and its globals beside
//! them.
#![tactic(auto)]

pub mod globals;
pub mod point;
pub mod shape;
pub mod slab;

pub use globals::Globals;
pub use point::Point;
pub use shape::{CellRange, Shape, cells_of, count_of, repeat};
pub use slab::{
    FrameCall, IntsCall, Registers, ReturnState, SPARE_CELLS, SavedFrame, StackFrame, StackState,
    call_on, call_with_ints, give_back_on, give_back_to, leave_on, leave_to, operand_on, point_of,
    stack_state_of, top_on,
};
