//! The modules of the virtual machine: what a module is, the table of instructions, and the form
//! of the file that spells it.
#![tactic(auto)]

pub mod channel;
pub mod code;
pub mod contents;
pub mod declaration;
pub mod fault;
pub mod instruction;
pub mod laws;
mod message;
pub mod module;
pub mod opcode;
pub mod procedure;
pub mod version;

pub use channel::Channel;
pub use code::code_length;
pub use common::Value as Cell;
pub use contents::Contents;
pub use declaration::{Global, Handler, Slot};
pub use fault::FormatRefusalKind;
pub use instruction::{Instruction, MachineOperator, OperatorKinds, Storage};
pub use module::Module;
pub use procedure::Procedure;
pub use version::Version;
