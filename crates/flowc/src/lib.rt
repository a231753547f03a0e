//! `flowc` as a library: the commands of the program, and what they do; and what a host needs of the crates below.
#![tactic(auto)]

mod ended;
mod explain;
mod fault;
pub mod laws;
mod list;
mod messages;
mod reading;
mod running;
mod sources;
mod tasks;
mod texts;

pub use acceptance::{
    ExitRefusalKind, HierarchyRefusalKind, LexRefusalKind, ParseRefusalKind, RefusalKind, Text,
    TypeRefusalKind,
};
pub use bytecode::{FormatFault, FormatRefusal, decode};
pub use channels::{
    Device, Pair, Sink, SinkFault, ViewFault, World, WorldFault, WorldRefusal, WorldRefusalKind,
};
pub use checker::{Checked, Fault, Refusal, RefusedFlow, check_texts};
pub use command_line::{DEFAULT_STEPS, MAX_STEPS, Task, TaskFault, TaskRefusal, task};
pub use common::{Message, OrNoMemory, Reported};
pub use compiler::compile;
pub use host::{Answer, Event, Host, HostFault, HostRefusal, Id, MAX_SESSIONS};
pub use lexer::Place;
pub use machine::{NewFault, NewRefusal, Status};
pub use modules::{FormatRefusalKind, Module};
pub use sources::{Feed, ReadFault, Source, SourceFault, read_text};
pub use tasks::{Done, perform};
pub use verifier::{
    CodeRefusal, CodeRefusalKind, LoadFault, LoadRefusal, Verified, VerifyFault, load, verify,
};
