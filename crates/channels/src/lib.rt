//! Where a run's numbers come from and go to: worlds and their text, sinks of bytes.
#![tactic(auto)]

pub mod kind;
mod message;
pub mod sent;
pub mod sink;
pub mod view;
pub mod world;
mod world_read;
mod world_table;
mod world_text;

pub use common::Pair;
pub use kind::{WorldFault, WorldRefusal, WorldRefusalKind};
pub use sent::Sent;
pub use sink::{Device, Sink, SinkFault, write_all};
pub use view::{ViewFault, pairs_for, pairs_for_under, write_view, write_view_under};
pub use world::{InputList, World};
