//! A host of sessions: runs of modules that come as bytes, each on a world of its own, and what principals see of them.
#![tactic(auto)]

pub mod event;
pub mod fault;
pub mod hosts;
pub mod laws;
mod session;

pub use event::{Answer, Event, Id};
pub use fault::{HostFault, HostRefusal};
pub use hosts::{Host, MAX_SESSIONS};
