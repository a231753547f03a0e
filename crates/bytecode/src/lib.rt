//! Reading and writing of module files: each module has one spelling as bytes.
#![tactic(auto)]

mod channels;
mod code;
mod decoding;
mod encoding;
pub mod fault;
mod globals;
mod hierarchy;
pub mod laws;
mod limit;
mod names;
mod procedures;
mod reading;
mod writing;

pub use decoding::decode;
pub use encoding::encode;
pub use fault::{FormatFault, FormatRefusal};
