//! The verifier of modules: no step of any run of a verified module lacks a transition.
#![tactic(auto)]

mod body;
mod coverage;
mod effects;
mod ends;
pub mod fault;
mod fixed;
mod index;
pub mod loading;
mod looking;
mod message;
mod numbers;
mod operands;
mod parameters;
mod positions;
pub mod safety;
mod search;
pub mod verified;
mod work;

pub use fault::{CodeRefusal, CodeRefusalKind, VerifyFault};
pub use index::Index;
pub use loading::{LoadFault, LoadRefusal, load};
pub use verified::{Verified, verify};
