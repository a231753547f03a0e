//! Which two texts stand for a program, and why others do not: what a check has to decide. It holds
//! definitions, their laws, and the numbers and words by which kinds of refusal are reported.
#![tactic(auto)]

pub mod kind;
pub mod laws;

pub use kind::{RefusalKind, Text};
pub use lexer::LexRefusalKind;
pub use parser::ParseRefusalKind;
pub use principals::HierarchyRefusalKind;
pub use resolved::ExitRefusalKind;
pub use types::TypeRefusalKind;
