//! What several crates share, and what knows none of them: base types, values, operators, the directions of channels, what was
//! sent on one, limits, the built-in exceptions, and the shape of faults and of refusals.
#![tactic(auto)]

pub mod base_type;
pub mod direction;
pub mod exceptions;
pub mod fault;
pub mod laws;
pub mod limits;
pub mod message;
pub mod operator;
pub mod refusal;
pub mod sent;
pub mod value;
pub mod version;

pub use base_type::BaseType;
pub use direction::Direction;
pub use fault::OrNoMemory;
pub use message::{Message, Reported};
pub use operator::{
    Arithmetic, BitOperator, Comparison, Connective, Operator, Order, Prefix, Sameness,
};
pub use refusal::RefusalAt;
pub use sent::Pair;
pub use value::Value;
pub use version::VERSION;
