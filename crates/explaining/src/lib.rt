//! Why labels are as they are: the least label of each local that is written without one, and the chain of a flow that is refused.
#![tactic(auto)]

pub mod flow;
pub mod labels_of_locals;
mod marks;
mod target_names;

pub use flow::write_flow;
pub use labels_of_locals::write_labels;
