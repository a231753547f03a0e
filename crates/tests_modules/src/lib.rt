//! Tests of `modules`, `bytecode`, `channels`, `listing`, `verifier`, `machine` and `host`: what no row of the program `rows` reaches.
#![tactic(auto)]

#[cfg(test)]
mod faults;
#[cfg(test)]
mod files;
#[cfg(test)]
mod hosts;
#[cfg(test)]
mod printed;
#[cfg(test)]
mod runs;
#[cfg(test)]
mod sinks;
