//! What the meaning of programs and the rules of labels imply, proved for all programs: laws of runs, confinement and isolation.
//! Each law is the contract of a function without parameters, which does nothing when it is called.
#![tactic(auto)]

pub mod confinement;
pub mod examples;
pub mod noninterference;
pub mod runs;
