//! Tests of `resolved`, `isolation`, `types`, `compiler`, `command_line` and `flowc`: what no row of the program `rows`
//! reaches.
#![tactic(auto)]

#[cfg(test)]
mod compilation;
#[cfg(test)]
mod hosting;
#[cfg(test)]
mod laws;
#[cfg(test)]
mod performing;
#[cfg(test)]
mod sources;
