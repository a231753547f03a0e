//! Tests of `lexer`, `principals`, `labels` and `solver`: what no row of the program `rows` reaches.
#![tactic(auto)]

#[cfg(test)]
mod hierarchies;
#[cfg(test)]
mod label_table;
#[cfg(test)]
mod labels_of;
#[cfg(test)]
mod rows;
#[cfg(test)]
mod solving;
#[cfg(test)]
mod texts;
