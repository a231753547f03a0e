//! Whole programs.
ghost use Rattle.resolved.specs.ProgramOf.{program_from};
ghost use Rattle.resolved.specs.WellFormed.{well_formed};
ghost use Rattle.std.specs.Prelude.{IsTrue};

use crate::tables::{Channel, GlobalVariable, Procedure};
use labels::LabelTable;
use principals::Hierarchy;

/// A resolved program: a well-formed tree with all names replaced by numbers, and its labels held once, in a table.
#[derive(Drop)]
pub struct Core {
    pub hierarchy: Hierarchy,
    /// The labels that are written in it, which its tables name by their numbers.
    pub labels: LabelTable,
    pub channels: Vec<Channel>,
    /// The names of the declared exceptions, from number 3 on.
    pub exceptions: Vec<String>,
    pub globals: Vec<GlobalVariable>,
    pub procedures: Vec<Procedure>,
    pub main: u32,
    pub ghost well_formed: { IsTrue (well_formed (program_from hierarchy labels channels.items
        exceptions.items globals.items procedures.items main)) },
}
