//! An accepted program with its least labels.
ghost use Rattle.checker.specs.Checked.{IsChecked, IsLabelOfLocal, IsLocalOf, least_value};
ghost use Rattle.gathering.specs.Names.{unknowns_before};
ghost use Rattle.labels.specs.LabelLattice.{label_lattice};
ghost use Rattle.resolved.specs.CoreOf.{program_of};
ghost use Rattle.solver.specs.Constraints.{AreAlike};
ghost use Rattle.std.specs.Prelude.{IfOk, IfSome, IsSome, length, ◌<◌, ◌≡◌, ◌↔◌};

use gathering::unknowns::first_after;
use labels::Label;
use resolved::program::Core;
use solver::{LabelsUnder, Solution};
use std::alloc::{AllocError, Global};
use std::marker::Model;

/// An accepted program, with the least labels of its locals and loops. A check alone makes one.
#[derive(Drop)]
pub struct Checked {
    core: Core,
    /// Which of the written labels reach those that are not written.
    solution: Solution,
}

impl Model for Checked {
    ghost use Rattle.checker.specs.Checked.{CheckedProgram, IsChecked};
    ghost use Rattle.resolved.specs.contracts.program.Core as program;
    ghost use Rattle.std.specs.Coded.{codes};

    ghost Value = { CheckedProgram };

    ghost coded = { Prim.hlevel (codes, program.the_row.coded) };

    ghost view = { λ checked. record { core = checked.core; solution = checked.solution } };

    ghost invariant = { λ checked. IsChecked (record {
      core = checked.core;
      solution = checked.solution;
    }) };
}

impl Checked {
    // The checked program of these parts.
    pub(crate) fn of(core: Core, solution: Solution) -> Checked
        requires { IsChecked (record { core = core; solution = solution }) }
        ensures parts { result ≡ record { core = core; solution = solution } }
        ensures checked { IsChecked result }
    {
        Checked { core, solution }
    }

    /// The program.
    pub fn core(&self) -> &Core
        ensures core { result.now ≡ self.now.core }
        ensures checked { IsChecked self.now }
    {
        &self.core
    }

    // The number of the first unknown of a procedure.
    fn first_unknown(&self, procedure: usize) -> u32
        ensures { result ≡ unknowns_before (program_of self.now.core) procedure }
    {
        let mut first = 0;
        for (number, entry) in self.core.procedures.iter().enumerate() {
            if number == procedure {
                return first;
            }
            first = first_after(first, entry);
        }
        first
    }

    /// The label of a local, by the numbers of its procedure and its own: the one that is written, or else its least label, exact up to
    /// flow both ways; `None` where the program has no such local. It counts the unknowns of all procedures before it.
    ///
    /// # Errors
    ///
    /// Memory ran out.
    pub fn label(
        &self,
        alloc: Global,
        procedure: u32,
        slot: u32,
    ) -> Result<Option<Label>, AllocError>
        ensures there { IfOk result (λ found.
            IsSome found ↔ IsLocalOf (program_of self.now.core) procedure slot) }
        ensures label { IfOk result (λ found.
            IfSome found (IsLabelOfLocal self.now procedure slot)) }
    {
        let Some(entry) = self.core.procedures.get(procedure as usize) else {
            return Ok(None);
        };
        let Some(local) = entry.slots.get(slot as usize) else {
            return Ok(None);
        };
        if let Some(written) = local.written {
            return Ok(Some(self.core.labels.label(alloc, written)?));
        }
        let first = self.first_unknown(procedure as usize);
        let least = self.label_of_unknown(alloc, first + slot)?;
        Ok(Some(least))
    }

    /// The least label of the local or the loop that is the unknown with this number: exact up to flow both ways. It goes through the
    /// row of the unknown in the solution alone.
    ///
    /// # Errors
    ///
    /// Memory ran out.
    pub fn label_of_unknown(&self, alloc: Global, unknown: u32) -> Result<Label, AllocError>
        ensures { IfOk result (AreAlike (label_lattice (program_of self.now.core).hierarchy)
            (least_value self.now unknown)) }
    {
        let written = LabelsUnder {
            hierarchy: &self.core.hierarchy,
            labels: &self.core.labels,
        };
        written.value(alloc, &self.solution, unknown)
    }
}
