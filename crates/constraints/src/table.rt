//! The parts of constraints that stand for the labels of a program.
ghost use Rattle.constraints.specs.LeftSides.{Written, part, part_of};
ghost use Rattle.constraints.specs.Rows.{IsRow, IsPartTable, label_among, written_atom};
ghost use Rattle.gathering.specs.Names.{real_unknowns, unknowns_before};
ghost use Rattle.resolved.specs.CoreOf.{program_of};
ghost use Rattle.resolved.specs.Labelled.{thrown_label};
ghost use Rattle.resolved.specs.Program.{channel_at, global_at, procedure_at};
ghost use Rattle.resolved.specs.declared.expression.Variable.TheVariants.{Local};
ghost use Rattle.resolved.specs.declared.target.Target.TheVariants.{ToLoop, ToParameter, ToVariable};
ghost use Rattle.std.specs.Prelude.{IfOk, slice_index_or, ◌≡◌};

use crate::building::{label_part, least_part, rows_of};
use crate::rows::{ProcedureLabels, ThrownLabel};
use resolved::expression::Variable;
use resolved::program::Core;
use resolved::target::Target;
use solver::Atom;
use std::alloc::{AllocError, Global};

/// The labels of a program's tables. What is in no table, as no well-formed program asks for it, has the least label.
#[derive(Drop)]
pub struct Table<'a> {
    pub core: &'a Core,
    /// How many unknowns stand for labels that are not written.
    pub unknowns: u32,
    nothing: Atom,
    rows: Vec<ProcedureLabels>,
    outside: ProcedureLabels,
    ghost are: { IsPartTable core.now nothing rows.items outside },
    ghost count: { unknowns ≡ real_unknowns (program_of core.now) },
}

// What stands in a list under a number, or else this.
fn at(atoms: &[Atom], number: usize, default: Atom) -> Atom
    ensures { result ≡ slice_index_or atoms.now number default }
{
    match atoms.get(number) {
        None => default,
        Some(atom) => *atom,
    }
}

// A part that is written, or else this.
fn written_or(atom: Atom, default: Atom) -> Atom
    ensures { result ≡ written_atom atom default }
{
    match atom {
        Atom::Written(_) => atom,
        Atom::Unknown(_) => default,
    }
}

// The label of an exception among declared ones, or else this.
fn label_in(throws: &[ThrownLabel], exception: u32, default: Atom) -> Atom
    ensures { result ≡ label_among throws.now exception default }
{
    for thrown in throws {
        if exception == thrown.exception {
            return thrown.label;
        }
    }
    default
}

impl<'a> Table<'a> {
    /// The labels of this program.
    pub fn of(alloc: Global, core: &'a Core) -> Result<Table<'a>, AllocError>
        ensures { IfOk result (λ table. table.core.now ≡ core.now) }
    {
        let nothing = least_part(&core.labels);
        let (rows, unknowns) = rows_of(alloc, &core.labels, &core.procedures)?;
        let outside = ProcedureLabels {
            begin: nothing,
            end: nothing,
            value: nothing,
            slots: Vec::new(alloc),
            throws: Vec::new(alloc),
            loops: unknowns,
            loop_count: 0,
        };
        Ok(Table {
            core,
            unknowns,
            nothing,
            rows,
            outside,
        })
    }

    // The part of a channel's label.
    fn channel(&self, channel: u32) -> Atom
        ensures { part self.now.core.now.labels result
            ≡ Written (channel_at (program_of self.now.core.now) channel).label }
    {
        match self.core.channels.get(channel as usize) {
            None => self.nothing,
            Some(entry) => label_part(&self.core.labels, entry.label),
        }
    }

    // The part of a global's label.
    fn global(&self, variable: u32) -> Atom
        ensures { part self.now.core.now.labels result
            ≡ Written (global_at (program_of self.now.core.now) variable).label }
    {
        match self.core.globals.get(variable as usize) {
            None => self.nothing,
            Some(entry) => label_part(&self.core.labels, entry.label),
        }
    }

    // The row of a procedure.
    pub(crate) fn row(&self, procedure: u32) -> &ProcedureLabels
        ensures { IsRow self.now.core.now.labels
            (unknowns_before (program_of self.now.core.now) procedure)
            (procedure_at (program_of self.now.core.now) procedure) result.now }
    {
        match self.rows.get(procedure as usize) {
            None => &self.outside,
            Some(row) => row,
        }
    }

    // The part of the label of a slot.
    fn slot(&self, procedure: u32, slot: u32) -> Atom
        ensures { part self.now.core.now.labels result
            ≡ part_of (program_of self.now.core.now) (ToVariable procedure (Local slot)) }
    {
        at(&self.row(procedure).slots, slot as usize, self.nothing)
    }

    // The part of the label of a loop.
    fn loop_atom(&self, procedure: u32, number: u32) -> Atom
        ensures { part self.now.core.now.labels result
            ≡ part_of (program_of self.now.core.now) (ToLoop procedure number) }
    {
        let row = self.row(procedure);
        if number < row.loop_count {
            return Atom::Unknown(row.loops + number);
        }
        self.nothing
    }

    // The part of the label of a parameter.
    fn parameter(&self, procedure: u32, parameter: usize) -> Atom
        ensures { part self.now.core.now.labels result
            ≡ part_of (program_of self.now.core.now) (ToParameter procedure parameter) }
    {
        written_or(
            at(&self.row(procedure).slots, parameter, self.nothing),
            self.nothing,
        )
    }

    // The part of the label of an exception that a procedure declares.
    fn thrown_label(&self, procedure: u32, exception: u32) -> Atom
        ensures { part self.now.core.now.labels result
            ≡ Written (thrown_label (procedure_at (program_of self.now.core.now) procedure).throws
            exception) }
    {
        label_in(&self.row(procedure).throws, exception, self.nothing)
    }

    /// The part of the label of what a rule names. Where it is known what that is, only its part is looked for.
    #[inline(always)]
    pub fn part(&self, target: Target) -> Atom
        ensures { part self.now.core.now.labels result
            ≡ part_of (program_of self.now.core.now) target }
    {
        match target {
            Target::ToVariable(_, Variable::Global(variable)) => self.global(variable),
            Target::ToVariable(procedure, Variable::Local(slot)) => self.slot(procedure, slot),
            Target::ToChannel(channel) => self.channel(channel),
            Target::ToBegin(procedure) => self.row(procedure).begin,
            Target::ToParameter(procedure, parameter) => self.parameter(procedure, parameter),
            Target::ToValue(procedure) => self.row(procedure).value,
            Target::ToEnd(procedure) => self.row(procedure).end,
            Target::ToThrown(procedure, exception) => self.thrown_label(procedure, exception),
            Target::ToLoop(procedure, number) => self.loop_atom(procedure, number),
        }
    }
}
