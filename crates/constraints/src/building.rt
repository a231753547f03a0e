//! How the table of a program's labels is built.
ghost use Rattle.constraints.specs.LeftSides.{Written, left_parts, part};
ghost use Rattle.constraints.specs.Rows.{AreProcedureRows, IsRow, slot_parts, thrown_parts, written_part};
ghost use Rattle.constraints.specs.declared.rows.ThrownLabel.{ThrownLabel};
ghost use Rattle.gathering.specs.Names.{own_unknowns};
ghost use Rattle.labels.specs.LabelTable.{label_at};
ghost use Rattle.path_map.specs.Exceptions.{exceptions_of};
ghost use Rattle.resolved.specs.Labelled.{result_label};
ghost use Rattle.resolved.specs.Program.{ThrownEntry};
ghost use Rattle.resolved.specs.ProgramOf.{procedure_entry, result_entry, slot_entry, thrown_entry};
ghost use Rattle.std.specs.Prelude.{IfOk, [], length, map, sum_by, ◌+◌, ◌<◌, ◌^◌, ◌≡◌};

use crate::rows::{ProcedureLabels, ThrownLabel};
use gathering::unknowns::first_after;
use labels::LabelTable;
use resolved::tables::{Procedure, ResultType, Slot, Thrown};
use solver::Atom;
use std::alloc::{AllocError, Global};

// The part of the least label.
pub(crate) fn least_part(labels: &LabelTable) -> Atom
    ensures { part labels.now result ≡ Written [] }
{
    // It gives that the table has the least label under number 0.
    let _count = labels.len();
    Atom::Written(0)
}

// The part of the label with this number, which is the least one where there is none.
pub(crate) fn label_part(labels: &LabelTable, number: u32) -> Atom
    ensures { part labels.now result ≡ Written (label_at labels.now number) }
{
    if number as usize >= labels.len() {
        return least_part(labels);
    }
    Atom::Written(number)
}

// The part of a slot's label, which is the unknown with this number if it is not written.
fn slot_part(labels: &LabelTable, slot: &Slot, number: u32) -> Atom
    ensures { part labels.now result
        ≡ written_part (slot_entry labels.now slot.now).written number }
{
    match slot.written {
        None => Atom::Unknown(number),
        Some(label) => label_part(labels, label),
    }
}

// The parts of the labels of slots, of which the first is the unknown with this number if its label is not written.
fn slot_parts(
    alloc: Global,
    labels: &LabelTable,
    slots: &[Slot],
    first: u32,
) -> Result<Vec<Atom>, AllocError>
    requires { first + length slots.now < 2 ^ 32 }
    ensures { IfOk result (λ atoms. left_parts labels.now atoms.items
        ≡ slot_parts first (map (slot_entry labels.now) slots.now)) }
{
    let mut atoms = Vec::with_capacity(alloc, slots.len())?;
    for (i, slot) in slots.iter().enumerate() {
        atoms.push(slot_part(labels, slot, first + i as u32))?;
    }
    Ok(atoms)
}

// The parts of the labels of declared exceptions.
fn thrown_labels(
    alloc: Global,
    labels: &LabelTable,
    throws: &[Thrown],
) -> Result<Vec<ThrownLabel>, AllocError>
    ensures exceptions { IfOk result (λ found.
        map (λ (thrown : ThrownLabel). thrown.exception) found.items ≡ exceptions_of throws.now) }
    ensures meaning { IfOk result (λ found. thrown_parts labels.now found.items
        ≡ map (λ (entry : ThrownEntry). Written entry.label)
        (map (thrown_entry labels.now) throws.now)) }
{
    let mut found = Vec::with_capacity(alloc, throws.len())?;
    for thrown in throws {
        found.push(ThrownLabel {
            exception: thrown.exception,
            label: label_part(labels, thrown.label),
        })?;
    }
    Ok(found)
}

// The part of the label of a procedure's value, which is empty for one without a value.
fn value_part(labels: &LabelTable, value: &Option<ResultType>) -> Atom
    ensures { part labels.now result
        ≡ Written (result_label (result_entry labels.now value.now)) }
{
    match value {
        None => least_part(labels),
        Some(value) => label_part(labels, value.label),
    }
}

// The row of a procedure whose first unknown has this number.
fn row_of(
    alloc: Global,
    labels: &LabelTable,
    procedure: &Procedure,
    first: u32,
) -> Result<ProcedureLabels, AllocError>
    requires { first + (length procedure.now.slots.items + procedure.now.loops) < 2 ^ 32 }
    ensures { IfOk result (IsRow labels.now first (procedure_entry labels.now procedure.now)) }
{
    Ok(ProcedureLabels {
        begin: label_part(labels, procedure.begin_label),
        end: label_part(labels, procedure.end_label),
        value: value_part(labels, &procedure.result),
        slots: slot_parts(alloc, labels, &procedure.slots, first)?,
        throws: thrown_labels(alloc, labels, &procedure.throws)?,
        loops: first + procedure.slots.len() as u32,
        loop_count: procedure.loops,
    })
}

// The rows of procedures, and how many unknowns they have.
pub(crate) fn rows_of(
    alloc: Global,
    labels: &LabelTable,
    procedures: &[Procedure],
) -> Result<(Vec<ProcedureLabels>, u32), AllocError>
    requires { sum_by own_unknowns (map (procedure_entry labels.now) procedures.now) < 2 ^ 32 }
    ensures rows { IfOk result (λ found. AreProcedureRows labels.now 0
        (map (procedure_entry labels.now) procedures.now) found.0.items) }
    ensures count { IfOk result (λ found. found.1
        ≡ sum_by own_unknowns (map (procedure_entry labels.now) procedures.now)) }
{
    let mut rows = Vec::with_capacity(alloc, procedures.len())?;
    let mut first = 0;
    for procedure in procedures {
        rows.push(row_of(alloc, labels, procedure, first)?)?;
        first = first_after(first, procedure);
    }
    Ok((rows, first))
}
