//! The least labels of locals, as lines.

ghost use Rattle.common.specs.Answers.{IfRefused};
ghost use Rattle.explaining.specs.ByLocals.{AreLinesBy, IsLineBy};
ghost use Rattle.explaining.specs.Locals.{WritesLabels, WritesSomeLabels, if_unlabelled, local_of, locals_in};
ghost use Rattle.explaining.specs.Text.{Writes, WritesPrefix};
ghost use Rattle.gathering.specs.Names.{unknowns_before};
ghost use Rattle.resolved.specs.CoreOf.{program_of};
ghost use Rattle.resolved.specs.ProgramOf.{slot_entry};
ghost use Rattle.std.specs.Prelude.{IfErr, IfOk, IsTrue, OnErr, OnOk, length, map, ◌+◌, ◌<◌, ◌^◌, ◌≡◌};
ghost use Rattle.std.specs.String.{string_bytes};

use crate::marks::MarkedText;
use channels::{Sink, ViewFault, write_all};
use checker::Checked;
use gathering::unknowns::first_after;
use labels::PrintedLabel;
use lexer::Place;
use resolved::tables::Slot;
use std::alloc::{AllocError, Global};

/// Writes the least label of each local of an accepted program that is written without one, in the order of the source: a line with
/// the place of its declaration, its name and the label.
///
/// # Errors
///
/// The fault of the sink where that failed, or out of memory. What went out then is a prefix of such a text.
pub fn write_labels<O: Sink>(
    alloc: Global,
    checked: &Checked,
    source: &[u8],
    out: &mut O,
) -> Result<(), ViewFault>
    ensures accepted { OnOk result (WritesLabels checked.now source.now
        (O.taken out.old) (O.taken out.new)) }
    ensures prefix { OnErr result (WritesSomeLabels checked.now source.now
        (O.taken out.old) (O.taken out.new)) }
    ensures rejected { IfErr result (IfRefused (λ _. IsTrue (O.has_failed out.new))) }
{
    let marked = MarkedText::of(alloc, source)?;
    let core = checked.core();
    let mut first = 0;
    for (number, procedure) in core.procedures.iter().enumerate() {
        let slots = procedure.slots.as_slice();
        let locals = Locals {
            checked,
            marked: &marked,
            procedure: number,
            first,
        };
        locals.write_all(alloc, slots, out)?;
        first = first_after(first, procedure);
    }
    Ok(())
}

// The locals of a procedure, by its number and that of its first unknown. These are counted from procedure to procedure, so that no
// label needs a walk along all of them.
#[derive(Drop)]
struct Locals<'a> {
    checked: &'a Checked,
    marked: &'a MarkedText<'a>,
    procedure: usize,
    first: u32,
}

impl Locals<'_> {
    // Writes a line for each local that is written without a label.
    fn write_all<O: Sink>(
        &self,
        alloc: Global,
        slots: &[Slot],
        out: &mut O,
    ) -> Result<(), ViewFault>
        requires first { self.now.first
            ≡ unknowns_before (program_of self.now.checked.now.core) self.now.procedure }
        requires few { self.now.first + length slots.now < 2 ^ 32 }
        ensures accepted { let labels = self.now.checked.now.core.labels in
            OnOk result (Writes (AreLinesBy self.now
            (locals_in self.now.procedure 0 (map (slot_entry labels) slots.now)))
            (O.taken out.old) (O.taken out.new)) }
        ensures prefix { let labels = self.now.checked.now.core.labels in
            OnErr result (WritesPrefix (AreLinesBy self.now
            (locals_in self.now.procedure 0 (map (slot_entry labels) slots.now)))
            (O.taken out.old) (O.taken out.new)) }
        ensures rejected { IfErr result (IfRefused (λ _. IsTrue (O.has_failed out.new))) }
    {
        for (number, slot) in slots.iter().enumerate() {
            self.write(alloc, number, slot, out)?;
        }
        Ok(())
    }

    // Writes the line of a local, if it is written without a label.
    fn write<O: Sink>(
        &self,
        alloc: Global,
        number: usize,
        slot: &Slot,
        out: &mut O,
    ) -> Result<(), ViewFault>
        requires first { self.now.first
            ≡ unknowns_before (program_of self.now.checked.now.core) self.now.procedure }
        requires few { self.now.first + number < 2 ^ 32 }
        ensures accepted { let entry = slot_entry self.now.checked.now.core.labels slot.now in
            OnOk result (Writes (AreLinesBy self.now
            (if_unlabelled (local_of self.now.procedure number entry) entry.written))
            (O.taken out.old) (O.taken out.new)) }
        ensures prefix { let entry = slot_entry self.now.checked.now.core.labels slot.now in
            OnErr result (WritesPrefix (AreLinesBy self.now
            (if_unlabelled (local_of self.now.procedure number entry) entry.written))
            (O.taken out.old) (O.taken out.new)) }
        ensures rejected { IfErr result (IfRefused (λ _. IsTrue (O.has_failed out.new))) }
    {
        if slot.written.is_some() {
            return Ok(());
        }
        let line = self.line(alloc, number, slot)?;
        write_all(out, line.as_bytes())?;
        Ok(())
    }

    // The line of a local: the place of its declaration, its name, and its least label.
    fn line(&self, alloc: Global, number: usize, slot: &Slot) -> Result<String, AllocError>
        requires first { self.now.first
            ≡ unknowns_before (program_of self.now.checked.now.core) self.now.procedure }
        requires few { self.now.first + number < 2 ^ 32 }
        ensures { let entry = slot_entry self.now.checked.now.core.labels slot.now in
            IfOk result (λ line. IsLineBy self.now
            (local_of self.now.procedure number entry) (string_bytes line)) }
    {
        let label = self
            .checked
            .label_of_unknown(alloc, self.first + number as u32)?;
        let Place { line, column } = self.marked.place_of(slot.at);
        let name = slot.name.as_str();
        let printed = PrintedLabel {
            hierarchy: &self.checked.core().hierarchy,
            label: &label,
        };
        format!(in alloc; "{line}:{column} {name} {printed}\n")
    }
}
