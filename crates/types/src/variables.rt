//! The variables that are declared so far, with the labels that they name by number.

ghost use Rattle.labels.specs.Canonical.{IsCanonicalPolicy};
ghost use Rattle.labels.specs.LabelTable.{label_at};
ghost use Rattle.resolved.specs.ProgramOf.{global_entry, slot_entry, written_at};
ghost use Rattle.std.specs.Prelude.{All, IfOk, OnOk, [], length, map, ◌++◌, ◌<◌, ◌≡◌, ◌∷◌};
ghost use Rattle.syntax.specs.Limits.{most_nodes};
ghost use Rattle.types.specs.VariableEntries.{AreSlotsInside, HasMoreLabels, IsInside, IsOptionInside, IsSlotAdded, label_with, optional_label_with};
ghost use Rattle.types.specs.Views.{new_slot_entry};

use common::BaseType;
use labels::{LabelTable, Policy};
use resolved::slot_name::SlotName;
use resolved::tables::{GlobalVariable, Slot};
use std::alloc::{AllocError, Global};
use std::marker::Model;
use std::mem::replace;

/// A label as its text gives it: its own policies, and the numbers of the labels whose policies it has too.
#[derive(Drop)]
pub struct LabelParts {
    own: Vec<Policy>,
    named: Vec<u32>,
}

impl Model for LabelParts {
    ghost use Rattle.labels.specs.Canonical.{IsCanonicalPolicy};
    ghost use Rattle.std.specs.Prelude.{All};
    ghost use Rattle.types.specs.VariableEntries.{LabelPolicies};

    ghost Value = { LabelPolicies };

    ghost view = { λ parts. record { own = parts.own.items; named = parts.named.items } };

    ghost invariant = { λ parts. All IsCanonicalPolicy parts.own.items };
}

impl LabelParts {
    /// The label that has these policies and those of the labels with these numbers. Precondition: each policy is canonical, as
    /// every `Policy` is.
    pub fn of(own: Vec<Policy>, named: Vec<u32>) -> LabelParts
        requires { All IsCanonicalPolicy own.items }
        ensures { result ≡ record { own = own.items; named = named.items } }
    {
        LabelParts { own, named }
    }
}

/// A parameter or local that is to be declared: a scalar, or an array of `size` elements, with its label if that is written, the
/// byte at which its declaration begins, and its name.
#[derive(Drop)]
pub struct NewSlot<'n> {
    pub base: BaseType,
    pub size: Option<u32>,
    pub label: Option<LabelParts>,
    pub at: usize,
    pub name: &'n str,
}

/// The globals that are declared so far, the slots of the procedure that is resolved, and the table of labels, in which they name
/// theirs by number. A contract sees their entries with whole labels.
#[derive(Drop)]
pub struct DeclaredVariables {
    labels: LabelTable,
    globals: Vec<GlobalVariable>,
    slots: Vec<Slot>,
}

impl Model for DeclaredVariables {
    ghost use Rattle.resolved.specs.ProgramOf.{global_entry, slot_entry};
    ghost use Rattle.std.specs.Prelude.{map};
    ghost use Rattle.types.specs.VariableEntries.{AreInside, VariableEntries};

    ghost Value = { VariableEntries };

    ghost view = { λ variables.
        record {
          labels = variables.labels;
          globals = map (global_entry variables.labels) variables.globals.items;
          slots = map (slot_entry variables.labels) variables.slots.items;
        } };

    ghost invariant = { λ variables.
        AreInside variables.labels variables.globals.items variables.slots.items };
}

impl DeclaredVariables {
    /// No variable, and the least label alone.
    ///
    /// # Errors
    ///
    /// Out of memory.
    pub fn new(alloc: Global) -> Result<DeclaredVariables, AllocError>
        ensures { IfOk result (λ variables. variables ≡
            record { labels = [] ∷ []; globals = []; slots = [] }) }
    {
        Ok(DeclaredVariables {
            labels: LabelTable::new(alloc)?,
            globals: Vec::new(alloc),
            slots: Vec::new(alloc),
        })
    }

    /// The globals.
    pub fn globals(&self) -> &[GlobalVariable]
        ensures { map (global_entry self.now.labels) result.now ≡ self.now.globals }
    {
        self.globals.as_slice()
    }

    /// The slots of the procedure that is resolved.
    pub fn slots(&self) -> &[Slot]
        ensures { map (slot_entry self.now.labels) result.now ≡ self.now.slots }
    {
        self.slots.as_slice()
    }

    /// The number of the least label.
    pub fn least_label(&self) -> u32
        ensures inside { IsInside self.now.labels result }
        ensures least { label_at self.now.labels result ≡ [] }
    {
        prove!(self.labels.len() > 0);
        0
    }

    /// Gives a label its number.
    ///
    /// # Errors
    ///
    /// Out of memory.
    pub fn add_label(&mut self, parts: LabelParts) -> Result<u32, AllocError>
        requires room { length self.old.labels < most_nodes }
        ensures more { OnOk result (HasMoreLabels 1 self.old self.new) }
        ensures inside { IfOk result (λ number. IsInside self.new.labels number) }
        ensures label { IfOk result (λ number.
            label_at self.new.labels number ≡ label_with self.old.labels parts) }
    {
        let LabelParts { own, named } = parts;
        Ok(self.labels.add(own, named)?)
    }

    /// Gives a label its number, if there is one.
    ///
    /// # Errors
    ///
    /// Out of memory.
    pub fn add_optional_label(
        &mut self,
        parts: Option<LabelParts>,
    ) -> Result<Option<u32>, AllocError>
        requires room { length self.old.labels < most_nodes }
        ensures more { OnOk result (HasMoreLabels 1 self.old self.new) }
        ensures inside { IfOk result (λ number. IsOptionInside self.new.labels number) }
        ensures label { IfOk result (λ number. written_at self.new.labels number ≡
            optional_label_with self.old.labels parts) }
    {
        match parts {
            None => Ok(None),
            Some(parts) => Ok(Some(self.add_label(parts)?)),
        }
    }

    /// Puts a global after the others. Precondition: its label is in the table.
    ///
    /// # Errors
    ///
    /// Out of memory.
    pub fn push_global(&mut self, global: GlobalVariable) -> Result<(), AllocError>
        requires inside { IsInside self.old.labels global.label }
        ensures { OnOk result (self.new ≡ record self.old {
          globals = self.old.globals ++ global_entry self.old.labels global ∷ [];
        }) }
    {
        self.globals.push(global)?;
        Ok(())
    }

    // Puts a slot after the others, whose label is in the table.
    fn push_slot(&mut self, slot: Slot) -> Result<(), AllocError>
        requires inside { IsOptionInside self.old.labels slot.written }
        ensures { OnOk result (self.new ≡ record self.old {
          slots = self.old.slots ++ slot_entry self.old.labels slot ∷ [];
        }) }
    {
        self.slots.push(slot)?;
        Ok(())
    }

    /// Puts a parameter or local after the others, which takes the next slot.
    ///
    /// # Errors
    ///
    /// Out of memory.
    #[inline(never)]
    pub fn declare(&mut self, alloc: Global, new: NewSlot<'_>) -> Result<(), AllocError>
        requires room { length self.old.labels < most_nodes }
        ensures { OnOk result
            (IsSlotAdded (new_slot_entry self.old.labels new.entry) self.old self.new) }
    {
        let NewSlot {
            base,
            size,
            label,
            at,
            name,
        } = new;
        let written = self.add_optional_label(label)?;
        let name = SlotName::of(alloc, name)?;
        self.push_slot(Slot {
            base,
            size,
            written,
            at,
            name,
        })
    }

    /// Takes the slots out, after the procedure that is resolved.
    pub fn take_slots(&mut self, alloc: Global) -> Vec<Slot>
        ensures rest { self.new ≡ record self.old { slots = [] } }
        ensures slots { map (slot_entry self.old.labels) result.items ≡ self.old.slots }
        ensures inside { AreSlotsInside self.old.labels result.items }
    {
        replace(&mut self.slots, Vec::new(alloc))
    }

    /// The table of labels, and the globals.
    pub fn into_tables(self) -> (LabelTable, Vec<GlobalVariable>)
        ensures labels { result.0 ≡ self.labels }
        ensures globals { map (global_entry self.labels) result.1.items ≡ self.globals }
    {
        let DeclaredVariables {
            labels,
            globals,
            ..
        } = self;
        (labels, globals)
    }
}
