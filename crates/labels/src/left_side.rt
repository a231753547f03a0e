//! A left side: some labels, all that these are made of, and the policies of those.
ghost use Rattle.labels.specs.Comparing.{AreStarts, HasParts, IsLeftSide};
ghost use Rattle.labels.specs.Entries.{IsTable};
ghost use Rattle.labels.specs.Row.{Includes, has};
ghost use Rattle.std.specs.Prelude.{IfOk, OnOk, length, ℕ, ◌<◌, ◌==◌, ◌||◌, ◌≡◌};

use crate::entries::{own_at, row_at};
use crate::policy_bits::Bits;
use crate::rows::Row;
use crate::under::Under;
use std::alloc::AllocError;

/// The labels of a left side, all that they are made of, and the policies of these.
#[derive(Debug, Drop)]
pub(crate) struct LeftSide {
    pub labels: Row,
    pub parts: Row,
    pub policies: Row,
}

// Whether a left side has all labels of another one, and none but these.
pub(crate) fn is_between(left: &LeftSide, other: &LeftSide, labels: &Row) -> bool
    requires left { length left.now.labels ≡ length labels.now }
    requires other { length other.now.labels ≡ length labels.now }
{
    labels.covers(&other.labels) && other.labels.covers(&left.labels)
}

impl Under<'_> {
    // Adds an entry with its own policies.
    fn add_part(&self, bits: &Bits, left: &mut LeftSide, part: usize)
        requires starts { AreStarts self.now.entries.now bits.now.starts.items }
        requires part { part < length self.now.entries.now }
        requires left { IsLeftSide self.now.entries.now left.old }
        ensures left { IsLeftSide self.now.entries.now left.new }
        ensures labels { left.new.labels ≡ left.old.labels }
        ensures parts { (n : ℕ) → has left.new.parts n ≡ (n == part || has left.old.parts n) }
    {
        for k in 0..own_at(self.entries, part).len() {
            left.policies.set(bits.starts[part] + k);
        }
        left.parts.set(part);
    }

    // Adds all that a label is made of.
    fn add_label(&self, bits: &Bits, left: &mut LeftSide, label: usize)
        requires starts { AreStarts self.now.entries.now bits.now.starts.items }
        requires table { IsTable self.now.entries.now }
        requires label { label < length self.now.entries.now }
        requires left { IsLeftSide self.now.entries.now left.old }
        ensures left { IsLeftSide self.now.entries.now left.new }
        ensures labels { left.new.labels ≡ left.old.labels }
        ensures kept { Includes left.new.parts left.old.parts }
        ensures added { HasParts self.now.entries.now label left.new.parts }
    {
        self.add_part(bits, left, label);
        let Some(row) = row_at(self.entries, label) else {
            return;
        };
        let mut from = 0;
        while let Some(part) = row.first_beyond(&left.parts, from) {
            self.add_part(bits, left, part);
            from = part + 1;
        }
    }

    // A left side without labels.
    pub(crate) fn no_labels(&self, bits: &Bits) -> Result<LeftSide, AllocError>
        requires { AreStarts self.now.entries.now bits.now.starts.items }
        ensures { IfOk result (IsLeftSide self.now.entries.now) }
    {
        let alloc = *bits.starts.allocator();
        Ok(LeftSide {
            labels: Row::new(alloc, self.entries.len())?,
            parts: Row::new(alloc, self.entries.len())?,
            policies: bits.none(self.entries)?,
        })
    }

    // Begins with a left side: with the last one, where all of its labels are among the new ones.
    fn clear(&self, bits: &Bits, left: &mut LeftSide, labels: &Row) -> Result<(), AllocError>
        requires starts { AreStarts self.now.entries.now bits.now.starts.items }
        requires count { length labels.now ≡ length self.now.entries.now }
        requires left { IsLeftSide self.now.entries.now left.old }
        ensures { IsLeftSide self.now.entries.now left.new }
    {
        if labels.covers(&left.labels) {
            return Ok(());
        }
        *left = self.no_labels(bits)?;
        Ok(())
    }

    // Adds the labels that are new on the left side.
    pub(crate) fn widen(
        &self,
        bits: &Bits,
        left: &mut LeftSide,
        labels: &Row,
    ) -> Result<(), AllocError>
        requires starts { AreStarts self.now.entries.now bits.now.starts.items }
        requires table { IsTable self.now.entries.now }
        requires count { length labels.now ≡ length self.now.entries.now }
        requires left { IsLeftSide self.now.entries.now left.old }
        ensures left { IsLeftSide self.now.entries.now left.new }
        ensures labels { OnOk result (Includes left.new.labels labels.now) }
    {
        self.clear(bits, left, labels)?;
        let mut from = 0;
        while let Some(label) = labels.first_beyond(&left.labels, from) {
            self.add_label(bits, left, label);
            from = label + 1;
        }
        left.labels.include(labels);
        Ok(())
    }
}
