//! Comparisons of labels by their numbers, by rows of bits: a bit for each own policy of each label. What a policy on a right side
//! covers is below its owner and all of its readers, and a left side flows there where all of its policies are covered.
ghost use Rattle.labels.specs.Comparing.{AllFlow, IsMemo, MayBeKept};
ghost use Rattle.labels.specs.Under.{FirstAbove};
ghost use Rattle.labels.specs.Entries.{IsTable, labels_in};
ghost use Rattle.labels.specs.Label.{flows};
ghost use Rattle.labels.specs.LabelTable.{label_at};
ghost use Rattle.std.specs.Prelude.{IfOk, IsTrue, length, ◌<◌, ◌≡◌};

use crate::entries::{Entry, number_inside};
use crate::left_side::{LeftSide, is_between};
use crate::policy_bits::{Bits, no_rows, starts_of};
use crate::right_side::{CoveredSide, MOST_WIDE};
use crate::rows::Row;
use crate::under::Under;
use principals::Hierarchy;
use std::alloc::{AllocError, Global};
use std::marker::Model;

/// What comparisons keep.
#[derive(Debug, Drop)]
pub(crate) struct Memo {
    pub bits: Bits,
    /// The last left side, and one before it.
    pub left: LeftSide,
    pub other: LeftSide,
    pub right: CoveredSide,
}

/// Comparisons of the labels of a table under a hierarchy. They keep two rows of bits for each principal of a right side, and the
/// policies of the last left side: the next one often has the same labels, or more.
#[derive(Debug, Drop)]
pub struct Comparisons<'a> {
    under: Under<'a>,
    // None where the own policies are more than a number counts.
    kept: Option<Memo>,
}

impl<'a> Model for Comparisons<'a> {
    ghost use Rattle.labels.specs.Under.{LabelsUnder as model};

    ghost Value = { model };

    ghost use Rattle.labels.specs.Comparing.{AreComparisons};
    ghost use Rattle.labels.specs.Entries.{labels_in};

    ghost view = { λ c. record {
      hierarchy = c.under.hierarchy.now;
      labels = labels_in c.under.entries.now;
    } };

    ghost invariant = { λ c. AreComparisons c.under.hierarchy.now c.under.entries.now c.kept };
}

impl Under<'_> {
    // Takes the other left side where it has more of these labels, and no others, or where the last one has others.
    fn choose_left(&self, kept: &mut Memo, labels: &Row)
        requires kept { IsMemo self.now.hierarchy.now self.now.entries.now kept.old }
        requires count { length labels.now ≡ length self.now.entries.now }
        ensures { IsMemo self.now.hierarchy.now self.now.entries.now kept.new }
    {
        if labels.covers(&kept.left.labels) && !is_between(&kept.left, &kept.other, labels) {
            return;
        }
        std::mem::swap(&mut kept.left, &mut kept.other);
    }

    // Whether all labels are found to flow to a label.
    fn all_flow(&self, kept: &mut Memo, labels: &Row, to: usize) -> Result<bool, AllocError>
        requires kept { IsMemo self.now.hierarchy.now self.now.entries.now kept.old }
        requires table { IsTable self.now.entries.now }
        requires count { length labels.now ≡ length self.now.entries.now }
        requires to { to < length self.now.entries.now }
        ensures kept { IsMemo self.now.hierarchy.now self.now.entries.now kept.new }
        ensures flow { IfOk result (λ all. IsTrue all → AllFlow self.now.hierarchy.now
            self.now.entries.now labels.now to) }
    {
        if self.are_named(labels, to) {
            return Ok(true);
        }
        self.choose_left(kept, labels);
        self.widen(&kept.bits, &mut kept.left, labels)?;
        self.cover(&mut kept.bits, &mut kept.right, to)?;
        Ok(kept.right.covered.covers(&kept.left.policies))
    }

    // What is kept before the first comparison, unless the own policies are more than a number counts.
    fn nothing_kept(&self, alloc: Global) -> Result<Option<Memo>, AllocError>
        requires { IsTable self.now.entries.now }
        ensures { IfOk result (MayBeKept self.now.hierarchy.now self.now.entries.now) }
    {
        let Some(starts) = starts_of(alloc, self.entries)? else {
            return Ok(None);
        };
        let principals = self.hierarchy.count() as usize;
        let bits = Bits {
            starts,
            owners: no_rows(alloc, principals)?,
            readers: no_rows(alloc, principals)?,
            wide: no_rows(alloc, self.entries.len())?,
            spare: MOST_WIDE,
        };
        let left = self.no_labels(&bits)?;
        let other = self.no_labels(&bits)?;
        let covered = bits.none(self.entries)?;
        let right = CoveredSide { to: 0, covered };
        Ok(Some(Memo {
            bits,
            left,
            other,
            right,
        }))
    }
}

impl Comparisons<'_> {
    // Of the labels of these entries.
    pub(crate) fn of<'a>(
        alloc: Global,
        hierarchy: &'a Hierarchy,
        entries: &'a [Entry],
    ) -> Result<Comparisons<'a>, AllocError>
        requires { IsTable entries.now }
        ensures hierarchy { IfOk result (λ c. c.hierarchy ≡ hierarchy.now) }
        ensures labels { IfOk result (λ c. c.labels ≡ labels_in entries.now) }
    {
        let under = Under { hierarchy, entries };
        let kept = under.nothing_kept(alloc)?;
        Ok(Comparisons { under, kept })
    }

    /// The first number in a row whose label does not flow to the label with another number. A number where there is no label stands
    /// for the least one. Precondition: the row has a bit for each label.
    ///
    /// # Errors
    ///
    /// Memory ran out. The comparisons can be used further.
    pub fn first_above(&mut self, labels: &Row, to: u32) -> Result<Option<usize>, AllocError>
        requires { length labels.now ≡ length self.old.labels }
        ensures same { self.new ≡ self.old }
        ensures first { IfOk result (FirstAbove (λ label. flows self.old.hierarchy
            (label_at self.old.labels label) (label_at self.old.labels to)) labels.now) }
    {
        let to = number_inside(self.under.entries, to as usize);
        let Some(kept) = &mut self.kept else {
            return Ok(self.under.first_above(labels, to));
        };
        if self.under.all_flow(kept, labels, to)? {
            return Ok(None);
        }
        Ok(self.under.first_above(labels, to))
    }
}
