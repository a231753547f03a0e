//! What a right side covers: the policies that are below an owner and all readers of one of its policies.
ghost use Rattle.labels.specs.Comparing.{AreBits, AreOf, HaveAll, IsRightSide, slots};
ghost use Rattle.labels.specs.Entries.{IsTable, own_at};
ghost use Rattle.labels.specs.Label.{Covers};
ghost use Rattle.std.specs.Prelude.{IfOk, OnOk, length, ◌<◌, ◌≡◌};

use crate::entries::{next_beyond, own_at, row_at};
use crate::policy_bits::{Bits, keep, no_rows, take};
use crate::rows::Row;
use crate::under::Under;
use std::alloc::AllocError;

// What more than this many own policies cover is kept.
const FEW_POLICIES: usize = 8;

// It is kept of at most this many labels.
pub(crate) const MOST_WIDE: usize = 256;

/// The last right side, and policies that it covers.
#[derive(Debug, Drop)]
pub(crate) struct CoveredSide {
    pub to: usize,
    pub covered: Row,
}

impl Under<'_> {
    // Adds what the own policies of an entry cover.
    fn cover_own(&self, bits: &mut Bits, covered: &mut Row, part: usize) -> Result<(), AllocError>
        requires bits { AreBits self.now.hierarchy.now self.now.entries.now bits.old }
        requires part { part < length self.now.entries.now }
        requires count { length covered.old ≡ length (slots self.now.entries.now) }
        ensures bits { AreBits self.now.hierarchy.now self.now.entries.now bits.new }
        ensures covered { AreOf self.now.entries.now (Covers self.now.hierarchy.now
            (own_at self.now.entries.now part)) covered.old covered.new }
    {
        for policy in own_at(self.entries, part) {
            let below = self.below(bits, policy)?;
            covered.include(&below);
        }
        Ok(())
    }

    // What the many own policies of an entry cover. When as many are kept as may be, all are forgotten.
    fn wide_of(&self, bits: &mut Bits, part: usize) -> Result<Row, AllocError>
        requires bits { AreBits self.now.hierarchy.now self.now.entries.now bits.old }
        requires part { part < length self.now.entries.now }
        ensures bits { AreBits self.now.hierarchy.now self.now.entries.now bits.new }
        ensures covered { IfOk result (HaveAll self.now.entries.now
            (Covers self.now.hierarchy.now (own_at self.now.entries.now part))) }
    {
        if bits.spare == 0 {
            bits.wide = no_rows(*bits.starts.allocator(), self.entries.len())?;
            bits.spare = MOST_WIDE;
        }
        bits.spare -= 1;
        let mut wide = bits.none(self.entries)?;
        self.cover_own(bits, &mut wide, part)?;
        Ok(wide)
    }

    // Adds what an entry covers, which is kept where it has many own policies.
    fn cover_part(&self, bits: &mut Bits, covered: &mut Row, part: usize) -> Result<(), AllocError>
        requires bits { AreBits self.now.hierarchy.now self.now.entries.now bits.old }
        requires part { part < length self.now.entries.now }
        requires count { length covered.old ≡ length (slots self.now.entries.now) }
        ensures bits { AreBits self.now.hierarchy.now self.now.entries.now bits.new }
        ensures covered { AreOf self.now.entries.now (Covers self.now.hierarchy.now
            (own_at self.now.entries.now part)) covered.old covered.new }
    {
        if own_at(self.entries, part).len() <= FEW_POLICIES {
            return self.cover_own(bits, covered, part);
        }
        let wide = match take(&mut bits.wide, part) {
            Some(wide) => wide,
            None => self.wide_of(bits, part)?,
        };
        covered.include(&wide);
        keep(&mut bits.wide, part, wide);
        Ok(())
    }

    // Begins with a right side: with what the last one covers, where the label has all of its policies. The answer is a label whose
    // parts need not be looked at.
    fn begin(&self, bits: &Bits, right: &mut CoveredSide, to: usize) -> Result<usize, AllocError>
        requires bits { AreBits self.now.hierarchy.now self.now.entries.now bits.now }
        requires to { to < length self.now.entries.now }
        requires right { IsRightSide self.now.hierarchy.now self.now.entries.now right.old }
        ensures right { IsRightSide self.now.hierarchy.now self.now.entries.now right.new }
        ensures to { OnOk result (right.new.to ≡ to) }
        ensures inside { IfOk result (λ last. last < length self.now.entries.now) }
    {
        let last = right.to;
        if self.includes(to, last) {
            right.to = to;
            return Ok(last);
        }
        right.covered = bits.none(self.entries)?;
        right.to = to;
        Ok(0)
    }

    // Adds what a label covers that is new on the right side.
    pub(crate) fn cover(
        &self,
        bits: &mut Bits,
        right: &mut CoveredSide,
        to: usize,
    ) -> Result<(), AllocError>
        requires bits { AreBits self.now.hierarchy.now self.now.entries.now bits.old }
        requires table { IsTable self.now.entries.now }
        requires to { to < length self.now.entries.now }
        requires right { IsRightSide self.now.hierarchy.now self.now.entries.now right.old }
        ensures bits { AreBits self.now.hierarchy.now self.now.entries.now bits.new }
        ensures right { IsRightSide self.now.hierarchy.now self.now.entries.now right.new }
        ensures to { OnOk result (right.new.to ≡ to) }
    {
        if to == right.to {
            return Ok(());
        }
        let last = self.begin(bits, right, to)?;
        self.cover_part(bits, &mut right.covered, to)?;
        let Some(row) = row_at(self.entries, to) else {
            return Ok(());
        };
        let mut from = 0;
        while let Some(part) = next_beyond(row, row_at(self.entries, last), from) {
            self.cover_part(bits, &mut right.covered, part)?;
            from = part + 1;
        }
        Ok(())
    }
}
