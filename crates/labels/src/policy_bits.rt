//! Rows of bits over the own policies of all labels: whose owner a principal acts for, and which allow it to read.
ghost use Rattle.labels.specs.Comparing.{AreBits, AreStarts, HaveAll, IsNoMore, IsOneMore, Told, row_kept, slots, start};
ghost use Rattle.labels.specs.declared.policy_bits.Role.TheVariants.{Owner, Reader};
ghost use Rattle.labels.specs.Label.{PolicyFlowsTo, ReaderPolicy};
ghost use Rattle.labels.specs.Row.{has};
ghost use Rattle.std.specs.Prelude.{All, IfOk, IfSome, IsTrue, None, OnOk, Some, false, length, replicate, slice_index_or, ℕ, ◌<◌, ◌≡◌};

use crate::entries::{Entry, own_at};
use crate::policies::Policy;
use crate::rows::Row;
use crate::under::Under;
use std::alloc::{AllocError, Global};

/// What is asked of a principal and a policy: whether it acts for the owner, or whether the policy allows it to read.
#[derive(Clone, Copy, Debug, Drop)]
pub(crate) enum Role {
    Owner,
    Reader,
}

/// Rows over the own policies of all labels, made when they are first asked for.
#[derive(Debug, Drop)]
pub(crate) struct Bits {
    /// For each label how many own policies stand before its own ones, and at the end how many there are.
    pub starts: Vec<usize>,
    /// For principals those whose owner they act for, and those that allow them to read.
    pub owners: Vec<Option<Row>>,
    pub readers: Vec<Option<Row>>,
    /// For labels with many own policies what these cover, and for how many labels more it may be kept.
    pub wide: Vec<Option<Row>>,
    pub spare: usize,
}

// No row for each of this many numbers.
pub(crate) fn no_rows(alloc: Global, count: usize) -> Result<Vec<Option<Row>>, AllocError>
    ensures { IfOk result (λ kept. All (λ row. row ≡ None) kept.items) }
{
    let mut kept = Vec::with_capacity(alloc, count)?;
    for _n in 0..count {
        kept.push(None)?;
    }
    Ok(kept)
}

// Where the own policies of each entry start, unless they are more than a number counts.
pub(crate) fn starts_of(alloc: Global, entries: &[Entry]) -> Result<Option<Vec<usize>>, AllocError>
    ensures { IfOk result (λ starts. IfSome starts (λ starts. AreStarts entries.now starts.items)) }
{
    let mut starts = Vec::new(alloc);
    let mut next = 0usize;
    for n in 0..entries.len() {
        starts.push(next)?;
        match next.checked_add(own_at(entries, n).len()) {
            None => return Ok(None),
            Some(sum) => next = sum,
        }
    }
    starts.push(next)?;
    Ok(Some(starts))
}

// Takes the row of a number, if one is kept.
pub(crate) fn take(kept: &mut Vec<Option<Row>>, number: usize) -> Option<Row>
    ensures fewer { IsNoMore kept.old.items kept.new.items }
    ensures taken { IfSome result (λ row. row_kept kept.old.items number ≡ Some row) }
{
    if number >= kept.len() {
        return None;
    }
    kept[number].take()
}

// Keeps the row of a number, if there is an entry for it.
pub(crate) fn keep(kept: &mut Vec<Option<Row>>, number: usize, row: Row)
    ensures { IsOneMore kept.old.items number row kept.new.items }
{
    if number < kept.len() {
        kept[number] = Some(row);
    }
}

impl Bits {
    // The empty set of own policies.
    pub(crate) fn none(&self, entries: &[Entry]) -> Result<Row, AllocError>
        requires { AreStarts entries.now self.now.starts.items }
        ensures { IfOk result (λ row. row ≡ replicate (length (slots entries.now)) false) }
    {
        Row::new(*self.starts.allocator(), self.starts[entries.len()])
    }
}

impl Under<'_> {
    // Whether what is asked of a principal and a policy holds.
    fn holds(&self, role: Role, principal: u32, policy: &Policy) -> bool
        ensures { IsTrue result → Told self.now.hierarchy.now role principal policy.now }
    {
        match role {
            Role::Owner => self.hierarchy.acts_for(principal, policy.owner()),
            Role::Reader => policy.allows(self.hierarchy, principal),
        }
    }

    // Adds the own policies of an entry, which start at a number, for which it holds.
    fn add_those(&self, row: &mut Row, part: usize, from: usize, role: Role, principal: u32)
        requires part { part < length self.now.entries.now }
        requires from { from ≡ start self.now.entries.now part }
        requires row { HaveAll self.now.entries.now (Told self.now.hierarchy.now role principal)
            row.old }
        ensures { HaveAll self.now.entries.now (Told self.now.hierarchy.now role principal)
            row.new }
    {
        let _bound = row.bound();
        let own = own_at(self.entries, part);
        for k in 0..own.len() {
            if self.holds(role, principal, &own[k]) {
                row.set(from + k);
            }
        }
    }

    // The own policies of all entries for which it holds.
    fn row_of(&self, bits: &Bits, role: Role, principal: u32) -> Result<Row, AllocError>
        requires { AreStarts self.now.entries.now bits.now.starts.items }
        ensures { IfOk result (HaveAll self.now.entries.now
            (Told self.now.hierarchy.now role principal)) }
    {
        let mut row = bits.none(self.entries)?;
        for n in 0..self.entries.len() {
            self.add_those(&mut row, n, bits.starts[n], role, principal);
        }
        Ok(row)
    }

    // The policies whose owner a principal acts for.
    fn owned(&self, bits: &mut Bits, owner: u32) -> Result<Row, AllocError>
        requires { AreBits self.now.hierarchy.now self.now.entries.now bits.old }
        ensures bits { AreBits self.now.hierarchy.now self.now.entries.now bits.new }
        ensures row { IfOk result (HaveAll self.now.entries.now
            (Told self.now.hierarchy.now Owner owner)) }
    {
        let more = match take(&mut bits.owners, owner as usize) {
            Some(more) => more,
            None => self.row_of(bits, Role::Owner, owner)?,
        };
        let mut row = bits.none(self.entries)?;
        row.include(&more);
        keep(&mut bits.owners, owner as usize, more);
        Ok(row)
    }

    // Keeps those policies of a row that allow a principal to read.
    fn meet_reader(&self, bits: &mut Bits, row: &mut Row, reader: u32) -> Result<(), AllocError>
        requires bits { AreBits self.now.hierarchy.now self.now.entries.now bits.old }
        requires count { length row.old ≡ length (slots self.now.entries.now) }
        ensures bits { AreBits self.now.hierarchy.now self.now.entries.now bits.new }
        ensures count { length row.new ≡ length row.old }
        ensures only { OnOk result ((s : ℕ) (d : ReaderPolicy) → IsTrue (has row.new s)
            → IsTrue (has row.old s) × Told self.now.hierarchy.now Reader reader
            (slice_index_or (slots self.now.entries.now) s d)) }
    {
        let reads = match take(&mut bits.readers, reader as usize) {
            Some(reads) => reads,
            None => self.row_of(bits, Role::Reader, reader)?,
        };
        row.meet(&reads);
        keep(&mut bits.readers, reader as usize, reads);
        Ok(())
    }

    // The policies that flow to a policy.
    pub(crate) fn below(&self, bits: &mut Bits, policy: &Policy) -> Result<Row, AllocError>
        requires { AreBits self.now.hierarchy.now self.now.entries.now bits.old }
        ensures bits { AreBits self.now.hierarchy.now self.now.entries.now bits.new }
        ensures row { IfOk result (HaveAll self.now.entries.now
            (λ other. PolicyFlowsTo self.now.hierarchy.now other policy.now)) }
    {
        let mut row = self.owned(bits, policy.owner())?;
        for reader in policy.readers() {
            self.meet_reader(bits, &mut row, *reader)?;
        }
        Ok(row)
    }
}
