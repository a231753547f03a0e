//! Labels by their numbers.
ghost use Rattle.labels.specs.Canonical.{IsCanonicalPolicy, written_label};
ghost use Rattle.labels.specs.Entries.{IsHeldAs, IsOnlyName, IsTable, labels_in, numbers_in};
ghost use Rattle.labels.specs.Label.{Covers, FlowsTo, flows};
ghost use Rattle.labels.specs.LabelTable.{Extends, label_at, labels_of};
ghost use Rattle.std.specs.Arc.{arc_slice_items};
ghost use Rattle.std.specs.Prelude.{All, Contains, IfOk, IfSome, IsTrue, None, OnErr, OnOk, [], length, nat_lt, ℕ, ◌&&◌, ◌++◌, ◌+◌, ◌<◌, ◌^◌, ◌↔◌, ◌∷◌, ◌≡◌, ◌≤◌, ◌⊎◌};

use crate::comparing::Comparisons;
use crate::entries::{
    Entry, Key, find_uncovered, in_pieces, joined_row, number_inside, policies_of, row_of,
};
use crate::label_sets::{Label, each_once};
use crate::pieces::PieceRow;
use crate::policies::Policy;
use crate::rows::Row;
use principals::Hierarchy;
use std::alloc::{AllocError, Global};
use std::collections::BTreeMap;
use std::marker::Model;
use std::sync::ArcSlice;

/// Labels by their numbers, from 0 on. Number 0 is the least label, which has no policy. A contract sees the labels in the order of
/// their numbers.
///
/// Each label is held as its text says: its own policies, and the numbers of the labels that it names. So the memory that it takes is
/// in proportion to its text and, beside that, one bit for each number up to the greatest that it names, but for the pieces of these
/// bits that a label which it names has too.
#[derive(Debug, Drop)]
pub struct LabelTable {
    entries: Vec<Entry>,
    // For each key the number of its entry.
    numbers: BTreeMap<Key, u32>,
}

impl Model for LabelTable {
    ghost use Rattle.labels.specs.Label as model;
    ghost use Rattle.std.specs.Prelude.{List};

    ghost Value = { List model.Label };

    ghost use Rattle.labels.specs.Entries.{IsTable, labels_in};

    ghost view = { λ table. labels_in table.entries.items };

    ghost invariant = { λ table. IsTable table.entries.items };
}

// The numbers of labels that are named, in ascending order and each once, without the least label and those that are not there.
fn names_of(mut named: Vec<u32>, count: usize) -> Vec<u32>
    ensures inside { All (λ number. number < count) result.items }
    ensures all { (number : ℕ) → Contains named.items number → 0 < number → number < count
        → Contains result.items number }
    ensures only { (number : ℕ) → Contains result.items number → Contains named.items number }
{
    named.sort_unstable();
    named.dedup();
    named.retain(|number| is_name(*number, count));
    named
}

// Whether a number is that of a label, and not of the least one.
fn is_name(number: u32, count: usize) -> bool
    ensures { result ≡ (nat_lt 0 number && nat_lt number count) }
{
    0 < number && (number as usize) < count
}

// The number of the label that has no policy of its own and at most one name.
fn only_name(own: &[Policy], named: &[u32]) -> Option<u32>
    ensures { IfSome result (IsOnlyName own.now named.now) }
{
    if !own.is_empty() {
        return None;
    }
    match named {
        [] => Some(0),
        [number] => Some(*number),
        _ => None,
    }
}

// The number of an entry with the same own policies and the same row, if its key was added before.
fn find_same(
    entries: &[Entry],
    numbers: &BTreeMap<Key, u32>,
    key: &Key,
    row: &Option<Row>,
) -> Option<u32>
    ensures { IfSome result (λ number. IsHeldAs entries.now number
        (arc_slice_items key.now.own) (numbers_in row.now)) }
{
    let number = *numbers.get(key)?;
    let entry = entries.get(number as usize)?;
    if entry.key.own.as_slice() != key.own.as_slice() {
        return None;
    }
    if !is_same_row(&entry.row, row) {
        return None;
    }
    Some(number)
}

// Whether two rows, of which either may be missing, are the same.
fn is_same_row(row: &Option<PieceRow>, other: &Option<Row>) -> bool
    ensures { IsTrue result → numbers_in row.now ≡ numbers_in other.now }
{
    match (row, other) {
        (None, None) => true,
        (Some(row), Some(other)) => row.is_row(other),
        _ => false,
    }
}

// The label with the policies of the labels with these numbers.
fn joined(alloc: Global, entries: &[Entry], numbers: &[usize]) -> Result<Label, AllocError>
    requires { IsTable entries.now }
    ensures { IfOk result (λ label. label
        ≡ written_label (labels_of (labels_in entries.now) numbers.now)) }
{
    let row = joined_row(alloc, entries, numbers)?;
    let policies = policies_of(alloc, entries, &row)?;
    Ok(Label::written(policies))
}

impl LabelTable {
    /// The table of the least label alone.
    ///
    /// # Errors
    ///
    /// Memory ran out.
    pub fn new(alloc: Global) -> Result<LabelTable, AllocError>
        ensures { IfOk result (λ table. table ≡ [] ∷ []) }
    {
        let mut entries = Vec::new(alloc);
        entries.push(Entry {
            key: Key {
                named: ArcSlice::from_vec(Vec::new(alloc))?,
                own: ArcSlice::from_vec(Vec::new(alloc))?,
            },
            row: None,
        })?;
        Ok(LabelTable {
            entries,
            numbers: BTreeMap::new(alloc),
        })
    }

    /// How many labels there are: the least one at least, and no more than numbers of 32 bits name.
    pub fn len(&self) -> usize
        ensures length { result ≡ length self.now }
        ensures some { 0 < length self.now }
        ensures least { label_at self.now 0 ≡ [] }
        ensures few { length self.now ≤ 2 ^ 32 }
    {
        self.entries.len()
    }

    /// The number of the label that has these policies and those of the labels with these numbers, which is added unless it is
    /// there. Labels that were there keep their numbers. Preconditions: each policy is canonical, as every `Policy` is (see
    /// `Policy::of`), and there are fewer than 2^32 labels.
    ///
    /// A text with the same policies and numbers, in whatever order, is looked for in a few steps, and its number is the answer where
    /// it is found. A number where there is no label stands for the least one.
    ///
    /// # Errors
    ///
    /// Memory ran out. The labels stay as they were.
    pub fn add(&mut self, own: Vec<Policy>, named: Vec<u32>) -> Result<u32, AllocError>
        requires canonical { All IsCanonicalPolicy own.items }
        requires room { length self.old < 2 ^ 32 }
        ensures extended { OnOk result (Extends self.old self.new) }
        ensures few { OnOk result (length self.new ≤ length self.old + 1) }
        ensures inside { IfOk result (λ number. number < length self.new) }
        ensures label { IfOk result (λ number. label_at self.new number
            ≡ written_label (own.items ++ labels_of self.old named.items)) }
        ensures err { OnErr result (self.new ≡ self.old) }
    {
        let named = names_of(named, self.entries.len());
        let own = each_once(own);
        if let Some(number) = only_name(own.as_slice(), named.as_slice()) {
            return Ok(number);
        }
        let alloc = *self.entries.allocator();
        let row = row_of(alloc, self.entries.as_slice(), named.as_slice())?;
        let key = Key {
            named: ArcSlice::from_vec(named)?,
            own: ArcSlice::from_vec(own)?,
        };
        if let Some(number) = find_same(self.entries.as_slice(), &self.numbers, &key, &row) {
            return Ok(number);
        }
        let held = in_pieces(alloc, self.entries.as_slice(), key.named.as_slice(), &row)?;
        let number = self.entries.len() as u32;
        self.numbers.insert(key.clone()?, number)?;
        self.entries.push(Entry { key, row: held })?;
        Ok(number)
    }

    /// The label with a number: the least one where there is none.
    ///
    /// # Errors
    ///
    /// Memory ran out.
    pub fn label(&self, alloc: Global, number: u32) -> Result<Label, AllocError>
        ensures { IfOk result (λ label. label ≡ label_at self.now number) }
    {
        joined(alloc, self.entries.as_slice(), &[number as usize])
    }

    /// The label with the policies of the labels with these numbers: their join. A number where there is no label stands for the
    /// least one.
    ///
    /// # Errors
    ///
    /// Memory ran out.
    pub fn join(&self, alloc: Global, numbers: &[usize]) -> Result<Label, AllocError>
        ensures { IfOk result (λ label. label ≡ written_label (labels_of self.now numbers.now)) }
    {
        joined(alloc, self.entries.as_slice(), numbers)
    }

    /// A policy of the label with one number that the label with another number does not cover, if there is one: so one label flows
    /// to the other exactly where there is none. It takes no memory, and looks at no policies that the other label has by the same
    /// name.
    pub fn find_uncovered(&self, hierarchy: &Hierarchy, from: u32, to: u32) -> Option<&Policy>
        ensures contained { IfSome result (λ policy. Contains (label_at self.now from) policy.now) }
        ensures uncovered { IfSome result (λ policy.
            ¬ Covers hierarchy.now (label_at self.now to) policy.now) }
        ensures none { (result ≡ None) ↔ IsTrue
            (flows hierarchy.now (label_at self.now from) (label_at self.now to)) }
    {
        let entries = self.entries.as_slice();
        let from = number_inside(entries, from as usize);
        let to = number_inside(entries, to as usize);
        find_uncovered(hierarchy, entries, from, to)
    }

    /// Whether the label with one number flows to the one with another number. It takes no memory.
    pub fn flows(&self, hierarchy: &Hierarchy, from: u32, to: u32) -> bool
        ensures flows { IsTrue result
            ↔ FlowsTo hierarchy.now (label_at self.now from) (label_at self.now to) }
        ensures test { result
            ≡ flows hierarchy.now (label_at self.now from) (label_at self.now to) }
    {
        self.find_uncovered(hierarchy, from, to).is_none()
    }

    /// Comparisons of the labels under a hierarchy by rows of bits: see `Comparisons::first_above`.
    ///
    /// # Errors
    ///
    /// Memory ran out.
    pub fn comparisons<'a>(
        &'a self,
        alloc: Global,
        hierarchy: &'a Hierarchy,
    ) -> Result<Comparisons<'a>, AllocError>
        ensures hierarchy { IfOk result (λ c. c.hierarchy ≡ hierarchy.now) }
        ensures labels { IfOk result (λ c. c.labels ≡ self.now) }
    {
        Comparisons::of(alloc, hierarchy, self.entries.as_slice())
    }
}
