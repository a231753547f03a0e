//! Labels as their texts say: each with its own policies and the numbers of earlier labels that it names.
ghost use Rattle.labels.specs.Entries.{AreEntries, ArePoliciesGathered, IsTable, labels_in, made_of, numbers_in, own_at, row_at, some_made_of};
ghost use Rattle.labels.specs.Label.{Covers, FlowsTo, covers};
ghost use Rattle.labels.specs.LabelTable.{label_at};
ghost use Rattle.labels.specs.Row.{FirstBeyond, has};
ghost use Rattle.std.specs.Arc.{arc_slice_items};
ghost use Rattle.std.specs.Option.{option_copied};
ghost use Rattle.std.specs.Prelude.{All, Contains, IfOk, IfSome, IsTrue, None, OnOk, ℕ, length, ◌<◌, ◌||◌, ◌↔◌, ◌≡◌, ◌≤◌};

use crate::joins::append;
use crate::pieces::PieceRow;
use crate::policies::Policy;
use crate::rows::Row;
use principals::Hierarchy;
use std::alloc::{AllocError, Global};
use std::sync::ArcSlice;

// This many own policies are held against a policy before it is looked up.
const FEW: usize = 8;

/// What the text of a label says: the labels that it names, by their numbers, and its own policies, both in ascending order and each
/// once.
#[derive(Clone, Debug, PartialEq, Eq, PartialOrd, Ord, Drop)]
pub(crate) struct Key {
    pub named: ArcSlice<u32>,
    pub own: ArcSlice<Policy>,
}

/// A label as it is held: what its text says and, where it names any labels, the numbers of all earlier labels that it is made of:
/// those that it names, and those that these are made of.
#[derive(Debug, Drop)]
pub(crate) struct Entry {
    pub key: Key,
    pub row: Option<PieceRow>,
}

// The own policies of the entry with a number.
pub(crate) fn own_at(entries: &[Entry], number: usize) -> &[Policy]
    requires { number < length entries.now }
    ensures { result.now ≡ own_at entries.now number }
{
    entries[number].key.own.as_slice()
}

// The row of the entry with a number, if it has one.
pub(crate) fn row_at(entries: &[Entry], number: usize) -> Option<&PieceRow>
    requires { number < length entries.now }
    ensures { numbers_in (option_copied result) ≡ row_at entries.now number }
{
    entries[number].row.as_ref()
}

// Adds the numbers of all labels that a label is made of.
fn add_parts(row: &mut Row, entries: &[Entry], label: usize)
    requires entries { AreEntries entries.now }
    requires inside { label < length entries.now }
    requires room { label < length row.old }
    ensures bound { length row.new ≡ length row.old }
    ensures parts { (part : ℕ) → has row.new part
        ≡ (has row.old part || made_of entries.now label part) }
{
    row.set(label);
    match row_at(entries, label) {
        None => {}
        Some(more) => more.include_in(row),
    }
}

// One more than the greatest of some numbers, 0 where there is none.
fn bound_of(numbers: &[u32]) -> usize
    ensures above { All (λ number. number < result) numbers.now }
    ensures least { (bound : ℕ) → All (λ number. number < bound) numbers.now → result ≤ bound }
{
    let mut bound = 0;
    for number in numbers {
        let next = *number as usize + 1;
        if bound < next {
            bound = next;
        }
    }
    bound
}

/// The numbers of all labels that the labels with these numbers are made of, no row where there is none.
pub(crate) fn row_of(
    alloc: Global,
    entries: &[Entry],
    named: &[u32],
) -> Result<Option<Row>, AllocError>
    requires entries { AreEntries entries.now }
    requires inside { All (λ label. label < length entries.now) named.now }
    ensures short { IfOk result (λ row. length (numbers_in row) ≤ length entries.now) }
    ensures parts { IfOk result (λ row. (part : ℕ) → has (numbers_in row) part
        ≡ some_made_of entries.now named.now part) }
{
    if named.is_empty() {
        return Ok(None);
    }
    let mut row = Row::new(alloc, bound_of(named))?;
    for label in named {
        add_parts(&mut row, entries, *label as usize);
    }
    Ok(Some(row))
}

/// A row in pieces, of which it shares some with that of the last of some labels and with that of the last entry; none where there is
/// no row.
pub(crate) fn in_pieces(
    alloc: Global,
    entries: &[Entry],
    named: &[u32],
    row: &Option<Row>,
) -> Result<Option<PieceRow>, AllocError>
    ensures { IfOk result (λ pieced. numbers_in pieced ≡ numbers_in row.now) }
{
    let Some(row) = row else {
        return Ok(None);
    };
    let near = row_of_last(entries, named);
    let last = match entries.last() {
        None => None,
        Some(entry) => entry.row.as_ref(),
    };
    Ok(Some(PieceRow::of(alloc, row, near, last)?))
}

// The row of the last of some labels, if there is one.
fn row_of_last<'a>(entries: &'a [Entry], named: &[u32]) -> Option<&'a PieceRow> {
    let number = named.last()?;
    let entry = entries.get(*number as usize)?;
    entry.row.as_ref()
}

/// The same for numbers of which some may be outside: these stand for the least label.
pub(crate) fn joined_row(
    alloc: Global,
    entries: &[Entry],
    labels: &[usize],
) -> Result<Row, AllocError>
    requires { AreEntries entries.now }
    ensures bound { IfOk result (λ row. length row ≡ length entries.now) }
    ensures parts { IfOk result (λ row. (part : ℕ) → part < length entries.now → has row part
        ≡ some_made_of entries.now labels.now part) }
{
    let mut row = Row::new(alloc, entries.len())?;
    for label in labels {
        if *label < entries.len() {
            add_parts(&mut row, entries, *label);
        }
    }
    Ok(row)
}

/// The own policies of all entries in a row.
pub(crate) fn policies_of(
    alloc: Global,
    entries: &[Entry],
    row: &Row,
) -> Result<Vec<Policy>, AllocError>
    requires entries { AreEntries entries.now }
    requires inside { length row.now ≤ length entries.now }
    ensures { IfOk result (λ policies. ArePoliciesGathered entries.now row.now (length row.now)
        policies.items) }
{
    let mut policies = Vec::new(alloc);
    let mut from = 0;
    while let Some(part) = row.first_from(from) {
        append(&mut policies, own_at(entries, part))?;
        from = part + 1;
    }
    Ok(policies)
}

// Whether a policy is one of an ascending list, found by their order.
fn is_among(policies: &[Policy], policy: &Policy) -> bool
    ensures { IsTrue result → Contains policies.now policy.now }
{
    policies.binary_search(policy).is_ok()
}

// An entry that a label is made of, with a policy among its own ones: each is looked up by their order.
fn part_with(entries: &[Entry], label: usize, policy: &Policy) -> Option<usize>
    requires entries { AreEntries entries.now }
    requires inside { label < length entries.now }
    ensures { IfSome result (λ part. IsTrue (made_of entries.now label part)
        × Contains (own_at entries.now part) policy.now) }
{
    if is_among(own_at(entries, label), policy) {
        return Some(label);
    }
    let Some(row) = row_at(entries, label) else {
        return None;
    };
    let mut from = 0;
    while let Some(part) = row.first_from(from) {
        if is_among(own_at(entries, part), policy) {
            return Some(part);
        }
        from = part + 1;
    }
    None
}

// Whether a policy flows to one of these policies.
fn flows_to_some(hierarchy: &Hierarchy, policies: &[Policy], policy: &Policy) -> bool
    ensures { result ≡ covers hierarchy.now policies.now policy.now }
{
    policies
        .iter()
        .any(|other| policy.flows_to(hierarchy, other))
}

// An entry that a label is made of, whose own policies cover a policy: each is tried after the other.
fn part_above(
    hierarchy: &Hierarchy,
    entries: &[Entry],
    label: usize,
    policy: &Policy,
) -> Option<usize>
    requires entries { AreEntries entries.now }
    requires inside { label < length entries.now }
    ensures some { IfSome result (λ part. IsTrue (made_of entries.now label part)
        × Covers hierarchy.now (own_at entries.now part) policy.now) }
    ensures none { result ≡ None → (part : ℕ) → IsTrue (made_of entries.now label part)
        → ¬ Covers hierarchy.now (own_at entries.now part) policy.now }
{
    if flows_to_some(hierarchy, own_at(entries, label), policy) {
        return Some(label);
    }
    let Some(row) = row_at(entries, label) else {
        return None;
    };
    let mut from = 0;
    while let Some(part) = row.first_from(from) {
        if flows_to_some(hierarchy, own_at(entries, part), policy) {
            return Some(part);
        }
        from = part + 1;
    }
    None
}

// Whether there are few own policies and a policy flows to one of them.
fn flows_to_few(hierarchy: &Hierarchy, policies: &[Policy], policy: &Policy) -> bool
    ensures { IsTrue result → Covers hierarchy.now policies.now policy.now }
{
    policies.len() <= FEW && flows_to_some(hierarchy, policies, policy)
}

/// An entry that a label is made of, whose own policies cover a policy, if there is one: a policy is covered where it stands, and is
/// looked up by the order of policies before it is held against all others.
pub(crate) fn covering_part(
    hierarchy: &Hierarchy,
    entries: &[Entry],
    label: usize,
    policy: &Policy,
) -> Option<usize>
    requires entries { AreEntries entries.now }
    requires inside { label < length entries.now }
    ensures some { IfSome result (λ part. IsTrue (made_of entries.now label part)
        × Covers hierarchy.now (own_at entries.now part) policy.now) }
    ensures none { result ≡ None
        → ¬ Covers hierarchy.now (label_at (labels_in entries.now) label) policy.now }
{
    if flows_to_few(hierarchy, own_at(entries, label), policy) {
        return Some(label);
    }
    match part_with(entries, label, policy) {
        Some(part) => Some(part),
        None => part_above(hierarchy, entries, label, policy),
    }
}

// Whether a label covers a policy.
fn covers(hierarchy: &Hierarchy, entries: &[Entry], label: usize, policy: &Policy) -> bool
    requires entries { AreEntries entries.now }
    requires inside { label < length entries.now }
    ensures { IsTrue result ↔ Covers hierarchy.now
        (label_at (labels_in entries.now) label) policy.now }
{
    match covering_part(hierarchy, entries, label, policy) {
        Some(_) => true,
        None => false,
    }
}

// The first of some policies that a label does not cover.
fn first_uncovered<'a>(
    hierarchy: &Hierarchy,
    entries: &[Entry],
    policies: &'a [Policy],
    to: usize,
) -> Option<&'a Policy>
    requires entries { AreEntries entries.now }
    requires inside { to < length entries.now }
    ensures contained { IfSome result (λ policy. Contains policies.now policy.now) }
    ensures uncovered { IfSome result (λ policy.
        ¬ Covers hierarchy.now (label_at (labels_in entries.now) to) policy.now) }
    ensures none { (result ≡ None) ↔ FlowsTo hierarchy.now policies.now
        (label_at (labels_in entries.now) to) }
{
    for policy in policies {
        if !covers(hierarchy, entries, to, policy) {
            return Some(policy);
        }
    }
    None
}

// Whether a label is made of this one.
pub(crate) fn is_made_of(entries: &[Entry], label: usize, part: usize) -> bool
    requires { label < length entries.now }
    ensures { result ≡ made_of entries.now label part }
{
    if part == label {
        return true;
    }
    match row_at(entries, label) {
        None => false,
        Some(row) => row.contains(part),
    }
}

// The first own policy of an entry that a label does not cover. The policies of one that the label is made of are not looked at.
fn uncovered_own<'a>(
    hierarchy: &Hierarchy,
    entries: &'a [Entry],
    part: usize,
    to: usize,
) -> Option<&'a Policy>
    requires entries { AreEntries entries.now }
    requires part { part < length entries.now }
    requires to { to < length entries.now }
    ensures contained { IfSome result (λ policy. Contains (own_at entries.now part) policy.now) }
    ensures uncovered { IfSome result (λ policy.
        ¬ Covers hierarchy.now (label_at (labels_in entries.now) to) policy.now) }
    ensures none { (result ≡ None) ↔ FlowsTo hierarchy.now (own_at entries.now part)
        (label_at (labels_in entries.now) to) }
{
    if is_made_of(entries, to, part) {
        return None;
    }
    first_uncovered(hierarchy, entries, own_at(entries, part), to)
}

// The least number, from one on, that is in a row and not in another one.
pub(crate) fn next_beyond(row: &PieceRow, other: Option<&PieceRow>, from: usize) -> Option<usize>
    ensures { FirstBeyond row.now (numbers_in (option_copied other.entry)) from result }
{
    match other {
        None => row.first_from(from),
        Some(other) => row.first_beyond(other, from),
    }
}

/// A policy of one label that another one does not cover. Only entries that the other one is not made of are looked at.
pub(crate) fn find_uncovered<'a>(
    hierarchy: &Hierarchy,
    entries: &'a [Entry],
    from: usize,
    to: usize,
) -> Option<&'a Policy>
    requires entries { AreEntries entries.now }
    requires from { from < length entries.now }
    requires to { to < length entries.now }
    ensures contained { IfSome result (λ policy.
        Contains (label_at (labels_in entries.now) from) policy.now) }
    ensures uncovered { IfSome result (λ policy.
        ¬ Covers hierarchy.now (label_at (labels_in entries.now) to) policy.now) }
    ensures none { (result ≡ None) ↔ FlowsTo hierarchy.now
        (label_at (labels_in entries.now) from) (label_at (labels_in entries.now) to) }
{
    if let Some(policy) = uncovered_own(hierarchy, entries, from, to) {
        return Some(policy);
    }
    let Some(row) = row_at(entries, from) else {
        return None;
    };
    let mut at = 0;
    while let Some(part) = next_beyond(row, row_at(entries, to), at) {
        if let Some(policy) = uncovered_own(hierarchy, entries, part, to) {
            return Some(policy);
        }
        at = part + 1;
    }
    None
}

/// A number where there is a label: that of the least one where there is none.
pub(crate) fn number_inside(entries: &[Entry], number: usize) -> usize
    requires { IsTable entries.now }
    ensures inside { result < length entries.now }
    ensures same { label_at (labels_in entries.now) result
        ≡ label_at (labels_in entries.now) number }
{
    if number < entries.len() { number } else { 0 }
}
