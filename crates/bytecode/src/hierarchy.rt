//! Reading of hierarchies and labels.

ghost use Rattle.modules.specs.ByteFormat.{Counted, read};
ghost use Rattle.modules.specs.Format.{any, hierarchy, label, number_below};
ghost use Rattle.modules.specs.FormatParts.{pair_after, policy_after, principals, reader_after};
ghost use Rattle.bytecode.specs.Reading.{Decodes, texts};

use crate::names::read_first_names;
use crate::reading::{Element, FieldFault, read_each, read_number, refuse};
use common::limits::MAX_PRINCIPALS;
use labels::{Label, Policy};
use modules::FormatRefusalKind;
use principals::Hierarchy;
use std::alloc::Global;

/// The number of one of this many things.
#[tactic(auto, unfolding(modules::specs::Format::number_below))]
fn read_number_below(count: u32, bytes: &[u8]) -> Result<(u32, &[u8]), FieldFault>
    ensures { Decodes (λ x. (x.0, x.1.now)) result (read (number_below count) bytes.now) }
{
    let (number, rest) = read_number(bytes)?;
    if number >= count {
        return Err(refuse(FormatRefusalKind::BadValue, bytes));
    }
    Ok((number, rest))
}

/// The names of the principals after their count.
#[tactic(auto, unfolding(modules::specs::FormatParts::principals))]
fn read_principals(alloc: Global, bytes: &[u8]) -> Result<(Vec<String>, &[u8]), FieldFault>
    ensures { Decodes (λ x. (texts x.0.items, x.1.now)) result (read principals bytes.now) }
{
    let (count, rest) = read_number(bytes)?;
    if count > MAX_PRINCIPALS {
        return Err(refuse(FormatRefusalKind::BadValue, bytes));
    }
    read_first_names(alloc, count, rest)
}

/// A pair's field among this many principals.
#[derive(Drop)]
struct PairField {
    principals: u32,
}

impl Element for PairField {
    type Item = (u32, u32);

    type State = ();

    ghost reads = { λ self before bytes. read (pair_after self.principals before) bytes };

    ghost holds = { λ self state before. Unit {0} };

    #[tactic(auto, unfolding(modules::specs::FormatParts::pair_after))]
    fn read<'a>(
        &self,
        _alloc: Global,
        _state: &mut (),
        before: &[(u32, u32)],
        bytes: &'a [u8],
    ) -> Result<((u32, u32), &'a [u8]), FieldFault> {
        let (first, rest) = read_number_below(self.principals, bytes)?;
        let (second, rest) = read_number_below(self.principals, rest)?;
        let pair = (first, second);
        if let Some(last) = before.last()
            && *last >= pair
        {
            return Err(refuse(FormatRefusalKind::NotCanonical, bytes));
        }
        Ok((pair, rest))
    }
}

/// A reader's field among this many principals, in a policy of the owner.
#[derive(Drop)]
struct ReaderField {
    principals: u32,
    owner: u32,
}

impl Element for ReaderField {
    type Item = u32;

    type State = ();

    ghost reads = { λ self before bytes. read (reader_after self.principals self.owner before)
        bytes };

    ghost holds = { λ self state before. Unit {0} };

    #[tactic(auto, unfolding(modules::specs::FormatParts::reader_after))]
    fn read<'a>(
        &self,
        _alloc: Global,
        _state: &mut (),
        before: &[u32],
        bytes: &'a [u8],
    ) -> Result<(u32, &'a [u8]), FieldFault> {
        let (reader, rest) = read_number_below(self.principals, bytes)?;
        if reader == self.owner {
            return Err(refuse(FormatRefusalKind::NotCanonical, bytes));
        }
        if let Some(last) = before.last()
            && *last >= reader
        {
            return Err(refuse(FormatRefusalKind::NotCanonical, bytes));
        }
        Ok((reader, rest))
    }
}

/// A policy's field among this many principals.
#[derive(Drop)]
struct PolicyField {
    principals: u32,
}

impl Element for PolicyField {
    type Item = Policy;

    type State = ();

    ghost reads = { λ self before bytes. read (policy_after self.principals before) bytes };

    ghost holds = { λ self state before. Unit {0} };

    #[tactic(auto, unfolding(modules::specs::FormatParts::policy_after, modules::specs::Format::policy, modules::specs::FormatParts::reader_after))]
    fn read<'a>(
        &self,
        alloc: Global,
        _state: &mut (),
        before: &[Policy],
        bytes: &'a [u8],
    ) -> Result<(Policy, &'a [u8]), FieldFault> {
        let principals = self.principals;
        let (owner, rest) = read_number_below(principals, bytes)?;
        let (readers, rest) = read_readers(alloc, principals, owner, rest)?;
        let policy = Policy::of(owner, readers);
        if let Some(last) = before.last()
            && *last >= policy
        {
            return Err(refuse(FormatRefusalKind::NotCanonical, bytes));
        }
        Ok((policy, rest))
    }
}

/// The readers of a policy after their count.
fn read_readers(
    alloc: Global,
    principals: u32,
    owner: u32,
    bytes: &[u8],
) -> Result<(Vec<u32>, &[u8]), FieldFault>
    ensures { Decodes (λ x. (x.0.items, x.1.now)) result
        (read (Counted any (reader_after principals owner)) bytes.now) }
{
    let (count, rest) = read_number(bytes)?;
    read_each(alloc, &ReaderField { principals, owner }, (), count, rest)
}

/// The policies of a label after their count.
#[tactic(auto, unfolding(modules::specs::Format::label, modules::specs::FormatParts::policy_after))]
fn read_policies(
    alloc: Global,
    principals: u32,
    bytes: &[u8],
) -> Result<(Vec<Policy>, &[u8]), FieldFault>
    ensures { Decodes (λ x. (x.0.items, x.1.now)) result (read (label principals) bytes.now) }
{
    let (count, rest) = read_number(bytes)?;
    read_each(alloc, &PolicyField { principals }, (), count, rest)
}

/// A label among this many principals.
pub(crate) fn read_label(
    alloc: Global,
    principals: u32,
    bytes: &[u8],
) -> Result<(Label, &[u8]), FieldFault>
    ensures { Decodes (λ x. (x.0, x.1.now)) result (read (label principals) bytes.now) }
{
    let (policies, rest) = read_policies(alloc, principals, bytes)?;
    Ok((Label::of(policies), rest))
}

/// The written pairs among this many principals, after their count.
fn read_pairs(
    alloc: Global,
    principals: u32,
    bytes: &[u8],
) -> Result<(Vec<(u32, u32)>, &[u8]), FieldFault>
    ensures { Decodes (λ x. (x.0.items, x.1.now)) result (read (Counted any (pair_after principals))
        bytes.now) }
{
    let (count, rest) = read_number(bytes)?;
    read_each(alloc, &PairField { principals }, (), count, rest)
}

/// The hierarchy.
#[tactic(auto, unfolding(modules::specs::Format::hierarchy, modules::specs::FormatParts::principals))]
pub(crate) fn read_hierarchy(alloc: Global, bytes: &[u8]) -> Result<(Hierarchy, &[u8]), FieldFault>
    ensures { Decodes (λ x. (x.0, x.1.now)) result (read hierarchy bytes.now) }
{
    let (names, rest) = read_principals(alloc, bytes)?;
    let (pairs, rest) = read_pairs(alloc, names.len() as u32, rest)?;
    Ok((Hierarchy::of(alloc, names, pairs)?, rest))
}
