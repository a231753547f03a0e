//! Labels by their numbers: which texts give one label, what flows, what is joined.

ghost use Rattle.labels.specs.Canonical.{IsCanonicalPolicy};
ghost use Rattle.std.specs.Prelude.{All, IfOk};

use labels::{Label, LabelTable, Policy};
use principals::Hierarchy;
use std::alloc::{AllocError, Global};
use std::test::Fail;

const ALICE: u32 = 0;

const BOB: u32 = 1;

const CAROL: u32 = 2;

// Three principals, of whom Carol acts for Bob.
const THREE: &str = "principal Alice, Bob, Carol;\nCarol actsfor Bob;";

// The policy `{owner:}`.
fn alone(alloc: Global, owner: u32) -> Policy
    ensures { IsCanonicalPolicy result }
{
    Policy::written(owner, Vec::new(alloc))
}

// The policies `{owner:}` of these owners.
fn owned(alloc: Global, owners: &[u32]) -> Result<Vec<Policy>, AllocError>
    ensures { IfOk result (λ policies. All IsCanonicalPolicy policies.items) }
{
    let mut policies = Vec::new(alloc);
    for owner in owners {
        policies.push(alone(alloc, *owner))?;
    }
    Ok(policies)
}

// The number of the label with these owners' policies and these names.
fn add(alloc: Global, table: &mut LabelTable, owners: &[u32], named: &[u32]) -> Result<u32, Fail> {
    let own = owned(alloc, owners)?;
    if table.len() > 1000 {
        return Err("too many labels".into());
    }
    Ok(table.add(own, Vec::from_slice(alloc, named)?)?)
}

// A table of `{Alice:}`, `{Bob:}`, that and the first, those and `{Carol:}`.
fn four(alloc: Global) -> Result<LabelTable, Fail> {
    let mut table = LabelTable::new(alloc)?;
    add(alloc, &mut table, &[ALICE], &[])?;
    add(alloc, &mut table, &[BOB], &[])?;
    add(alloc, &mut table, &[BOB], &[1])?;
    add(alloc, &mut table, &[CAROL], &[3])?;
    Ok(table)
}

#[test]
fn equal_texts_have_one_number(rt: HostRuntime) -> Result<(), Fail> {
    let alloc = rt.alloc();
    let mut table = four(alloc)?;
    assert_eq!(rt; table.len(), 5);
    let cases: [(&[u32], &[u32], u32); 9] = [
        (&[], &[], 0),
        (&[], &[0], 0),
        (&[], &[70], 0),
        (&[ALICE, ALICE], &[], 1),
        (&[], &[3, 0, 3], 3),
        (&[BOB], &[0], 2),
        (&[BOB], &[1, 1, 9], 3),
        (&[CAROL], &[3], 4),
        (&[CAROL], &[1], 5),
    ];
    for (own, named, number) in cases {
        let found = add(alloc, &mut table, own, named)?;
        assert_eq!(rt; found, number);
    }
    assert_eq!(rt; table.len(), 6);
    Ok(())
}

#[test]
fn labels_flow_by_number(rt: HostRuntime) -> Result<(), Fail> {
    let alloc = rt.alloc();
    let hierarchy = Hierarchy::read(alloc, THREE)?;
    let table = four(alloc)?;
    for (from, to, flows) in [
        (0, 1, true),
        (1, 0, false),
        (1, 2, false),
        (1, 3, true),
        (3, 1, false),
        (2, 3, true),
        (2, 4, true),
        (3, 4, true),
        (4, 3, false),
        (4, 4, true),
        (4, 70, false),
        (70, 1, true),
    ] {
        assert_eq!(rt; table.flows(&hierarchy, from, to), flows, "{from} to {to}");
        let found = table.find_uncovered(&hierarchy, from, to);
        assert_eq!(rt; found.is_none(), flows, "{from} to {to}");
    }
    Ok(())
}

// The owner of the policy of a label that another one does not cover.
#[test]
fn what_is_not_covered_is_found(rt: HostRuntime) -> Result<(), Fail> {
    let alloc = rt.alloc();
    let hierarchy = Hierarchy::read(alloc, THREE)?;
    let table = four(alloc)?;
    for (from, to, owner) in [(4, 3, CAROL), (3, 1, BOB), (3, 2, ALICE), (4, 0, CAROL)] {
        let found = table.find_uncovered(&hierarchy, from, to);
        assert_eq!(rt;
            found.map(|policy| policy.owner()),
            Some(owner),
            "{from} to {to}"
        );
    }
    Ok(())
}

// Whether a label has the policies of these owners.
fn is_owned(alloc: Global, label: &Label, owners: &[u32]) -> Result<bool, AllocError> {
    let other = Label::written(owned(alloc, owners)?);
    Ok(*label == other)
}

#[test]
fn labels_are_joined_by_number(rt: HostRuntime) -> Result<(), Fail> {
    let alloc = rt.alloc();
    let table = four(alloc)?;
    let cases: [(&[usize], &[u32]); 6] = [
        (&[], &[]),
        (&[2], &[BOB]),
        (&[2, 1], &[ALICE, BOB]),
        (&[3], &[ALICE, BOB]),
        (&[4, 0, 2], &[ALICE, BOB, CAROL]),
        (&[70, 1], &[ALICE]),
    ];
    for (numbers, owners) in cases {
        let label = table.join(alloc, numbers)?;
        assert!(rt; is_owned(alloc, &label, owners)?);
    }
    let label = table.label(alloc, 4)?;
    assert!(rt; is_owned(alloc, &label, &[ALICE, BOB, CAROL])?);
    Ok(())
}
