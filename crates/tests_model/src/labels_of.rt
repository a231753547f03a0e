//! Labels that are made of parts: what is kept, who reads, what flows, what is joined and printed.

ghost use Rattle.labels.specs.Canonical.{IsCanonicalPolicy};
ghost use Rattle.std.specs.Prelude.{IfOk};

use common::Pair;
use labels::{Label, Policy, PrintedLabel, flows, join, laws, may_read};
use lattices::constraint_laws;
use principals::Hierarchy;
use std::alloc::{AllocError, Global};
use std::cmp::Ordering;
use std::test::Fail;

const ALICE: u32 = 0;

const BOB: u32 = 1;

const CAROL: u32 = 2;

const NOBODY: u32 = 7;

// Three principals, of whom Carol acts for Bob.
const THREE: &str = "principal Alice, Bob, Carol;\nCarol actsfor Bob;";

// Two principals who act for each other.
const CYCLE: &str = "principal Alice, Bob;\nAlice actsfor Bob; Bob actsfor Alice;";

fn policy(alloc: Global, owner: u32, readers: &[u32]) -> Result<Policy, AllocError>
    ensures { IfOk result IsCanonicalPolicy }
{
    Ok(Policy::written(owner, Vec::from_slice(alloc, readers)?))
}

// The label that is written with these owners and readers.
fn label(alloc: Global, written: &[(u32, &[u32])]) -> Result<Label, AllocError> {
    let mut policies = Vec::new(alloc);
    'each: for (owner, readers) in written {
        policies.push(policy(alloc, *owner, *readers)?)?;
    }
    Ok(Label::written(policies))
}

// `{Alice: Bob}`, `{Alice:}`, `{Bob:}`, `{Carol:}`, `{Alice:; Bob:}` and `{}`.
fn six(alloc: Global) -> Result<Vec<Label>, AllocError> {
    let mut labels = Vec::new(alloc);
    labels.push(label(alloc, &[(ALICE, &[BOB])])?)?;
    labels.push(label(alloc, &[(ALICE, &[])])?)?;
    labels.push(label(alloc, &[(BOB, &[])])?)?;
    labels.push(label(alloc, &[(CAROL, &[])])?)?;
    labels.push(label(alloc, &[(ALICE, &[]), (BOB, &[])])?)?;
    labels.push(Label::least(alloc))?;
    Ok(labels)
}

// Whether one of the labels flows to another.
fn one_flows(hierarchy: &Hierarchy, labels: &[Label], from: usize, to: usize) -> Option<bool> {
    Some(flows(hierarchy, labels.get(from)?, labels.get(to)?))
}

#[test]
fn what_flows(rt: HostRuntime) -> Result<(), Fail> {
    let hierarchy = Hierarchy::read(rt.alloc(), THREE)?;
    let labels = six(rt.alloc())?;
    for (from, to, answer) in [
        (0, 1, true),
        (1, 0, false),
        (2, 3, true),
        (3, 2, false),
        (1, 4, true),
        (4, 1, false),
        (5, 1, true),
        (1, 5, false),
        (5, 5, true),
    ] {
        let found = one_flows(&hierarchy, &labels, from, to);
        assert_eq!(rt; found, Some(answer), "{from} to {to}");
    }
    Ok(())
}

#[test]
fn what_flows_round_a_cycle(rt: HostRuntime) -> Result<(), Fail> {
    let hierarchy = Hierarchy::read(rt.alloc(), CYCLE)?;
    let labels = six(rt.alloc())?;
    for (from, to) in [(1, 2), (2, 1)] {
        assert_eq!(rt; one_flows(&hierarchy, &labels, from, to), Some(true));
    }
    // Labels that flow both ways need not be equal.
    assert!(rt; labels.get(1) != labels.get(2));
    Ok(())
}

fn one_reads(hierarchy: &Hierarchy, labels: &[Label], principal: u32, of: usize) -> Option<bool> {
    Some(may_read(hierarchy, principal, labels.get(of)?))
}

#[test]
fn who_reads(rt: HostRuntime) -> Result<(), Fail> {
    let hierarchy = Hierarchy::read(rt.alloc(), THREE)?;
    let labels = six(rt.alloc())?;
    for (principal, of, answer) in [
        (ALICE, 0, true),
        (BOB, 0, true),
        (CAROL, 0, true),
        (NOBODY, 0, false),
        (ALICE, 1, true),
        (BOB, 1, false),
        (CAROL, 1, false),
        (NOBODY, 1, false),
        (NOBODY, 5, true),
    ] {
        let found = one_reads(&hierarchy, &labels, principal, of);
        assert_eq!(rt; found, Some(answer), "{principal} reads {of}");
    }
    Ok(())
}

// Whether the policy of `{Alice: Bob}` allows Carol and flows to the one of `{Alice:}`, and not the other way round.
fn policies_answer(hierarchy: &Hierarchy, shared: &Label, own: &Label) -> Option<bool> {
    let (shared, own) = (shared.policies().first()?, own.policies().first()?);
    let allows = shared.allows(hierarchy, CAROL) && !own.allows(hierarchy, CAROL);
    let flows = shared.flows_to(hierarchy, own) && !own.flows_to(hierarchy, shared);
    Some(allows && flows)
}

#[test]
fn what_policies_allow(rt: HostRuntime) -> Result<(), Fail> {
    let hierarchy = Hierarchy::read(rt.alloc(), THREE)?;
    let labels = six(rt.alloc())?;
    let [shared, own, bobs, ..] = labels.as_slice() else {
        return Err("three labels".into());
    };
    assert_eq!(rt; policies_answer(&hierarchy, shared, own), Some(true));
    assert_eq!(rt; one_covers(&hierarchy, own, shared), Some(true));
    assert_eq!(rt; one_covers(&hierarchy, bobs, shared), Some(false));
    Ok(())
}

// Whether a label covers the first policy of another one.
fn one_covers(hierarchy: &Hierarchy, label: &Label, other: &Label) -> Option<bool> {
    Some(label.covers(hierarchy, other.policies().first()?))
}

#[test]
fn what_a_policy_keeps(rt: HostRuntime) -> Result<(), Fail> {
    let alloc = rt.alloc();
    let written = policy(alloc, ALICE, &[CAROL, ALICE, BOB, CAROL])?;
    assert_eq!(rt; written.owner(), ALICE);
    assert_eq!(rt; written.readers(), [BOB, CAROL].as_slice());
    let copy = written.clone()?;
    assert!(rt; copy == written);
    Ok(())
}

// Whether a policy with these readers is another one.
fn is_policy(alloc: Global, of: &Policy, owner: u32, readers: &[u32]) -> Result<bool, AllocError> {
    let other = policy(alloc, owner, readers)?;
    Ok(*of == other)
}

#[test]
fn which_policies_are_one(rt: HostRuntime) -> Result<(), Fail> {
    let alloc = rt.alloc();
    let of = Policy::of(ALICE, vec![in alloc; BOB, CAROL]?);
    for (owner, readers, want) in [
        (ALICE, [CAROL, BOB], true),
        (ALICE, [BOB, BOB], false),
        (BOB, [CAROL, BOB], false),
    ] {
        assert_eq!(rt; is_policy(alloc, &of, owner, &readers)?, want);
    }
    Ok(())
}

// How two policies of one owner are ordered by their readers.
fn order(alloc: Global, left: &[u32], right: &[u32]) -> Result<Ordering, AllocError> {
    let left = policy(alloc, ALICE, left)?;
    let right = policy(alloc, ALICE, right)?;
    Ok(left.cmp(&right))
}

// A list that is the front of another one is the smaller.
#[test]
fn how_policies_are_ordered(rt: HostRuntime) -> Result<(), Fail> {
    let alloc = rt.alloc();
    assert_eq!(rt; order(alloc, &[BOB], &[BOB, CAROL])?, Ordering::Less);
    assert_eq!(rt; order(alloc, &[CAROL], &[BOB, CAROL])?, Ordering::Greater);
    assert_eq!(rt; order(alloc, &[ALICE], &[])?, Ordering::Equal);
    Ok(())
}

#[test]
fn what_a_label_keeps(rt: HostRuntime) -> Result<(), Fail> {
    let alloc = rt.alloc();
    let written = label(alloc, &[(BOB, &[]), (ALICE, &[CAROL]), (BOB, &[BOB])])?;
    assert_eq!(rt; written.policies().len(), 2);
    assert!(rt; !written.is_empty());
    let copy = written.clone()?;
    assert!(rt; copy == written);
    Ok(())
}

#[test]
fn the_least_label_is_empty(rt: HostRuntime) {
    let least = Label::least(rt.alloc());
    assert!(rt; least.is_empty());
    let made = Label::of(Vec::new(rt.alloc()));
    assert!(rt; made == least);
}

// The join of two of these labels, as it is printed.
fn joined(alloc: Global, labels: &[Label], left: usize, right: usize) -> Result<String, Fail> {
    let (Some(left), Some(right)) = (labels.get(left), labels.get(right)) else {
        return Err("no label".into());
    };
    let label = join(alloc, left, right)?;
    printed(alloc, &label)
}

fn printed(alloc: Global, label: &Label) -> Result<String, Fail> {
    let hierarchy = Hierarchy::read(alloc, THREE)?;
    let printed = PrintedLabel {
        hierarchy: &hierarchy,
        label,
    };
    Ok(format!(in alloc; "{printed}")?)
}

#[test]
fn what_is_joined(rt: HostRuntime) -> Result<(), Fail> {
    let labels = six(rt.alloc())?;
    for (left, right, text) in [
        (0, 3, "{Alice: Bob; Carol:}"),
        (3, 0, "{Alice: Bob; Carol:}"),
        (0, 4, "{Alice:; Alice: Bob; Bob:}"),
        (4, 1, "{Alice:; Bob:}"),
        (0, 5, "{Alice: Bob}"),
        (5, 0, "{Alice: Bob}"),
    ] {
        let found = joined(rt.alloc(), &labels, left, right)?;
        assert!(rt; found.as_str() == text, "{text}");
    }
    Ok(())
}

#[test]
fn what_is_printed(rt: HostRuntime) -> Result<(), Fail> {
    let alloc = rt.alloc();
    let cases: [(&[(u32, &[u32])], &str); 4] = [
        (&[], "{}"),
        (&[(ALICE, &[])], "{Alice:}"),
        (
            &[(BOB, &[]), (ALICE, &[CAROL, BOB])],
            "{Alice: Bob, Carol; Bob:}",
        ),
        (&[(NOBODY, &[CAROL])], "{7: Carol}"),
    ];
    for (written, text) in cases {
        assert!(rt; is_printed(alloc, written, text)?, "{text}");
    }
    Ok(())
}

fn is_printed(alloc: Global, written: &[(u32, &[u32])], text: &str) -> Result<bool, Fail> {
    let label = label(alloc, written)?;
    let found = printed(alloc, &label)?;
    Ok(found.as_str() == text)
}

#[test]
fn the_laws_are_called(rt: HostRuntime) {
    laws::tests_decide();
    laws::labels_form_a_lattice();
    laws::flow_adds_no_reader();
    laws::join_is_read_by_readers_of_both();
    laws::only_the_set_of_policies_counts();
    laws::written_policy_keeps_its_meaning();
    laws::written_label_keeps_its_policies();
    laws::flows_are_kept();
    laws::labels_stay_themselves();
    let pair = |number| Pair { channel: 1, number };
    assert!(rt; pair(7) == pair(7) && pair(7) != pair(8));
}

#[test]
fn the_laws_of_constraints_are_called(_rt: HostRuntime) {
    constraint_laws::least_values_are_unique::<u8, u32, u32>();
    constraint_laws::what_reaches_lies_below::<u8, u32, u32>();
    constraint_laws::least_values_fit_if_any_do::<u8, u32, u32>();
    constraint_laws::a_chain_rules_out_all_values::<u8, u32, u32>();
    constraint_laws::constraints_fit_or_are_refused::<u8, u32, u32>();
    constraint_laws::gathered_constraints_fit_alike::<u8, u32, u32, u32>();
    constraint_laws::gathered_constraints_have_the_same_least_values::<u8, u32, u32, u32>();
    constraint_laws::gathered_constraints_are_refused_alike::<u8, u32, u32, u32, u8>();
}
