//! Lookups by number and by name in a hierarchy, and the laws of acts-for.

use common::limits::MAX_TEXT;
use lexer::is_name;
use principals::laws::PrincipalRelation;
use principals::{HierFault, Hierarchy, laws};
use std::alloc::Global;
use std::test::Fail;

const THREE: &str = "principal Alice, Bob, Carol;\nCarol actsfor Bob;";

// Everybody is related to everybody.
struct Everybody;

impl PrincipalRelation for Everybody {
    ghost related = { λ _ _. Unit {0} };
}

#[test]
fn the_laws_are_called(_rt: HostRuntime) {
    laws::acts_for_decides();
    laws::acts_for_is_least::<Everybody>();
    laws::acts_for_is_monotone();
    laws::names_are_names();
    laws::one_reading();
}

#[test]
fn looks_up_names(rt: HostRuntime) -> Result<(), Fail> {
    let hierarchy = Hierarchy::read(rt.alloc(), THREE)?;
    assert_eq!(rt; hierarchy.count(), 3);
    assert_eq!(rt; hierarchy.names().len(), 3);
    assert_eq!(rt; hierarchy.pairs(), [(2, 1)].as_slice());
    for (name, number) in [("Alice", Some(0)), ("Carol", Some(2)), ("alice", None)] {
        assert_eq!(rt; hierarchy.find(name), number, "{name}");
    }
    for (number, name) in [(1, Some("Bob")), (3, None)] {
        assert!(rt; hierarchy.name(number) == name, "{number}");
    }
    Ok(())
}

#[test]
fn a_copy_knows_who_acts_for_whom(rt: HostRuntime) -> Result<(), Fail> {
    let hierarchy = Hierarchy::read(rt.alloc(), THREE)?;
    let copy = hierarchy.clone()?;
    for (a, b, want) in [
        (0, 0, true),
        (2, 1, true),
        (1, 2, false),
        (0, 1, false),
        (7, 7, true),
        (7, 0, false),
        (0, 7, false),
        (300, 300, true),
        (4294967295, 4294967295, true),
        (2, 4294967295, false),
    ] {
        assert_eq!(rt; copy.acts_for(a, b), want, "at {a} and {b}");
    }
    Ok(())
}

// Whether the hierarchy of one text contains that of another.
fn contains(alloc: Global, all: &str, part: &str) -> Result<bool, HierFault> {
    let all = Hierarchy::read(alloc, all)?;
    let part = Hierarchy::read(alloc, part)?;
    Ok(all.contains(&part))
}

#[test]
fn contains_by_name(rt: HostRuntime) -> Result<(), Fail> {
    let apart = "principal Alice, Bob, Carol;";
    let cycle = "principal Alice, Bob; Alice actsfor Bob; Bob actsfor Alice;";
    let larger = "principal Alice, Bob, Carol, Dave; Carol actsfor Dave; Dave actsfor Bob;";
    let turned = "principal Dave, Carol, Bob, Alice; Carol actsfor Bob; Dave actsfor Alice;";
    for (all, part, want) in [
        (larger, THREE, true),
        (THREE, larger, false),
        (apart, THREE, false),
        (THREE, apart, true),
        (turned, THREE, true),
        (cycle, apart, false),
        (apart, cycle, false),
        (cycle, "principal Bob, Alice; Bob actsfor Alice;", true),
        (cycle, "", true),
    ] {
        let found = contains(rt.alloc(), all, part)?;
        assert_eq!(rt; found, want, "{all} and {part}");
    }
    Ok(())
}

#[test]
fn takes_names_and_pairs(rt: HostRuntime) -> Result<(), Fail> {
    let alloc = rt.alloc();
    let name = "A";
    assert!(rt; is_name(name));
    let names = vec![in alloc; String::from_str(alloc, name)?]?;
    let pairs = vec![in alloc; (0, 0)]?;
    let hierarchy = Hierarchy::of(alloc, names, pairs)?;
    assert_eq!(rt; hierarchy.find("A"), Some(0));
    for (a, b, want) in [(0, 0, true), (0, 1, false)] {
        assert_eq!(rt; hierarchy.acts_for(a, b), want);
    }
    Ok(())
}

#[test]
fn knows_the_longest_text(rt: HostRuntime) {
    assert_eq!(rt; MAX_TEXT, 1_048_576);
}
