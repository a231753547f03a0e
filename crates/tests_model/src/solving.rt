//! Constraints over labels, solved and refused.

ghost use Rattle.solver.specs.Links.{InRange};
ghost use Rattle.std.specs.Prelude.{IfOk, [], length, ◌∷◌, ◌<◌, ◌≡◌};

use common::OrNoMemory;
use labels::{Label, LabelLattice, Policy};
use principals::Hierarchy;
use solver::{Atom, Constraint, Constraints, Left, Rule, solve};
use std::alloc::{AllocError, Global};
use std::test::Fail;

// The label that Alice alone may read.
fn secret(alloc: Global) -> Result<Label, AllocError> {
    let policies = vec![in alloc; Policy::written(0, Vec::new(alloc))]?;
    Ok(Label::written(policies))
}

// What is on the left flows to what is on the right.
fn flow(alloc: Global, left: Atom, right: Atom) -> Result<Constraint<u8>, AllocError>
    ensures left { IfOk result (λ c. c.left.items ≡ left ∷ []) }
    ensures right { IfOk result (λ c. c.right ≡ right) }
{
    Ok(Constraint {
        at: 0,
        rule: Rule::Assignment,
        left: Left::from_slice(alloc, &[left])?,
        target: 0,
        right,
    })
}

// The secret flows to an unknown, and that to the secret or to everybody.
fn system(alloc: Global, to: u32) -> Result<Constraints<Label, u8>, AllocError>
    requires { to < 2 }
    ensures { IfOk result (λ system. InRange (length system.written.items) system.unknowns
        system.constraints.items) }
{
    let first = flow(alloc, Atom::Written(0), Atom::Unknown(0))?;
    let second = flow(alloc, Atom::Unknown(0), Atom::Written(to))?;
    Ok(Constraints {
        written: vec![in alloc; secret(alloc)?, Label::least(alloc)]?,
        unknowns: 1,
        constraints: vec![in alloc; first, second]?,
    })
}

#[test]
fn solves(rt: HostRuntime) -> Result<(), Fail> {
    let alloc = rt.alloc();
    let hierarchy = Hierarchy::read(alloc, "principal Alice;")?;
    let lattice = LabelLattice {
        hierarchy: &hierarchy,
    };
    let system = system(alloc, 0)?;
    let solution = solve(alloc, &lattice, &system)?;
    assert!(rt; solution.value(alloc, &lattice, &system.written, 0).is_ok());
    Ok(())
}

#[test]
fn refuses(rt: HostRuntime) -> Result<(), Fail> {
    let alloc = rt.alloc();
    let hierarchy = Hierarchy::read(alloc, "principal Alice;")?;
    let lattice = LabelLattice {
        hierarchy: &hierarchy,
    };
    let system = system(alloc, 1)?;
    let answer = solve(alloc, &lattice, &system);
    assert!(rt; matches!(&answer, Err(OrNoMemory::Refused(_))));
    Ok(())
}

// A label of its own flows into each of three unknowns, and these flow round a circle.
fn circle(alloc: Global) -> Result<Vec<Constraint<u8>>, AllocError>
    ensures { IfOk result (λ constraints. InRange 3 3 constraints.items) }
{
    let mut constraints = Vec::with_capacity(alloc, 6)?;
    'written: for n in 0..3u32 {
        constraints.push(flow(alloc, Atom::Written(n), Atom::Unknown(n))?)?;
    }
    'copies: for n in 0..3u32 {
        constraints.push(flow(alloc, Atom::Unknown((n + 1) % 3), Atom::Unknown(n))?)?;
    }
    Ok(constraints)
}

// The labels that one of three principals alone may read.
fn secrets(alloc: Global) -> Result<Vec<Label>, AllocError>
    ensures { IfOk result (λ labels. length labels.items ≡ 3) }
{
    let mut labels = Vec::with_capacity(alloc, 3)?;
    for owner in 0..3u32 {
        let policies = vec![in alloc; Policy::written(owner, Vec::new(alloc))]?;
        labels.push(Label::written(policies))?;
    }
    Ok(labels)
}

#[test]
fn looks_again_around_a_circle(rt: HostRuntime) -> Result<(), Fail> {
    let alloc = rt.alloc();
    let hierarchy = Hierarchy::read(alloc, "principal Alice, Bob, Carol;")?;
    let lattice = LabelLattice {
        hierarchy: &hierarchy,
    };
    let system = Constraints {
        written: secrets(alloc)?,
        unknowns: 3,
        constraints: circle(alloc)?,
    };
    let solution = solve(alloc, &lattice, &system)?;
    assert!(rt; solution.looks() > 6);
    Ok(())
}
