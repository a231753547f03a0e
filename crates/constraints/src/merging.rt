//! Inner constraints with one right side, whose parts are kept together.
ghost use Rattle.constraints.specs.Following.{IsOver};
ghost use Rattle.constraints.specs.Merging.{AreTaken, HasMore, parts_at, parts_of, rows_of};
ghost use Rattle.std.specs.Prelude.{IfOk, OnOk, [], length, ℕ, ◌∷◌, ◌≡◌};

use crate::following::Following;
use resolved::target::Target;
use solver::{Atom, Constraint};
use std::alloc::{AllocError, Global};

/// What flows to an unknown: unknowns and written labels.
#[derive(Drop)]
pub struct Parts {
    pub unknowns: Vec<Atom>,
    pub written: Vec<Atom>,
}

/// This many unknowns to which nothing flows.
pub(crate) fn no_parts(alloc: Global, count: usize) -> Result<Vec<Parts>, AllocError>
    ensures nothing { IfOk result (λ kept. (k : ℕ) → parts_at (rows_of kept.items) k ≡ []) }
    ensures count { IfOk result (λ kept. length kept.items ≡ count) }
{
    let mut kept = Vec::with_capacity(alloc, count)?;
    for _i in 0..count {
        kept.push(Parts {
            unknowns: Vec::new(alloc),
            written: Vec::new(alloc),
        })?;
    }
    Ok(kept)
}

// Adds a part, unless it is the last one or flows on to that, which is left out where it flows on to the new one.
fn add_part(part: Atom, following: &Following, parts: &mut Vec<Atom>) -> Result<(), AllocError>
    ensures { OnOk result (HasMore (IsOver following.now) (part ∷ [])
        parts.old.items parts.new.items) }
{
    let Some(last) = parts.pop() else {
        parts.push(part)?;
        return Ok(());
    };
    if following.leads(last, part) {
        parts.push(part)?;
        return Ok(());
    }
    parts.push(last)?;
    if !following.leads(part, last) {
        parts.push(part)?;
    }
    Ok(())
}

// Adds a part to those that are kept for an unknown.
fn add(part: Atom, following: &Following, parts: &mut Parts) -> Result<(), AllocError>
    ensures { OnOk result (HasMore (IsOver following.now) (part ∷ [])
        (parts_of parts.old) (parts_of parts.new)) }
{
    match part {
        Atom::Unknown(_) => add_part(part, following, &mut parts.unknowns),
        Atom::Written(_) => add_part(part, following, &mut parts.written),
    }
}

// Adds the parts of a left side.
fn add_all(left: &[Atom], following: &Following, parts: &mut Parts) -> Result<(), AllocError>
    ensures { OnOk result (HasMore (IsOver following.now) left.now
        (parts_of parts.old) (parts_of parts.new)) }
{
    for part in left {
        add(*part, following, parts)?;
    }
    Ok(())
}

// Keeps the parts of a constraint for its right side, or has it stay as it is, where none are kept for that.
fn take(
    constraint: Constraint<Option<Target>>,
    following: &Following,
    kept: &mut Vec<Parts>,
    rest: &mut Vec<Constraint<Option<Target>>>,
) -> Result<(), AllocError>
    ensures taken { OnOk result (AreTaken (IsOver following.now) (constraint ∷ [])
        (rows_of kept.old.items) (rows_of kept.new.items) rest.old.items rest.new.items) }
    ensures count { OnOk result (length kept.new.items ≡ length kept.old.items) }
{
    if let Atom::Unknown(number) = constraint.right {
        let at = number as usize;
        if at < kept.len() {
            return add_all(&constraint.left, following, &mut kept[at]);
        }
    }
    rest.push(constraint)?;
    Ok(())
}

/// Keeps the parts of constraints for their right sides. Those stay as they are for whose right sides none are kept.
pub(crate) fn take_all(
    constraints: Vec<Constraint<Option<Target>>>,
    following: &Following,
    kept: &mut Vec<Parts>,
    rest: &mut Vec<Constraint<Option<Target>>>,
) -> Result<(), AllocError>
    ensures taken { OnOk result (AreTaken (IsOver following.now) constraints.items
        (rows_of kept.old.items) (rows_of kept.new.items) rest.old.items rest.new.items) }
    ensures count { OnOk result (length kept.new.items ≡ length kept.old.items) }
{
    for constraint in constraints {
        take(constraint, following, kept, rest)?;
    }
    Ok(())
}
