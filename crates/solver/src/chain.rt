//! The chain back from a constraint to the written element that reaches it.
ghost use Rattle.solver.specs.Reach.{EndsAt, IsTrail, LeadsOn, ParentsFall};
ghost use Rattle.solver.specs.declared.edges.Edges.{Edges};
ghost use Rattle.solver.specs.declared.constraints.Atom.{Atom};
ghost use Rattle.solver.specs.declared.constraints.Atom.TheVariants.{Written};
ghost use Rattle.std.specs.Prelude.{IfOk, length, ℕ, ◌≤◌};

use crate::search::Found;
use std::alloc::{AllocError, Global};

/// The constraints, by their indices, from the written element whose trace this is to a last constraint, which is entered from this
/// parent: 0 for the written element itself, or one more than the index of what was found.
pub fn chain_to(
    alloc: Global,
    found: &[Found],
    parent: usize,
    last: usize,
) -> Result<Vec<usize>, AllocError>
    requires parent { parent ≤ length found.now }
    requires falls { ParentsFall found.now }
    ensures { IfOk result (λ chain. (edges : Edges) (n : ℕ) (to : Atom) →
        IsTrail edges n found.now → EndsAt edges n found.now parent last to →
        LeadsOn edges (Written n) chain.items last to) }
{
    let mut chain = Vec::new(alloc);
    chain.push(last)?;
    let mut at = parent;
    while at > 0 {
        let step = found[at - 1];
        chain.push(step.by)?;
        at = step.parent;
    }
    chain.reverse();
    Ok(chain)
}
