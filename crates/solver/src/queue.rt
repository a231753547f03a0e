//! Constraints that wait to be looked at, each at most once.
ghost use Rattle.solver.specs.Queue.{Added, AllSeeded, IsNext, IsSeeded, Seeds, flag, order_in};
ghost use Rattle.solver.specs.Reach.{edge as edge_of};
ghost use Rattle.solver.specs.declared.constraints.Atom.TheVariants.{Unknown};
ghost use Rattle.std.specs.Prelude.{Contains, IfOk, OnOk, [], if◌then◌else◌, length, set, true, ℕ, ◌++◌, ◌<◌, ◌∷◌, ◌≡◌};

use crate::constraints::{Atom, Constraint};
use crate::edges::{Edge, Edges};
use crate::order::order_of;
use crate::waiting::Waiting;
use std::alloc::{AllocError, Global};

/// For each constraint whether it waits, and those that do, by their indices, in order.
#[derive(Drop)]
pub struct Queue {
    pub(crate) waits: Vec<bool>,
    pub(crate) order: Waiting,
}

impl Queue {
    // A constraint waits, unless it does so already. It is inlined, so that nothing is called for each edge.
    #[inline(always)]
    fn add(&mut self, by: usize) -> Result<(), AllocError>
        requires { by < length self.old.waits.items }
        ensures waits { OnOk result (self.new.waits.items ≡ set self.old.waits.items by true) }
        ensures order { OnOk result ((order_in self.new.order) ≡ (if flag self.old.waits.items by
            then (order_in self.old.order) else ((order_in self.old.order) ++ by ∷ []))) }
    {
        if self.waits[by] {
            return Ok(());
        }
        self.waits[by] = true;
        self.order.push(by)?;
        Ok(())
    }

    // The constraint of an edge waits, if the edge leads to an unknown.
    fn add_along(&mut self, edge: Edge) -> Result<(), AllocError>
        requires { (i u : ℕ) → Contains (edge ∷ []) (edge_of i (Unknown u))
            → i < length self.old.waits.items }
        ensures { OnOk result (Added (edge ∷ []) self.old.waits.items (order_in self.old.order)
            self.new.waits.items (order_in self.new.order)) }
    {
        if let Atom::Unknown(_) = edge.to {
            self.add(edge.by)?;
            return Ok(());
        }
        Ok(())
    }

    /// So do those of all these edges.
    pub fn add_all(&mut self, edges: &[Edge]) -> Result<(), AllocError>
        requires { (i u : ℕ) → Contains edges.now (edge_of i (Unknown u))
            → i < length self.old.waits.items }
        ensures { OnOk result (Added edges.now self.old.waits.items (order_in self.old.order)
            self.new.waits.items (order_in self.new.order)) }
    {
        for edge in edges {
            self.add_along(*edge)?;
        }
        Ok(())
    }

    // A constraint waits, if there is one with this index whose right side is an unknown.
    fn seed<T>(&mut self, constraints: &[Constraint<T>], by: usize) -> Result<(), AllocError>
        requires { IsSeeded constraints.now self.old.waits.items (order_in self.old.order) }
        ensures seeded { OnOk result (IsSeeded constraints.now
            self.new.waits.items (order_in self.new.order)) }
        ensures kept { OnOk result (Seeds constraints.now by
            self.old.waits.items self.new.waits.items) }
    {
        if by >= constraints.len() {
            return Ok(());
        }
        if self.waits[by] {
            return Ok(());
        }
        if let Atom::Unknown(_) = constraints[by].right {
            self.add(by)?;
            return Ok(());
        }
        Ok(())
    }

    /// The constraint that waited first. It does not wait any more.
    pub fn next(&mut self) -> Option<usize>
        requires { (i : ℕ) → Contains (order_in self.old.order) i → i < length self.old.waits.items }
        ensures { IsNext self.old.waits.items (order_in self.old.order)
            self.new.waits.items (order_in self.new.order) result }
    {
        let by = self.order.take()?;
        self.waits[by] = false;
        Some(by)
    }
}

/// All constraints whose right side is an unknown, along the flow where that matters, or in their order.
pub fn all_queued<T>(
    alloc: Global,
    edges: &Edges,
    constraints: &[Constraint<T>],
) -> Result<Queue, AllocError>
    ensures { IfOk result (λ queue. AllSeeded constraints.now
        queue.waits.items (order_in queue.order)) }
{
    let count = constraints.len();
    let order = order_of(alloc, edges, count)?;
    let mut queue = Queue {
        waits: vec![in alloc; false; count]?,
        order: Waiting::with_capacity(alloc, count)?,
    };
    'ordered: for by in &order {
        queue.seed(constraints, *by)?;
    }
    // Whatever the order is, each of them waits.
    'all: for by in 0..count {
        queue.seed(constraints, by)?;
    }
    Ok(queue)
}
