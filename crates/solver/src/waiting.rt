//! Numbers that wait, in the order in which they came.
ghost use Rattle.solver.specs.Queue.{order_in};
ghost use Rattle.std.specs.Prelude.{IfOk, IfSome, None, OnOk, [], ◌++◌, ◌∷◌, ◌≡◌};

use std::alloc::{AllocError, Global};
use std::mem::swap;

/// Numbers in the order in which they came. Those that come while earlier ones are taken are put behind one another, and are the first
/// ones once all of those are taken: so none is moved.
#[derive(Drop)]
pub(crate) struct Waiting {
    pub(crate) first: Vec<usize>,
    // How many of the first ones were taken.
    pub(crate) taken: usize,
    pub(crate) later: Vec<usize>,
}

// Makes the later numbers the first ones, once all of these were taken.
fn turn(first: &mut Vec<usize>, later: &mut Vec<usize>)
    ensures first { first.new.items ≡ later.old.items }
    ensures later { later.new.items ≡ [] }
{
    swap(first, later);
    later.clear();
}

impl Waiting {
    /// No numbers, with room for so many.
    pub(crate) fn with_capacity(alloc: Global, count: usize) -> Result<Waiting, AllocError>
        ensures { IfOk result (λ waiting. order_in waiting ≡ []) }
    {
        Ok(Waiting {
            first: Vec::new(alloc),
            taken: 0,
            later: Vec::with_capacity(alloc, count)?,
        })
    }

    /// Adds a number as the last one.
    #[inline(always)]
    pub(crate) fn push(&mut self, number: usize) -> Result<(), AllocError>
        ensures { OnOk result (order_in self.new ≡ order_in self.old ++ number ∷ []) }
    {
        self.later.push(number)?;
        Ok(())
    }

    /// Takes the first number.
    pub(crate) fn take(&mut self) -> Option<usize>
        ensures none { result ≡ None → order_in self.old ≡ [] }
        ensures none_left { result ≡ None → order_in self.new ≡ [] }
        ensures some { IfSome result (λ number.
            order_in self.old ≡ number ∷ order_in self.new) }
    {
        if self.taken >= self.first.len() {
            turn(&mut self.first, &mut self.later);
            self.taken = 0;
        }
        if self.taken >= self.first.len() {
            return None;
        }
        let number = self.first[self.taken];
        self.taken += 1;
        Some(number)
    }
}
