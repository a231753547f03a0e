//! The handlers of a procedure, by the offsets that they cover.

ghost use Rattle.modules.specs.declared.declaration.Handler.{Handler as TheHandler};
ghost use Rattle.std.specs.List.{Contains};
ghost use Rattle.std.specs.Prelude.{IfNone, IfSome, OnOk, false, length, ℕ, ◌<◌, ◌^◌, ◌≡◌, ◌⊎◌, ◌≤◌};
ghost use Rattle.verifier.specs.Coverage.{IsCoverage, IsSortedByStart, Waits, left};

use crate::ends::MaximumTree;
use modules::Handler;
use std::alloc::{AllocError, Global};

/// The handlers of a procedure, of which some wait until control comes to an offset that they cover.
#[derive(Drop)]
pub(crate) struct Coverage {
    // In the order of their starts.
    pub handlers: Vec<Handler>,
    // The end of each handler that waits, and 0 for each other one.
    pub ends: MaximumTree,
    // No handler that waits covers an offset from the first one on and before the second one.
    pub quiet: (u32, u32),
}

impl Coverage {
    /// No handler.
    pub(crate) fn new(alloc: Global) -> Coverage {
        Coverage {
            handlers: Vec::new(alloc),
            ends: MaximumTree::new(alloc),
            quiet: (0, 0),
        }
    }

    /// Handlers that all wait, in place of those before. Memory is used again. Where there are none, the tree stays as it is.
    pub(crate) fn restart(&mut self, handlers: &[Handler]) -> Result<(), AllocError>
        requires { length handlers.now < 2 ^ 32 }
        ensures coverage { OnOk result (IsCoverage self.new) }
        ensures real { OnOk result ((h : TheHandler) → Waits self.new h → Contains handlers.now h) }
        ensures all { OnOk result ((h : TheHandler) (at : ℕ) →
            Contains handlers.now h → at < h.end → Waits self.new h) }
    {
        if handlers.is_empty() {
            self.handlers.clear();
            self.quiet = (0, u32::MAX);
            return Ok(());
        }
        self.quiet = (0, 0);
        sort_by_start(&mut self.handlers, handlers)?;
        self.ends.restart(self.handlers.len())?;
        for index in 0..self.handlers.len() {
            self.ends.set(index, self.handlers[index].end);
        }
        Ok(())
    }

    /// Whether a handler that waits may cover an offset.
    pub(crate) fn may_cover(&self, at: u32) -> bool
        requires { IsCoverage self.now }
        ensures { result ≡ false → (x : TheHandler) →
            Waits self.now x → x.start ≤ at → at < x.end → ⊥ }
    {
        if at < self.quiet.0 {
            return true;
        }
        if at < self.quiet.1 {
            return false;
        }
        true
    }

    /// Takes a handler that waits and covers an offset, if there is one. It waits no more. Where there is none, it is kept up to where
    /// there is none.
    pub(crate) fn take(&mut self, at: u32) -> Option<Handler>
        requires { IsCoverage self.old }
        ensures coverage { IsCoverage self.new }
        ensures waited { IfSome result (λ h. Waits self.old h) }
        ensures start { IfSome result (λ h. h.start ≤ at) }
        ensures end { IfSome result (λ h. at < h.end) }
        ensures rest { IfSome result (λ h. (x : TheHandler) →
            Waits self.old x → (x ≡ h) ⊎ Waits self.new x) }
        ensures within { (x : TheHandler) → Waits self.new x → Waits self.old x }
        ensures fewer { IfSome result (λ h. left self.new < left self.old) }
        ensures kept { IfNone result ((x : TheHandler) → Waits self.old x → Waits self.new x) }
        ensures none { IfNone result ((x : TheHandler) →
            Waits self.old x → x.start ≤ at → at < x.end → ⊥) }
    {
        if self.handlers.is_empty() {
            return None;
        }
        let Some(index) = self.ends.first_above(at) else {
            self.quiet = (at, u32::MAX);
            return None;
        };
        let handler = self.handlers[index];
        if at < handler.start {
            self.quiet = (at, handler.start);
            return None;
        }
        self.ends.set(index, 0);
        Some(handler)
    }
}

// Takes handlers in the order of their starts, in place of those before.
fn sort_by_start(sorted: &mut Vec<Handler>, handlers: &[Handler]) -> Result<(), AllocError>
    ensures { OnOk result (IsSortedByStart handlers.now sorted.new.items) }
{
    sorted.clear();
    sorted.extend_from_slice(handlers)?;
    sorted.sort_by_key(|handler| handler.start)?;
    Ok(())
}
