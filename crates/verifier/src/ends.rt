//! Numbers among which the first one above another is found in a few steps.

ghost use Rattle.std.specs.Prelude.{IfNone, IfSome, OnOk, false, ℕ, ◌+◌, ◌<◌, ◌^◌, ◌≡◌, ◌≢◌, ◌≤◌};
ghost use Rattle.verifier.specs.Coverage.{IsGreater, IsTree, leaf};

use std::alloc::{AllocError, Global};

/// Numbers as the leaves of a tree, in which each node is the greater one of its two children.
#[derive(Drop)]
pub(crate) struct MaximumTree {
    // The children of the node n are 2 n and 2 n + 1, and the leaves begin at the width.
    pub nodes: Vec<u32>,
    pub width: usize,
}

impl MaximumTree {
    /// A tree that has yet no numbers.
    pub(crate) fn new(alloc: Global) -> MaximumTree {
        MaximumTree {
            nodes: Vec::new(alloc),
            width: 0,
        }
    }

    /// At least this many numbers, each of them 0, in place of those before. Memory is used again.
    pub(crate) fn restart(&mut self, count: usize) -> Result<(), AllocError>
        requires { count ≤ 2 ^ 32 }
        ensures tree { OnOk result (IsTree self.new.nodes.items self.new.width) }
        ensures room { OnOk result (count ≤ self.new.width) }
        ensures zeros { OnOk result ((k : ℕ) → leaf self.new k ≡ 0) }
    {
        let mut width = 1;
        while width < count {
            width *= 2;
        }
        self.nodes.clear();
        self.nodes.resize(2 * width, 0)?;
        self.width = width;
        Ok(())
    }

    /// Whether one of the numbers is greater than another one.
    pub(crate) fn has_above(&self, low: u32) -> bool
        requires { IsTree self.now.nodes.items self.now.width }
        ensures { result ≡ false → (k : ℕ) → k < self.now.width → leaf self.now k ≤ low }
    {
        low < self.nodes[1]
    }

    /// The index of the first number that is greater than another one.
    pub(crate) fn first_above(&self, low: u32) -> Option<usize>
        requires { IsTree self.now.nodes.items self.now.width }
        ensures inside { IfSome result (λ index. index < self.now.width) }
        ensures above { IfSome result (λ index. low < leaf self.now index) }
        ensures first { IfSome result (λ index. (k : ℕ) → k < index → leaf self.now k ≤ low) }
        ensures none { IfNone result ((k : ℕ) → k < self.now.width → leaf self.now k ≤ low) }
    {
        if self.nodes[1] <= low {
            return None;
        }
        let mut first = 1;
        let mut node = 1;
        while first < self.width {
            first *= 2;
            node *= 2;
            if self.nodes[node] <= low {
                node += 1;
            }
        }
        Some(node - self.width)
    }

    /// Changes a number.
    pub(crate) fn set(&mut self, index: usize, number: u32)
        requires tree { IsTree self.old.nodes.items self.old.width }
        requires inside { index < self.old.width }
        ensures tree { IsTree self.new.nodes.items self.new.width }
        ensures width { self.new.width ≡ self.old.width }
        ensures changed { leaf self.new index ≡ number }
        ensures others { (k : ℕ) → k ≢ index → leaf self.new k ≡ leaf self.old k }
    {
        let mut node = self.width + index;
        self.nodes[node] = number;
        while node > 1 {
            node /= 2;
            self.nodes[node] = greater_of(self.nodes[node + node], self.nodes[node + node + 1]);
        }
    }
}

fn greater_of(one: u32, other: u32) -> u32
    ensures { IsGreater result one other }
{
    if one < other { other } else { one }
}
