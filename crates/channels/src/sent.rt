ghost use Rattle.std.specs.Prelude.{◌≡◌, ◌∷◌, ◌++◌, [], OnErr, OnOk};

use common::Pair;
use std::alloc::{AllocError, Global};
use std::marker::Model;

/// The pairs of channel and number that a run has sent, in order.
#[derive(Debug, Drop)]
pub struct Sent {
    pairs: Vec<Pair>,
}

impl Model for Sent {
    ghost use Rattle.common.specs.declared.sent.Pair.{Pair};
    ghost use Rattle.std.specs.Prelude.{List};

    ghost Value = { List Pair };

    ghost view = { λ sent. sent.pairs.items };
}

impl Sent {
    /// Nothing sent so far.
    pub fn new(alloc: Global) -> Sent
        ensures { result ≡ [] }
    {
        Sent {
            pairs: Vec::new(alloc),
        }
    }

    /// Adds a pair at the end, or changes nothing where memory runs out.
    // It is not inlined, so that a loop that sends has its registers for itself.
    #[inline(never)]
    pub fn push(&mut self, pair: Pair) -> Result<(), AllocError>
        ensures accepted { OnOk result (self.new ≡ self.old ++ pair ∷ []) }
        ensures unchanged { OnErr result (self.new ≡ self.old) }
    {
        self.pairs.push(pair)?;
        Ok(())
    }

    /// The pairs.
    pub fn pairs(&self) -> &[Pair]
        ensures { result.now ≡ self.now }
    {
        &self.pairs
    }
}
