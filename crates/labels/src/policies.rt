//! A policy: one owner's word on who may read.
ghost use Rattle.labels.specs.Canonical.{IsCanonicalPolicy, policy_cmp, written_policy};
ghost use Rattle.labels.specs.Inside.{IsRowOf};
ghost use Rattle.labels.specs.PolicyOrder.{policy_cmp-partial, policy_cmp-total, policy_eq, policy_eq-equivalence, policy_eq-partial};
ghost use Rattle.std.proofs.Common.{refl};
ghost use Rattle.std.specs.List.Sorted.{IsStrictlyIncreasing};
ghost use Rattle.std.specs.Ordering.{as_partial_cmp};
ghost use Rattle.std.specs.Prelude.{Contains, IsTrue, ◌↔◌, ◌≡◌};

use principals::PrincipalSet;
use std::alloc::AllocError;
use std::cmp::Ordering;
use std::marker::Model;

/// A policy of the decentralized label model (Myers and Liskov 1997): an owner, and the readers whom it allows beside itself,
/// by the numbers of principals. The readers ascend, each once, and leave out the owner, who reads anyway.
#[derive(Debug, Drop)]
pub struct Policy {
    owner: u32,
    readers: Vec<u32>,
    // The readers that can be principals once more, as bits, so that a test whether one is acted for takes a few steps.
    row: PrincipalSet,
}

impl Model for Policy {
    ghost use Rattle.labels.specs.Label.{ReaderPolicy};

    ghost Value = { ReaderPolicy };

    ghost use Rattle.labels.specs.Inside.{policy_of, IsStoredPolicy};

    ghost view = { policy_of };

    ghost invariant = { IsStoredPolicy };
}

impl Policy {
    /// The policy of these parts. Precondition: the readers ascend, each once, without the owner among them.
    pub fn of(owner: u32, readers: Vec<u32>) -> Policy
        requires ascending { IsStrictlyIncreasing readers.items }
        requires owner_left_out { ¬ Contains readers.items owner }
        ensures { result ≡ record { owner = owner; readers = readers.items } }
    {
        let row = PrincipalSet::of(readers.as_slice());
        Policy {
            owner,
            readers,
            row,
        }
    }

    /// The policy that is written with these parts: the readers in any order and any number of times, the owner among them or
    /// not.
    pub fn written(owner: u32, mut readers: Vec<u32>) -> Policy
        ensures { result ≡ written_policy owner readers.items }
    {
        readers.sort_unstable();
        readers.dedup();
        readers.retain(|reader| *reader != owner);
        Policy::of(owner, readers)
    }

    /// The owner's number.
    pub fn owner(&self) -> u32
        ensures { result ≡ self.now.owner }
    {
        self.owner
    }

    /// The numbers of the readers beside the owner, in ascending order.
    pub fn readers(&self) -> &[u32]
        ensures readers { result.now ≡ self.now.readers }
        ensures canonical { IsCanonicalPolicy self.now }
    {
        self.readers.as_slice()
    }

    // The readers below the greatest number of principals, as bits.
    pub(crate) fn row(&self) -> &PrincipalSet
        ensures { IsRowOf self.now.readers result.now }
    {
        &self.row
    }
}

impl Clone for Policy {
    ghost is_clone = { λ policy copy. copy ≡ policy };

    fn clone(&self) -> Result<Policy, AllocError> {
        let Policy {
            owner,
            readers,
            row,
        } = self;
        Ok(Policy {
            owner: *owner,
            readers: readers.clone()?,
            row: *row,
        })
    }
}

impl PartialEq for Policy {
    ghost eq = { policy_eq };

    ghost laws = { policy_eq-partial };

    fn eq(&self, other: &Policy) -> bool
        ensures order { result ≡ policy_eq self.now other.now }
        ensures same { IsTrue result ↔ (self.now ≡ other.now) }
    {
        self.cmp(other).is_eq()
    }
}

impl Eq for Policy {
    ghost laws = { policy_eq-equivalence };
}

impl PartialOrd for Policy {
    ghost partial_cmp = { as_partial_cmp policy_cmp };

    ghost laws = { policy_cmp-partial };

    fn partial_cmp(&self, other: &Policy) -> Option<Ordering> {
        Some(self.cmp(other))
    }
}

impl Ord for Policy {
    ghost cmp = { policy_cmp };

    ghost total = { policy_cmp-total };

    ghost matches_partial_cmp = { λ _ _. refl };

    ghost matches_eq = { λ _ _. refl };

    fn cmp(&self, other: &Policy) -> Ordering {
        let Policy { owner, readers, .. } = self;
        owner
            .cmp(&other.owner)
            .then_with(|| readers.as_slice().cmp(&other.readers.as_slice()))
    }
}
