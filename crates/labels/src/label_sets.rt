//! A label: a set of policies.
ghost use Rattle.labels.specs.Canonical.{IsCanonicalLabel, IsCanonicalPolicy, policy_cmp, written_label};
ghost use Rattle.labels.specs.PolicyOrder.{label_eq, label_eq-equivalence, label_eq-partial};
ghost use Rattle.std.specs.List.Sorted.{IsStrictlySortedBy};
ghost use Rattle.std.specs.Prelude.{All, IsTrue, [], ◌↔◌, ◌≡◌};

use crate::policies::Policy;
use std::alloc::{AllocError, Global};
use std::marker::Model;

/// A label of the decentralized label model (Myers and Liskov 1997): a set of policies, in ascending order by owner and then by
/// the list of readers, each policy once.
#[derive(Debug, Drop)]
pub struct Label {
    policies: Vec<Policy>,
}

impl Model for Label {
    ghost use Rattle.labels.specs.Label.{ReaderPolicy};
    ghost use Rattle.std.specs.Prelude.{List};

    ghost Value = { List ReaderPolicy };

    ghost use Rattle.labels.specs.Canonical.{IsCanonicalLabel};

    ghost view = { λ label. label.policies.items };

    ghost invariant = { λ label. IsCanonicalLabel label.policies.items };
}

// Policies in ascending order and each once.
pub(crate) fn each_once(mut policies: Vec<Policy>) -> Vec<Policy>
    ensures { result.items ≡ written_label policies.items }
{
    policies.sort_unstable();
    policies.dedup();
    policies
}

impl Label {
    /// The least label, which has no policy and flows everywhere. It takes no memory.
    pub fn least(alloc: Global) -> Label
        ensures { result ≡ [] }
    {
        Label {
            policies: Vec::new(alloc),
        }
    }

    /// The label of these policies. Precondition: the policies ascend strictly, and each is canonical, as every
    /// `Policy` is (see `Policy::of`).
    pub fn of(policies: Vec<Policy>) -> Label
        requires ascending { IsStrictlySortedBy policy_cmp policies.items }
        requires each_canonical { All IsCanonicalPolicy policies.items }
        ensures { result ≡ policies.items }
    {
        Label { policies }
    }

    /// The label that is written with these policies, in any order and any number of times. Precondition: each is
    /// canonical, as every `Policy` is (see `Policy::of`).
    pub fn written(policies: Vec<Policy>) -> Label
        requires { All IsCanonicalPolicy policies.items }
        ensures { result ≡ written_label policies.items }
    {
        Label::of(each_once(policies))
    }

    /// The policies, in ascending order.
    pub fn policies(&self) -> &[Policy]
        ensures policies { result.now ≡ self.now }
        ensures canonical { IsCanonicalLabel self.now }
    {
        self.policies.as_slice()
    }

    /// Whether this is the least label, which has no policy.
    pub fn is_empty(&self) -> bool
        ensures { IsTrue result ↔ (self.now ≡ []) }
    {
        self.policies().is_empty()
    }
}

impl Clone for Label {
    ghost is_clone = { λ label copy. copy ≡ label };

    fn clone(&self) -> Result<Label, AllocError> {
        Ok(Label {
            policies: self.policies.clone()?,
        })
    }
}

impl PartialEq for Label {
    ghost eq = { label_eq };

    ghost laws = { label_eq-partial };

    fn eq(&self, other: &Label) -> bool
        ensures order { result ≡ label_eq self.now other.now }
        ensures same { IsTrue result ↔ (self.now ≡ other.now) }
    {
        self.policies() == other.policies()
    }
}

impl Eq for Label {
    ghost laws = { label_eq-equivalence };
}
