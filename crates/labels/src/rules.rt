//! Who may read what a label guards, and what may flow where.
ghost use Rattle.labels.specs.Label.{Covers, FlowsTo, MayRead, PolicyAllows, PolicyFlowsTo, covers, flows, may_read, policy_allows, policy_flows};
ghost use Rattle.principals.specs.ActsFor.{acts_for};
ghost use Rattle.std.specs.List.{list_all, list_any};
ghost use Rattle.std.specs.Prelude.{Contains, IsTrue, ◌↔◌, ◌≡◌};

use crate::label_sets::Label;
use crate::policies::Policy;
use principals::Hierarchy;

// Whether a number acts for some of the readers, tried one after another.
fn acts_for_some(hierarchy: &Hierarchy, principal: u32, readers: &[u32]) -> bool
    ensures { result ≡ list_any (λ reader. acts_for hierarchy.now.pairs principal reader)
        readers.now }
{
    readers
        .iter()
        .any(|reader| hierarchy.acts_for(principal, *reader))
}

// Whether the policy allows each of the readers.
fn allows_each(hierarchy: &Hierarchy, policy: &Policy, readers: &[u32]) -> bool
    ensures { result ≡ list_all (λ reader. policy_allows hierarchy.now reader policy.now)
        readers.now }
{
    readers
        .iter()
        .all(|reader| policy.allows(hierarchy, *reader))
}

// Whether the label covers each of the policies.
fn covers_each(hierarchy: &Hierarchy, label: &Label, policies: &[Policy]) -> bool
    ensures { result ≡ list_all (λ policy. covers hierarchy.now label.now policy) policies.now }
{
    policies
        .iter()
        .all(|policy| label.covers(hierarchy, policy))
}

impl Policy {
    // Whether a number acts for some of the readers: of a principal in a few steps, however many the readers are.
    fn is_read_by(&self, hierarchy: &Hierarchy, number: u32) -> bool
        ensures { result ≡ list_any (λ reader. acts_for hierarchy.now.pairs number reader)
            self.now.readers }
    {
        if number < hierarchy.count() {
            hierarchy.acts_for_some(number, self.row())
        } else {
            acts_for_some(hierarchy, number, self.readers())
        }
    }

    /// Whether the policy allows a principal to read: it acts for the owner or for some reader. It takes no memory.
    pub fn allows(&self, hierarchy: &Hierarchy, principal: u32) -> bool
        ensures allows { IsTrue result ↔ PolicyAllows hierarchy.now principal self.now }
        ensures test { result ≡ policy_allows hierarchy.now principal self.now }
    {
        hierarchy.acts_for(principal, self.owner()) || self.is_read_by(hierarchy, principal)
    }

    /// Whether the policy flows to another one: the other one's owner acts for its owner, and it allows each of the other
    /// one's readers. It takes no memory.
    pub fn flows_to(&self, hierarchy: &Hierarchy, other: &Policy) -> bool
        ensures flows { IsTrue result ↔ PolicyFlowsTo hierarchy.now self.now other.now }
        ensures test { result ≡ policy_flows hierarchy.now self.now other.now }
    {
        hierarchy.acts_for(other.owner(), self.owner())
            && allows_each(hierarchy, self, other.readers())
    }
}

impl Label {
    // Whether a policy is one of the label's own, found by their order.
    fn has(&self, policy: &Policy) -> bool
        ensures { IsTrue result → Contains self.now policy.now }
    {
        self.policies().binary_search(policy).is_ok()
    }

    // Whether a policy flows to some policy of the label, tried one after another.
    fn has_above(&self, hierarchy: &Hierarchy, policy: &Policy) -> bool
        ensures { result ≡ covers hierarchy.now self.now policy.now }
    {
        self.policies()
            .iter()
            .any(|other| policy.flows_to(hierarchy, other))
    }

    /// Whether the label covers a policy: the policy flows to some policy of the label, itself if it is there. It takes no memory.
    pub fn covers(&self, hierarchy: &Hierarchy, policy: &Policy) -> bool
        ensures covers { IsTrue result ↔ Covers hierarchy.now self.now policy.now }
        ensures test { result ≡ covers hierarchy.now self.now policy.now }
    {
        self.has(policy) || self.has_above(hierarchy, policy)
    }
}

/// Whether a label flows to another one: the other one covers each of its policies. It takes no memory. This is the complete
/// relabelling rule of the decentralized label model (Myers and Liskov 2000).
pub fn flows(hierarchy: &Hierarchy, from: &Label, to: &Label) -> bool
    ensures flows { IsTrue result ↔ FlowsTo hierarchy.now from.now to.now }
    ensures test { result ≡ flows hierarchy.now from.now to.now }
{
    covers_each(hierarchy, to, from.policies())
}

/// Whether a principal may read what a label guards: each policy of the label allows it. It takes no memory. A number that is
/// no principal acts for itself alone (Myers and Liskov 1997).
pub fn may_read(hierarchy: &Hierarchy, principal: u32, label: &Label) -> bool
    ensures reads { IsTrue result ↔ MayRead hierarchy.now principal label.now }
    ensures test { result ≡ may_read hierarchy.now principal label.now }
{
    label
        .policies()
        .iter()
        .all(|policy| policy.allows(hierarchy, principal))
}
