//! The principals of one hierarchy by the numbers that they have in another, and who may read a label there.
ghost use Rattle.labels.specs.Carried.{carried_label, carried_policy, number_by_name, numbered};
ghost use Rattle.labels.specs.Label.{MayRead, may_read, policy_allows};
ghost use Rattle.principals.specs.ActsFor.{acts_for, number_of};
ghost use Rattle.std.specs.List.{list_all, list_any};
ghost use Rattle.std.specs.Prelude.{IfOk, IsTrue, string_bytes, unwrap_or, ◌↔◌, ◌≡◌};

use crate::label_sets::Label;
use crate::policies::Policy;
use principals::Hierarchy;
use std::alloc::{AllocError, Global};
use std::marker::Model;

/// Which number each principal of one hierarchy has in another, in the order of its own numbers.
#[derive(Debug, Drop)]
pub struct Renumbering {
    numbers: Vec<u32>,
}

impl Model for Renumbering {
    ghost use Rattle.std.specs.Prelude.{List, ℕ};

    ghost Value = { List ℕ };

    ghost view = { λ renumbering. renumbering.numbers.items };
}

impl Renumbering {
    /// The numbers that the principals of a hierarchy have in another one, by their names; 0 for a name that is not there. Each
    /// name is looked up once.
    ///
    /// # Errors
    ///
    /// Memory ran out.
    pub fn by_name(
        alloc: Global,
        smaller: &Hierarchy,
        larger: &Hierarchy,
    ) -> Result<Renumbering, AllocError>
        ensures { IfOk result (λ numbers.
            numbered numbers ≡ number_by_name smaller.now larger.now) }
    {
        let mut numbers = Vec::with_capacity(alloc, smaller.count() as usize)?;
        for name in smaller.names() {
            numbers.push(number_there(larger, name.as_str()))?;
        }
        Ok(Renumbering { numbers })
    }

    /// The number that a principal has in the other hierarchy.
    pub fn number(&self, number: u32) -> u32
        ensures { result ≡ numbered self.now number }
    {
        match self.numbers.get(number as usize) {
            Some(there) => *there,
            None => 0,
        }
    }
}

// The number of a name, 0 for one that is not there.
fn number_there(larger: &Hierarchy, name: &str) -> u32
    ensures { result ≡ unwrap_or (number_of larger.now name.now) 0 }
{
    match larger.find(name) {
        Some(number) => number,
        None => 0,
    }
}

// Whether a principal of another hierarchy acts there for some of the readers.
fn acts_there_for_some(
    larger: &Hierarchy,
    numbers: &Renumbering,
    principal: u32,
    readers: &[u32],
) -> bool
    ensures { result ≡ list_any (λ reader. acts_for larger.now.pairs principal
        (numbered numbers.now reader)) readers.now }
{
    readers.iter().any(|reader| larger.acts_for(principal, numbers.number(*reader)))
}

// Whether a policy, carried over to another hierarchy, allows a principal of it there.
fn allows_there(larger: &Hierarchy, numbers: &Renumbering, principal: u32, policy: &Policy) -> bool
    ensures { result ≡ policy_allows larger.now principal
        (carried_policy (numbered numbers.now) policy.now) }
{
    larger.acts_for(principal, numbers.number(policy.owner()))
        || acts_there_for_some(larger, numbers, principal, policy.readers())
}

// Whether each of the policies does.
fn each_allows_there(
    larger: &Hierarchy,
    numbers: &Renumbering,
    principal: u32,
    policies: &[Policy],
) -> bool
    ensures { result ≡ list_all (λ policy. policy_allows larger.now principal
        (carried_policy (numbered numbers.now) policy)) policies.now }
{
    policies
        .iter()
        .all(|policy| allows_there(larger, numbers, principal, policy))
}

/// Whether a principal of another hierarchy may read what a label guards, once its principals are carried over to that hierarchy:
/// each policy of the label allows it there. It takes no memory, and time in proportion to the label.
pub fn may_read_under(
    larger: &Hierarchy,
    numbers: &Renumbering,
    principal: u32,
    label: &Label,
) -> bool
    ensures reads { IsTrue result ↔ MayRead larger.now principal
        (carried_label (numbered numbers.now) label.now) }
    ensures test { result ≡ may_read larger.now principal
        (carried_label (numbered numbers.now) label.now) }
{
    each_allows_there(larger, numbers, principal, label.policies())
}
