//! The join of two labels.
ghost use Rattle.labels.specs.Canonical.{joined, policy_cmp};
ghost use Rattle.labels.specs.Sets.{SameSet};
ghost use Rattle.std.specs.List.Sorted.{IsStrictlySortedBy};
ghost use Rattle.std.specs.Prelude.{IfOk, OnOk, ◌++◌, ◌≡◌};

use crate::label_sets::Label;
use crate::policies::Policy;
use std::alloc::{AllocError, Global};
use std::cmp::Ordering;

/// The join of two labels: the policies of both and no other ones (Myers and Liskov 1997). It fails only where memory runs
/// out, and takes time in proportion to the two labels.
pub fn join(alloc: Global, left: &Label, right: &Label) -> Result<Label, AllocError>
    ensures union { IfOk result (λ label. SameSet label (left.now ++ right.now)) }
    ensures exact { IfOk result (λ label. label ≡ joined left.now right.now) }
{
    Ok(Label::of(union(alloc, left.policies(), right.policies())?))
}

// The policies of two ascending lists in one.
fn union(alloc: Global, left: &[Policy], right: &[Policy]) -> Result<Vec<Policy>, AllocError>
    requires left_ascends { IsStrictlySortedBy policy_cmp left.now }
    requires right_ascends { IsStrictlySortedBy policy_cmp right.now }
    ensures { IfOk result (λ policies. policies.items ≡ joined left.now right.now) }
{
    let mut policies = Vec::new(alloc);
    let mut i = 0;
    let mut j = 0;
    'merge: while i < left.len() && j < right.len() {
        let first = &left[i];
        let second = &right[j];
        match first.cmp(second) {
            Ordering::Less => {
                policies.push(first.clone()?)?;
                i += 1;
            }
            Ordering::Equal => {
                policies.push(first.clone()?)?;
                i += 1;
                j += 1;
            }
            Ordering::Greater => {
                policies.push(second.clone()?)?;
                j += 1;
            }
        }
    }
    append(&mut policies, &left[i..])?;
    append(&mut policies, &right[j..])?;
    Ok(policies)
}

// Puts copies of these policies at the end.
pub(crate) fn append(policies: &mut Vec<Policy>, more: &[Policy]) -> Result<(), AllocError>
    ensures { OnOk result (policies.new.items ≡ policies.old.items ++ more.now) }
{
    for policy in more {
        policies.push(policy.clone()?)?;
    }
    Ok(())
}
