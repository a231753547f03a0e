//! A set of numbers of principals, as bits.

ghost use Rattle.common.specs.declared.limits.TheConstants.{MAX_PRINCIPALS};
ghost use Rattle.principals.specs.Table.{has};
ghost use Rattle.std.specs.Prelude.{Contains, IsTrue, ℕ, ◌&&◌, ◌<◌, ◌==◌, ◌||◌, ◌↔◌, ◌≡◌, ◌⊎◌};

use common::limits::MAX_PRINCIPALS;

/// A set of numbers below `MAX_PRINCIPALS`. Number `n` is bit `n % 64` of word `n / 64`.
#[derive(Clone, Copy, Debug)]
pub struct PrincipalSet {
    words: [u64; 4],
}

impl PrincipalSet {
    /// All members are below this number.
    pub(crate) const LIMIT: usize = MAX_PRINCIPALS as usize;

    /// The set without members.
    pub(crate) const EMPTY: PrincipalSet = PrincipalSet { words: [0; 4] };

    /// The set of those of these numbers that are below `MAX_PRINCIPALS`.
    pub fn of(numbers: &[u32]) -> PrincipalSet
        ensures { (member : ℕ) → IsTrue (has result member)
            ↔ ((member < MAX_PRINCIPALS) × Contains numbers.now member) }
    {
        let mut row = PrincipalSet::EMPTY;
        for number in numbers {
            row.insert_below_limit(*number);
        }
        row
    }

    // Makes `number` a member, if it is below the limit.
    fn insert_below_limit(&mut self, number: u32)
        ensures { (member : ℕ) → IsTrue (has self.new member)
            ↔ (((member < MAX_PRINCIPALS) × (member ≡ number)) ⊎ IsTrue (has self.old member)) }
    {
        if (number as usize) < PrincipalSet::LIMIT {
            self.insert(number);
        }
    }

    /// Whether `number` is a member.
    pub fn has(&self, number: u32) -> bool
        ensures { result ≡ has self.now number }
    {
        match self.words.get((number / 64) as usize) {
            Some(word) => (*word >> (number % 64)) & 1 == 1,
            None => false,
        }
    }

    /// Makes `number` a member.
    pub(crate) fn insert(&mut self, number: u32)
        requires { number < MAX_PRINCIPALS }
        ensures { (member : ℕ) → has self.new member ≡ (member == number || has self.old member) }
    {
        self.words[(number / 64) as usize] |= 1 << (number % 64);
    }

    /// Whether some number is a member of both sets.
    pub(crate) fn meets(&self, other: &PrincipalSet) -> bool
        ensures { IsTrue result ↔ ((member : ℕ) × IsTrue (has self.now member) ×
            IsTrue (has other.now member)) }
    {
        for i in 0..4 {
            if self.words[i] & other.words[i] != 0 {
                return true;
            }
        }
        false
    }

    /// Makes the members of `other` members.
    pub(crate) fn merge(&mut self, other: &PrincipalSet)
        ensures { (member : ℕ) → has self.new member ≡ (has self.old member || has other.now
            member) }
    {
        for i in 0..4 {
            self.words[i] |= other.words[i];
        }
    }

    /// Makes the members of `other` members if `between` is one.
    pub(crate) fn merge_if(&mut self, between: u32, other: &PrincipalSet)
        ensures { (member : ℕ) → has self.new member
            ≡ (has self.old member || (has self.old between && has other.now member)) }
    {
        if self.has(between) {
            self.merge(other);
        }
    }
}
