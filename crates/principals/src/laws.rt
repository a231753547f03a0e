//! Laws of acts-for, over all lists of pairs, and of the texts of hierarchies.

ghost use Rattle.principals.specs.ActsFor.{ActsFor, acts_for};
ghost use Rattle.principals.specs.Laws.{HasOneHierarchy, HierarchiesHaveOneRefusal, IsNotReadAndRefused, IsReadOrRefused, NamesAreNames};
ghost use Rattle.std.specs.Prelude.{Contains, IsTrue, List, ℕ, ◌↔◌, ◌≡◌};

/// The test and the relation say the same of every list of pairs and every two numbers.
pub fn acts_for_decides()
    ensures { (pairs : List (ℕ × ℕ)) (a b : ℕ) → IsTrue (acts_for pairs a b) ↔ ActsFor pairs a b }
{}

/// A relation on the numbers of principals.
pub trait PrincipalRelation {
    ghost related: { ℕ → ℕ → Type 0 };
}

/// Acts-for is reflexive and transitive and contains the written pairs, and each such relation contains it, decidable or not.
pub fn acts_for_is_least<R: PrincipalRelation>()
    ensures reflexive { (pairs : List (ℕ × ℕ)) (a : ℕ) → ActsFor pairs a a }
    ensures transitive { (pairs : List (ℕ × ℕ)) (a b c : ℕ) →
        ActsFor pairs a b → ActsFor pairs b c → ActsFor pairs a c }
    ensures contains { (pairs : List (ℕ × ℕ)) (a b : ℕ) →
        Contains pairs (a, b) → ActsFor pairs a b }
    ensures least { (pairs : List (ℕ × ℕ)) →
        ((a : ℕ) → R.related a a) →
        ((a b c : ℕ) → R.related a b → R.related b c → R.related a c) →
        ((a b : ℕ) → Contains pairs (a, b) → R.related a b) →
        (a b : ℕ) → ActsFor pairs a b → R.related a b }
{}

/// More written pairs take no answer away.
pub fn acts_for_is_monotone()
    ensures { (pairs others : List (ℕ × ℕ)) →
        ((a b : ℕ) → Contains pairs (a, b) → Contains others (a, b)) →
        (a b : ℕ) → ActsFor pairs a b → ActsFor others a b }
{}

/// The principals of a text have names in UTF-8 that are no longer than the text.
pub fn names_are_names()
    ensures { NamesAreNames }
{}

/// Each text in UTF-8 is that of one hierarchy, or has one first refusal, and not both.
pub fn one_reading()
    ensures read_or_refused { IsReadOrRefused }
    ensures one_hierarchy { HasOneHierarchy }
    ensures not_both { IsNotReadAndRefused }
    ensures one_refusal { HierarchiesHaveOneRefusal }
{}
