//! Whether one hierarchy contains another.

ghost use Rattle.principals.specs.ActsFor.{ActsFor, AllBelow, ContainsHierarchy, HasName};
ghost use Rattle.std.specs.Prelude.{All, Contains, IsFalse, IsTrue, List, Some, length, map, slice_get, slice_index, string_bytes, ℕ, ◌↔◌, ◌≡◌, ◌≤◌};

use crate::Hierarchy;
use crate::principal_set::PrincipalSet;

impl Hierarchy {
    /// Whether each principal of `other` is here by name and each acts-for of `other` holds here by name.
    ///
    /// It is enough to look at the pairs that are written in `other`, since acts-for here is reflexive and transitive.
    pub fn contains(&self, other: &Hierarchy) -> bool
        ensures { IsTrue result ↔ ContainsHierarchy self.now other.now }
    {
        let _ = &self.names;
        let mut here = [0; PrincipalSet::LIMIT];
        self.find_all(other.names.as_slice(), &mut here)
            && self.relates_all(&here, other.pairs.as_slice())
    }

    // Writes the number that each name has here, or answers false where a name is not here.
    fn find_all(&self, names: &[String], here: &mut [u32]) -> bool
        requires { length names.now ≤ length here.old }
        ensures numbers { IsTrue result → (number : ℕ) (name : List ℕ) →
            slice_get (map (λ name. string_bytes name) names.now) number ≡ Some name →
            HasName self.now (slice_index here.new number) name }
        ensures missing { IsFalse result → (name : List ℕ)
            × Contains (map (λ name. string_bytes name) names.now) name
            × (¬ Contains self.now.names name) }
    {
        for (number, name) in names.iter().enumerate() {
            match self.find(name.as_str()) {
                Some(found) => here[number] = found,
                None => return false,
            }
        }
        true
    }

    // Whether the first number of each pair acts for the second, by the numbers that they have here.
    fn relates_all(&self, here: &[u32], pairs: &[(u32, u32)]) -> bool
        requires { AllBelow (length here.now) pairs.now }
        ensures { IsTrue result ↔ All (λ pair. ActsFor self.now.pairs (slice_index here.now pair.0)
            (slice_index here.now pair.1)) pairs.now }
    {
        for (left, right) in pairs {
            if !self.acts_for(here[*left as usize], here[*right as usize]) {
                return false;
            }
        }
        true
    }
}
