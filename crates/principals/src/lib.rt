//! Principals and who acts for whom.
#![tactic(auto)]

ghost use Rattle.principals.specs.ActsFor.{acts_for, ActsFor, AllBelow, AllDifferent, HasName, IsHierarchy, number_of};
ghost use Rattle.principals.specs.Named.{IsKeptName};
ghost use Rattle.principals.specs.Table.{has, names_of};
ghost use Rattle.std.specs.Prelude.{All, Contains, IfOk, IsTrue, None, Some, length, map, option_map, slice_get, string_bytes, vec_len, ℕ, ◌↔◌, ◌≡◌, ◌≤◌};

mod contained;
mod declaring;
pub mod fault;
pub mod laws;
mod message;
mod principal_set;
mod read;
mod reading;
mod table;

use common::limits::MAX_PRINCIPALS;
pub use fault::{HierFault, HierarchyRefusal, HierarchyRefusalKind};
use indexmap::IndexSet;
pub use principal_set::PrincipalSet;
use std::alloc::{AllocError, Global};
use std::marker::Model;

/// A principal hierarchy: at most 256 principals, numbered from 0 in declared order, and the written pairs of who acts for
/// whom.
#[derive(Debug, Drop)]
pub struct Hierarchy {
    names: IndexSet<String>,
    pairs: Vec<(u32, u32)>,
    table: Vec<PrincipalSet>,
}

impl Model for Hierarchy {
    ghost use Rattle.principals.specs.ActsFor.{PrincipalHierarchy};

    ghost Value = { PrincipalHierarchy };

    ghost use Rattle.principals.specs.Inside.{hierarchy_of, IsStoredHierarchy};

    ghost view = { hierarchy_of };

    ghost invariant = { IsStoredHierarchy };
}

impl Clone for Hierarchy {
    ghost is_clone = { λ hierarchy copy. copy ≡ hierarchy };

    fn clone(&self) -> Result<Hierarchy, AllocError> {
        let alloc = *self.pairs.allocator();
        let names = self.names.clone()?;
        let pairs = Vec::from_slice(alloc, self.pairs.as_slice())?;
        let table = Vec::from_slice(alloc, self.table.as_slice())?;
        Ok(Hierarchy {
            names,
            pairs,
            table,
        })
    }
}

/// The names as a table, in their order.
fn number_names(alloc: Global, names: Vec<String>) -> Result<IndexSet<String>, AllocError>
    requires { AllDifferent (map (λ name. string_bytes name) names.items) }
    ensures { IfOk result (λ table. table.keys ≡ names.items) }
{
    let mut table = IndexSet::with_capacity(alloc, names.len())?;
    for name in names {
        table.insert(name)?;
    }
    Ok(table)
}

impl Hierarchy {
    /// The hierarchy of these names and written pairs, where `(a, b)` says that `a` acts for `b`.
    ///
    /// Precondition: at most 256 names, all different, which are names of the language such as a module file holds, and numbers of
    /// principals that are there.
    pub fn of(
        alloc: Global,
        names: Vec<String>,
        pairs: Vec<(u32, u32)>,
    ) -> Result<Hierarchy, AllocError>
        requires few { vec_len names ≤ MAX_PRINCIPALS }
        requires different { AllDifferent (map (λ name. string_bytes name) names.items) }
        requires named { All IsKeptName (map (λ name. string_bytes name) names.items) }
        requires there { AllBelow (vec_len names) pairs.items }
        ensures names { IfOk result (λ hierarchy.
            hierarchy.names ≡ map (λ name. string_bytes name) names.items) }
        ensures pairs { IfOk result (λ hierarchy. hierarchy.pairs ≡ pairs.items) }
    {
        let names = number_names(alloc, names)?;
        Hierarchy::close(alloc, names, pairs)
    }

    // The hierarchy of a table of names and of written pairs.
    fn close(
        alloc: Global,
        names: IndexSet<String>,
        pairs: Vec<(u32, u32)>,
    ) -> Result<Hierarchy, AllocError>
        requires few { length (names_of names) ≤ MAX_PRINCIPALS }
        requires different { AllDifferent (names_of names) }
        requires named { All IsKeptName (names_of names) }
        requires there { AllBelow (length (names_of names)) pairs.items }
        ensures names { IfOk result (λ hierarchy. hierarchy.names ≡ names_of names) }
        ensures pairs { IfOk result (λ hierarchy. hierarchy.pairs ≡ pairs.items) }
    {
        let table = table::close_table(alloc, names.len() as u32, pairs.as_slice())?;
        Ok(Hierarchy {
            names,
            pairs,
            table,
        })
    }

    /// How many principals there are. Their numbers are those below it.
    pub fn count(&self) -> u32
        ensures count { result ≡ length self.now.names }
        ensures kept { IsHierarchy self.now }
        ensures named { All IsKeptName self.now.names }
    {
        self.names.len() as u32
    }

    /// The names of the principals, in the order of their numbers.
    pub fn names(&self) -> &[String]
        ensures { map (λ name. string_bytes name) result.now ≡ self.now.names }
    {
        self.names.as_slice()
    }

    /// The name of the principal with this number, or `None` where there is none.
    pub fn name(&self, number: u32) -> Option<&str>
        ensures { option_map (λ name. name.now) result ≡ slice_get self.now.names number }
    {
        self.names
            .get_index(number as usize)
            .map(|name| name.as_str())
    }

    /// The written pairs, in the order in which they were written.
    pub fn pairs(&self) -> &[(u32, u32)]
        ensures { result.now ≡ self.now.pairs }
    {
        self.pairs.as_slice()
    }

    /// The number of the principal with this name, or `None` where no principal has it.
    pub fn find(&self, name: &str) -> Option<u32>
        ensures value { result ≡ number_of self.now name.now }
        ensures number { (number : ℕ) → (result ≡ Some number) ↔ HasName self.now number name.now }
        ensures none { (result ≡ None) ↔ (¬ Contains self.now.names name.now) }
    {
        match self.names.get_index_of(name) {
            Some(number) => Some(number as u32),
            None => None,
        }
    }

    /// Whether `a` acts for `b`. A number that is no principal acts for itself alone.
    pub fn acts_for(&self, a: u32, b: u32) -> bool
        ensures acts { IsTrue result ↔ ActsFor self.now.pairs a b }
        ensures value { result ≡ acts_for self.now.pairs a b }
    {
        match self.table.get(a as usize) {
            Some(row) => row.has(b),
            None => a == b,
        }
    }

    /// Whether `a` acts for some number of a set, for all of them in a few steps.
    pub fn acts_for_some(&self, a: u32, numbers: &PrincipalSet) -> bool
        ensures { IsTrue result ↔
            ((b : ℕ) × IsTrue (has numbers.now b) × ActsFor self.now.pairs a b) }
    {
        match self.table.get(a as usize) {
            Some(row) => row.meets(numbers),
            None => numbers.has(a),
        }
    }
}
