//! Laws of constraints over any lattice, with any unknowns, and of constraints that were gathered from others: each the contract of
//! a function that does nothing.

ghost use Rattle.lattices.specs.Constraints.{Atom, Constraint, DecidesSame, FitsAll, FitsUnknowns, IsChain, IsGathered, IsLeast, IsRefusedAt, Linked, Occurs, OneByOne, Reaches, StandsFor, first_unmet, outer, reported_gathered, reported_steps};
ghost use Rattle.lattices.specs.Lattice.{Lattice, LatticeLaws};
ghost use Rattle.std.specs.Prelude.{Bool, IsTrue, List, Option, Some, ℕ, ◌≡◌, ◌↔◌, ◌⊎◌};

/// Constraints with an unknown right side have least values, whatever the written right sides are, and these are unique: two of
/// them lie below each other at each unknown that stands in the constraints.
pub fn least_values_are_unique<N, U, V>()
    ensures there { (same : U → U → Bool) → DecidesSame same → (l : Lattice V) → LatticeLaws l →
        (cs : List (Constraint N U V)) → (values : U → V) × IsLeast l cs values }
    ensures unique { (l : Lattice V) (cs : List (Constraint N U V)) (values others : U → V) →
        IsLeast l cs values → IsLeast l cs others → (u : U) → Occurs cs u →
        IsTrue (l.leq (values u) (others u)) × IsTrue (l.leq (others u) (values u)) }
{}

/// A written value that reaches an unknown lies below each value that fits it.
pub fn what_reaches_lies_below<N, U, V>()
    ensures { (l : Lattice V) → LatticeLaws l → (cs : List (Constraint N U V)) (values : U → V) →
        FitsUnknowns l cs values → (v : V) (u : U) → Reaches cs v u →
        IsTrue (l.leq v (values u)) }
{}

/// Where any values fit all constraints, the least do.
pub fn least_values_fit_if_any_do<N, U, V>()
    ensures { (l : Lattice V) → LatticeLaws l → (cs : List (Constraint N U V))
        (values others : U → V) → IsLeast l cs values → FitsAll l cs others → FitsAll l cs values }
{}

/// A chain rules out every choice of values.
pub fn a_chain_rules_out_all_values<N, U, V>()
    ensures { (l : Lattice V) → LatticeLaws l → (cs : List (Constraint N U V)) (from : V)
        (chain : List (Constraint N U V)) (last : Constraint N U V) → IsChain l cs from chain last →
        (values : U → V) → FitsAll l cs values → ⊥ }
{}

/// Some values fit all constraints, or they are refused at the first with a written right side that the least values do not fit,
/// with a chain that ends there.
pub fn constraints_fit_or_are_refused<N, U, V>()
    ensures { (same : U → U → Bool) → DecidesSame same → (l : Lattice V) → LatticeLaws l →
        (cs : List (Constraint N U V)) →
        ((values : U → V) × FitsAll l cs values)
        ⊎ ((from : V) × (chain : List (Constraint N U V)) × (last : Constraint N U V)
        × IsRefusedAt l cs from chain last) }
{}

/// Values fit what was gathered where they fit, by the numbers of the unknowns, what it was gathered from, and the other way
/// round: values for the unknowns of the latter fit the former too, with some values for the inner unknowns.
pub fn gathered_constraints_fit_alike<N, U, W, V>()
    ensures down { (l : Lattice V) → LatticeLaws l → (ds : List (Constraint N U V))
        (cs : List (Constraint (Option N) W V)) (gathered : IsGathered ds cs) (values : W → V) →
        FitsAll l cs values → FitsAll l ds (λ u. values (gathered.number u)) }
    ensures up { (same : W → W → Bool) → DecidesSame same → (l : Lattice V) → LatticeLaws l →
        (ds : List (Constraint N U V)) (cs : List (Constraint (Option N) W V))
        (gathered : IsGathered ds cs)
        (values : U → V) → FitsAll l ds values → (others : W → V) × FitsAll l cs others
        × ((u : U) → Occurs ds u → values u ≡ others (gathered.number u)) }
{}

/// The least values of what was gathered are, by the numbers of the unknowns, those of what it was gathered from, and the same
/// written values reach an unknown.
pub fn gathered_constraints_have_the_same_least_values<N, U, W, V>()
    ensures least { (same : W → W → Bool) → DecidesSame same → (l : Lattice V) → LatticeLaws l →
        (ds : List (Constraint N U V)) (cs : List (Constraint (Option N) W V))
        (gathered : IsGathered ds cs)
        (values : W → V) → IsLeast l cs values → IsLeast l ds (λ u. values (gathered.number u)) }
    ensures reached { (ds : List (Constraint N U V)) (cs : List (Constraint (Option N) W V))
        (gathered : IsGathered ds cs) (v : V) (u : U) → Occurs ds u →
        Reaches cs v (gathered.number u) ↔ Reaches ds v u }
{}

/// Where what was gathered is refused, what it was gathered from is refused too, from the same value and at the constraint that the
/// last of the gathered chain stands for. The outer constraints of the gathered chain stand for those of the other one by one, and
/// what is reported of the steps of either chain is the same.
pub fn gathered_constraints_are_refused_alike<N, U, W, V, T>()
    ensures refused { (same : W → W → Bool) → DecidesSame same → (l : Lattice V) → LatticeLaws l →
        (ds : List (Constraint N U V)) (cs : List (Constraint (Option N) W V))
        (gathered : IsGathered ds cs)
        (from : V) (chain : List (Constraint (Option N) W V)) (last : Constraint (Option N) W V) →
        IsRefusedAt l cs from chain last →
        (d : Constraint N U V) × (there : List (Constraint N U V)) × IsRefusedAt l ds from there d
        × StandsFor gathered.number gathered.inner cs d last
        × OneByOne gathered.number gathered.inner cs there (outer gathered.inner chain) }
    ensures first { (same : W → W → Bool) → DecidesSame same → (l : Lattice V) → LatticeLaws l →
        (ds : List (Constraint N U V)) (cs : List (Constraint (Option N) W V))
        (gathered : IsGathered ds cs)
        (values : W → V) → IsLeast l cs values → (c : Constraint (Option N) W V) →
        first_unmet l cs values ≡ Some c → (d : Constraint N U V)
        × (first_unmet l ds (λ u. values (gathered.number u)) ≡ Some d)
        × StandsFor gathered.number gathered.inner cs d c }
    ensures reported { (report : ℕ → ℕ → N → List T) (ds : List (Constraint N U V))
        (cs : List (Constraint (Option N) W V)) (gathered : IsGathered ds cs) (from : Atom W V)
        (chain : List (Constraint (Option N) W V)) (last : Constraint (Option N) W V) →
        Linked cs from chain last → (there : List (Constraint N U V)) →
        OneByOne gathered.number gathered.inner cs there (outer gathered.inner chain) →
        reported_gathered report chain ≡ reported_steps report there }
{}
