//! Laws of reading and of flow, over all hierarchies and all labels: each stated of the relations and of the tests.

ghost use Rattle.labels.specs.Canonical.{IsCanonicalLabel, IsCanonicalPolicy, joined, written_label, written_policy};
ghost use Rattle.labels.specs.Carried.{FlowsAreKept, FlowsStayByName, LabelsStayThemselves, NamesKeepActsFor};
ghost use Rattle.labels.specs.Label.{Covers, FlowsTo, Label, MayRead, PolicyAllows, PolicyFlowsTo, ReaderPolicy, covers, flows, may_read, policy_allows, policy_flows};
ghost use Rattle.lattices.specs.Lattice.{IsLattice};
ghost use Rattle.labels.specs.Sent.{Sees, pairs_for};
ghost use Rattle.labels.specs.Sets.{SameSet};
ghost use Rattle.common.specs.declared.sent.Pair.{Pair};
ghost use Rattle.principals.specs.ActsFor.{PrincipalHierarchy};
ghost use Rattle.std.specs.Prelude.{All, Contains, IsTrue, List, [], ℕ, ◌&&◌, ◌++◌, ◌↔◌, ◌≡◌, ◌≢◌};

/// Each test answers yes exactly where its relation holds, and what a principal sees is what the test of reading lets through.
pub fn tests_decide()
    ensures allows { (h : PrincipalHierarchy) (p : ℕ) (policy : ReaderPolicy) →
        IsTrue (policy_allows h p policy) ↔ PolicyAllows h p policy }
    ensures reads { (h : PrincipalHierarchy) (p : ℕ) (label : Label) →
        IsTrue (may_read h p label) ↔ MayRead h p label }
    ensures policy { (h : PrincipalHierarchy) (from to : ReaderPolicy) →
        IsTrue (policy_flows h from to) ↔ PolicyFlowsTo h from to }
    ensures covers { (h : PrincipalHierarchy) (to : Label) (policy : ReaderPolicy) →
        IsTrue (covers h to policy) ↔ Covers h to policy }
    ensures flow { (h : PrincipalHierarchy) (from to : Label) →
        IsTrue (flows h from to) ↔ FlowsTo h from to }
    ensures sees { (h : PrincipalHierarchy) (label_of : ℕ → Label) (p : ℕ) (sent seen : List Pair) →
        (pairs_for h label_of p sent ≡ seen) ↔ Sees h label_of p sent seen }
{}

/// Under each hierarchy flow is reflexive and transitive, the union is a least upper bound of two labels, and the empty label
/// flows everywhere. So too with the join in canonical form.
pub fn labels_form_a_lattice()
    ensures relation { (h : PrincipalHierarchy) → IsLattice (FlowsTo h) ◌++◌ [] }
    ensures test { (h : PrincipalHierarchy) → IsLattice (λ a b. IsTrue (flows h a b)) ◌++◌ [] }
    ensures canonical_relation { (h : PrincipalHierarchy) → IsLattice (FlowsTo h) joined [] }
    ensures canonical_test { (h : PrincipalHierarchy) →
        IsLattice (λ a b. IsTrue (flows h a b)) joined [] }
{}

/// The soundness of the whole model: where a label flows to another one, every reader of the other one reads it.
pub fn flow_adds_no_reader()
    ensures relation { (h : PrincipalHierarchy) (from to : Label) (p : ℕ) →
        FlowsTo h from to → MayRead h p to → MayRead h p from }
    ensures test { (h : PrincipalHierarchy) (from to : Label) (p : ℕ) →
        IsTrue (flows h from to) → IsTrue (may_read h p to) → IsTrue (may_read h p from) }
{}

/// A join is read by those who read both of its sides, and the empty label by everyone.
pub fn join_is_read_by_readers_of_both()
    ensures relation { (h : PrincipalHierarchy) (p : ℕ) (a b : Label) →
        MayRead h p (a ++ b) ↔ (MayRead h p a × MayRead h p b) }
    ensures test { (h : PrincipalHierarchy) (p : ℕ) (a b : Label) →
        may_read h p (a ++ b) ≡ (may_read h p a && may_read h p b) }
    ensures canonical { (h : PrincipalHierarchy) (p : ℕ) (a b : Label) →
        MayRead h p (joined a b) ↔ (MayRead h p a × MayRead h p b) }
    ensures least { (h : PrincipalHierarchy) (p : ℕ) → MayRead h p [] }
{}

/// Only the set of a label's policies counts, not their order and not how often each stands there.
pub fn only_the_set_of_policies_counts()
    ensures reads_relation { (h : PrincipalHierarchy) (p : ℕ) (a b : Label) → SameSet a b →
        MayRead h p a ↔ MayRead h p b }
    ensures reads_test { (h : PrincipalHierarchy) (p : ℕ) (a b : Label) → SameSet a b →
        may_read h p a ≡ may_read h p b }
    ensures flow_relation { (h : PrincipalHierarchy) (a b c d : Label) → SameSet a b → SameSet c d →
        FlowsTo h a c ↔ FlowsTo h b d }
    ensures flow_test { (h : PrincipalHierarchy) (a b c d : Label) → SameSet a b → SameSet c d →
        flows h a c ≡ flows h b d }
{}

/// The canonical form of a written policy means the same. It has the written readers without the owner, it allows whom the policy
/// as it is written allows, and each of the two flows to the other.
pub fn written_policy_keeps_its_meaning()
    ensures readers { (owner : ℕ) (readers : List ℕ) (reader : ℕ) →
        Contains (written_policy owner readers).readers reader
        ↔ (Contains readers reader × (reader ≢ owner)) }
    ensures canonical { (owner : ℕ) (readers : List ℕ) →
        IsCanonicalPolicy (written_policy owner readers) }
    ensures allows { (h : PrincipalHierarchy) (owner : ℕ) (readers : List ℕ) (p : ℕ) →
        PolicyAllows h p (written_policy owner readers)
        ↔ PolicyAllows h p (record { owner = owner; readers = readers }) }
    ensures flow { (h : PrincipalHierarchy) (owner : ℕ) (readers : List ℕ) →
        PolicyFlowsTo h (written_policy owner readers) (record { owner = owner; readers = readers })
        × PolicyFlowsTo h (record { owner = owner; readers = readers })
        (written_policy owner readers) }
{}

/// A written label is kept without a loss, and so is a join: each is the set of the policies that it is made of. Two canonical
/// labels that are the same set are equal.
pub fn written_label_keeps_its_policies()
    ensures written { (policies : List ReaderPolicy) → SameSet (written_label policies) policies }
    ensures joined { (left right : Label) → SameSet (joined left right) (left ++ right) }
    ensures canonical { (policies : List ReaderPolicy) → All IsCanonicalPolicy policies →
        IsCanonicalLabel (written_label policies) }
    ensures unique { (a b : Label) → IsCanonicalLabel a → IsCanonicalLabel b → SameSet a b → a ≡ b }
{}

/// A flow that holds under a hierarchy holds under each one that keeps its acts-for. A hierarchy that contains another one keeps
/// its acts-for by name, and so its flows.
pub fn flows_are_kept()
    ensures renumbered { (smaller larger : PrincipalHierarchy) (carry : ℕ → ℕ) →
        FlowsAreKept smaller larger carry }
    ensures names { (smaller larger : PrincipalHierarchy) → NamesKeepActsFor smaller larger }
    ensures by_name { (smaller larger : PrincipalHierarchy) → FlowsStayByName smaller larger }
{}

/// Carried over by name to the hierarchy that it is of, a label stays what it is.
pub fn labels_stay_themselves()
    ensures { (h : PrincipalHierarchy) → LabelsStayThemselves h }
{}
