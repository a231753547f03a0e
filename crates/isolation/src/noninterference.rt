//! Isolation: what a principal sees of the outputs does not depend on the inputs that it may not read.

ghost use Rattle.isolation.specs.TwoRuns.{StatementsAgree};
ghost use Rattle.isolation.specs.Larger.{IsolatedCarried, IsolatedUnderLarger};
ghost use Rattle.labels.specs.Carried.{KeepsActsFor};
ghost use Rattle.principals.specs.ActsFor.{IsHierarchy, PrincipalHierarchy};
ghost use Rattle.resolved.specs.Isolated.{Isolated};
ghost use Rattle.resolved.specs.Labelled.{Labelled, Labelling, Scope, exit_faults};
ghost use Rattle.resolved.specs.Program.{Program};
ghost use Rattle.std.specs.Prelude.{[], ℕ, ◌≡◌};

/// Two runs of a labelled statement from states that are the same for a principal agree for it, at whatever label the statement is
/// reached and with whatever fuel: where both end, their states are the same for it, and where it may read the label of either
/// exit, both ended so; where one is stopped, what the principal sees of it is a prefix of what it sees
/// of the other.
pub fn two_runs_agree()
    ensures { (scope : Scope) (labelling : Labelling) → StatementsAgree scope labelling }
{}

/// Every labelled program without a fault of its exits is isolated: for every principal, all worlds that agree for it and all two
/// bounds on the rounds of loops, one of the lists that it sees is a prefix of the other.
pub fn labelled_programs_are_isolated()
    ensures { (program : Program) → exit_faults program ≡ [] → Labelled program → Isolated program }
{}

/// The same where readers, agreement and observers are taken under another hierarchy that keeps the acts-for of the program's own:
/// under every renumbering of principals that does, and by name under every hierarchy that contains the program's own.
pub fn labelled_programs_stay_isolated()
    ensures renumbered { (program : Program) (larger : PrincipalHierarchy) (carry : ℕ → ℕ) →
        exit_faults program ≡ [] → Labelled program → KeepsActsFor program.hierarchy larger carry →
        IsolatedCarried program larger carry }
    ensures by_name { (program : Program) → exit_faults program ≡ [] → Labelled program →
        IsHierarchy program.hierarchy → IsolatedUnderLarger program }
{}
