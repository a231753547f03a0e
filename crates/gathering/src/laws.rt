//! Laws of the gathering, each the contract of a function that does nothing.
ghost use Rattle.gathering.specs.Gathered.{AreConstraintsOf, FitsConstraints};
ghost use Rattle.gathering.specs.Names.{real_unknowns};
ghost use Rattle.gathering.specs.Rerouted.{IsRerouted};
ghost use Rattle.gathering.specs.Size.{declared_at_calls, size_of};
ghost use Rattle.gathering.specs.Walk.{AreUnknownsBelow, FitsGathered, gathered_constraints, program_constraints, unknown_count};
ghost use Rattle.lattices.specs.Constraints.{IsGathered};
ghost use Rattle.resolved.specs.Flow.{AreGathered, Gathered};
ghost use Rattle.resolved.specs.Labelled.{FitsDemands, Labelling, exit_faults, program_demands};
ghost use Rattle.resolved.specs.Program.{Program};
ghost use Rattle.resolved.specs.WellFormed.{program_nodes, well_formed};
ghost use Rattle.std.specs.Prelude.{IsTrue, List, [], nat_le, ◌*◌, ◌+◌, ◌++◌, ◌↔◌, ◌≡◌, ◌≤◌};

/// What the walk along a well-formed program without a fault of its exits gives is gathered from the program's demands: constraints
/// with numbers for the unknowns, which stand for the demands one by one and in order. By their names they are where the program
/// need not be well-formed.
pub fn programs_are_gathered()
    ensures numbered { (program : Program) → IsTrue (well_formed program) →
        exit_faults program ≡ [] → AreGathered program (gathered_constraints program) }
    ensures named { (program : Program) → exit_faults program ≡ [] →
        IsGathered (program_demands program) (program_constraints program) }
{}

/// Each labelling of a well-formed program without a fault of its exits meets the program's demands exactly where it fits what the walk
/// gives, with some labels for the inner unknowns: the label of a local or a loop has the number that `unwritten_number` says.
pub fn labellings_fit_what_is_gathered()
    ensures { (program : Program) → IsTrue (well_formed program) → exit_faults program ≡ [] →
        (labelling : Labelling) → FitsDemands program.hierarchy labelling (program_demands program)
        ↔ FitsGathered program labelling }
{}

/// The unknowns of what the walk gives for a well-formed program have numbers below their count, which is at most four times the
/// nodes of the program.
pub fn unknowns_have_numbers_below_their_count()
    ensures below { (program : Program) → IsTrue (well_formed program) →
        AreUnknownsBelow (unknown_count program) (gathered_constraints program) }
    ensures count { (program : Program) → IsTrue (well_formed program) →
        unknown_count program ≤ 4 * program_nodes program }
{}

/// The size of what the walk gives, where each constraint counts one and one for each part of its left side, is at most twenty times
/// the nodes of the program, and three for each exception that a callee declares, at each call of it.
pub fn what_is_gathered_is_in_proportion_to_the_program()
    ensures { (program : Program) → size_of (gathered_constraints program)
        ≤ 20 * program_nodes program + 3 * declared_at_calls program }
{}

/// What the walk gives for a well-formed program without a fault of its exits stays gathered from the program's demands where some of
/// its flows go by further unknowns, whose numbers follow on those of the others.
pub fn flows_may_go_by_further_unknowns()
    ensures { (program : Program) → IsTrue (well_formed program) → exit_faults program ≡ [] →
        (base added : List Gathered) → IsRerouted (λ k. nat_le (real_unknowns program) k)
        (λ k. nat_le (unknown_count program) k) (gathered_constraints program) base added →
        AreConstraintsOf program (base ++ added) }
{}

/// Each labelling meets a program's demands exactly where it fits constraints that stand for them.
pub fn labellings_fit_constraints()
    ensures { (program : Program) (cs : List Gathered) → AreConstraintsOf program cs →
        (labelling : Labelling) → FitsDemands program.hierarchy labelling (program_demands program)
        ↔ FitsConstraints program cs labelling }
{}
