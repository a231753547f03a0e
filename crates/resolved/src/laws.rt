//! Laws of the definitions, each the contract of a function that does nothing.
ghost use Rattle.lattices.specs.Constraints.{FitsAll, IsRefusedAt, StandsFor, holds, reported_gathered, reported_steps};
ghost use Rattle.labels.specs.LabelLattice.{label_lattice};
ghost use Rattle.labels.specs.Label.{Label, ReaderPolicy};
ghost use Rattle.principals.specs.ActsFor.{PrincipalHierarchy};
ghost use Rattle.resolved.specs.BitUse.{expression_uses_bits, procedures_use_bits, statement_uses_bits, uses_bits};
ghost use Rattle.resolved.specs.ExitFaults.{procedure_faults, statement_faults};
ghost use Rattle.resolved.specs.Exits.{statement_exits};
ghost use Rattle.resolved.specs.Flow.{AreGathered, AreLeast, FlowBothWays, Gathered, IsFlowChain, IsProgramRefused, IsUncovered, reported_step};
ghost use Rattle.resolved.specs.Kinds.{MeaningKeepsTypes, RunsBeginTyped, ValuesHaveTheirTypes};
ghost use Rattle.resolved.specs.LabelRules.{demands_from, statement_demands, statement_exit_labels};
ghost use Rattle.resolved.specs.Labelled.{Demand, FitsDemands, Holds, Join, Labelled, LabelledByTests, Labelling, Scope, Unwritten, exit_faults, program_demands, rule_of, whole};
ghost use Rattle.resolved.specs.Precise.{IsAcceptable, handler_of_one, raising_argument, short_circuit, two_normal_exits};
ghost use Rattle.resolved.specs.Program.{Program};
ghost use Rattle.resolved.specs.Tree.{Statement};
ghost use Rattle.resolved.specs.declared.statement.Exit.{Exit};
ghost use Rattle.std.specs.List.{list_any};
ghost use Rattle.std.specs.Prelude.{All, Bool, Contains, IsTrue, List, flat_map, ℕ, ◌≡◌, ◌↔◌, ◌⊎◌};

/// In a state that fits the tables, an expression of a base type has a value of that type or raises an exception; the meaning of
/// what fits goes from states that fit to states that fit; and a run begins in one. So no operator, condition, index, argument,
/// returned or sent value of a well-formed program is ever of the wrong kind: each is the value of an expression of which being
/// well formed demands that base type.
pub fn values_keep_their_types()
    ensures values { ValuesHaveTheirTypes }
    ensures meaning { MeaningKeepsTypes }
    ensures begin { RunsBeginTyped }
{}

/// A demand holds where the test of flow says so, and a program is labelled where the tests of all its demands do.
pub fn tests_decide_demands()
    ensures holds { (h : PrincipalHierarchy) (labelling : Labelling) (d : Demand) →
        IsTrue (holds (label_lattice h) labelling d) ↔ Holds h labelling d }
    ensures fits { (h : PrincipalHierarchy) (labelling : Labelling) (demands : List Demand) →
        FitsDemands h labelling demands ↔ All (Holds h labelling) demands }
    ensures labelled { (program : Program) → LabelledByTests program ↔ Labelled program }
{}

/// Every program is labelled or refused, and not both. Its locals and loops have least labels, which are unique up to flow both ways
/// and with which the program is labelled where it is labelled at all. Where it is refused, a flow chain leads from a policy of a
/// written label to the first demand with a written right side that does not hold under the least labels; and a chain rules out
/// every labelling.
pub fn programs_are_labelled_or_refused()
    ensures least { (program : Program) → (labels : Unwritten → Label) × AreLeast program labels }
    ensures unique { (program : Program) (labels others : Unwritten → Label) →
        AreLeast program labels → AreLeast program others → FlowBothWays program labels others }
    ensures tried { (program : Program) (labels : Unwritten → Label) → AreLeast program labels →
        Labelled program
        ↔ FitsAll (label_lattice program.hierarchy) (program_demands program) labels }
    ensures either { (program : Program) → Labelled program ⊎ ((policy : ReaderPolicy)
        × (chain : List Demand) × (last : Demand) × IsProgramRefused program policy chain last) }
    ensures ruled_out { (program : Program) (policy : ReaderPolicy) (chain : List Demand)
        (last : Demand) → IsFlowChain program policy chain last → Labelled program → ⊥ }
{}

/// What was gathered from a program's demands decides it: the program is labelled where some labels fit all that was gathered, and
/// where that is refused, the program is refused at the demand that the last of the chain stands for, with a chain of which the
/// same steps are reported.
pub fn gathered_constraints_decide()
    ensures labelled { (program : Program) (cs : List Gathered) → AreGathered program cs →
        Labelled program
        ↔ ((labels : ℕ → Label) × FitsAll (label_lattice program.hierarchy) cs labels) }
    ensures refused { (program : Program) (cs : List Gathered) (gathered : AreGathered program cs)
        (from : Label) (chain : List Gathered) (last : Gathered) (policy : ReaderPolicy) →
        IsRefusedAt (label_lattice program.hierarchy) cs from chain last → Contains from policy →
        IsUncovered program.hierarchy last.right policy →
        (there : List Demand) × (d : Demand) × IsProgramRefused program policy there d
        × StandsFor gathered.number gathered.inner cs d last
        × (reported_gathered reported_step chain ≡ reported_steps reported_step there) }
{}

/// What code and proofs walk apart is what the rules say: the possible exits of a statement, the labels of its exits, its demands and
/// its faults, and whether it uses an operator on bits; and so the demands, the faults and the bits of a program.
pub fn parts_are_those_of_the_rules()
    ensures exits { (scope : Scope) (in_loop reached : Bool) (pc : Join) (statement : Statement) →
        (rule_of scope in_loop reached pc statement).exits
        ≡ statement_exits scope.program statement }
    ensures labels { (scope : Scope) (in_loop reached : Bool) (pc : Join) (statement : Statement)
        (exit : Exit) → (whole pc (rule_of scope in_loop reached pc statement)).labels exit
        ≡ statement_exit_labels scope pc statement exit }
    ensures demands { (scope : Scope) (in_loop reached : Bool) (pc : Join) (statement : Statement) →
        (rule_of scope in_loop reached pc statement).demands
        ≡ statement_demands scope pc statement }
    ensures faults { (scope : Scope) (in_loop reached : Bool) (pc : Join) (statement : Statement) →
        (rule_of scope in_loop reached pc statement).faults
        ≡ statement_faults scope.program in_loop reached statement }
    ensures bits { (scope : Scope) (in_loop reached : Bool) (pc : Join) (statement : Statement) →
        list_any expression_uses_bits (rule_of scope in_loop reached pc statement).expressions
        ≡ statement_uses_bits statement }
    ensures all_demands { (program : Program) →
        program_demands program ≡ demands_from program 0 program.procedures }
    ensures all_faults { (program : Program) →
        exit_faults program ≡ flat_map (procedure_faults program) program.procedures }
    ensures all_bits { (program : Program) → uses_bits program ≡ procedures_use_bits program.procedures }
{}

/// What an over-strict rule would refuse is accepted: a short circuit whose right side raises nothing and a send after it; a call with
/// an argument that raises, of a procedure with an end label and without exceptions; a procedure that ends normally or by a return,
/// which a secret decides; and a handler that sends, of an exception that one public statement of a block raises which throws another
/// one by a secret.
pub fn precise_programs_are_accepted()
    ensures short_circuit { IsAcceptable short_circuit }
    ensures raising_argument { IsAcceptable raising_argument }
    ensures two_normal_exits { IsAcceptable two_normal_exits }
    ensures handler_of_one { IsAcceptable handler_of_one }
{}
