//! What a check has to decide, and what an accepted program promises, for all texts.

ghost use Rattle.acceptance.specs.Accepted.{StandFor};
ghost use Rattle.acceptance.specs.Laws.{GivesNames, HasOneVerdict, HasVerdict, KeepsHierarchy, UnmetDemandsEndChains};
ghost use Rattle.resolved.specs.Isolated.{Isolated};
ghost use Rattle.resolved.specs.Program.{Program};
ghost use Rattle.std.specs.Prelude.{List, ℕ};

/// Every two lists of bytes have one verdict: they stand for one program, or the first text that is wrong is refused, for one reason
/// at one byte; and not both.
pub fn one_verdict()
    ensures some { HasVerdict }
    ensures one { HasOneVerdict }
{
    principals::laws::one_reading();
}

/// The first demand of a program that cannot be met is the first with a written right side that does not hold under the least labels
/// of its locals and loops, and a flow chain ends there, which leads from a policy of a written label.
pub fn unmet_demands_end_chains()
    ensures { UnmetDemandsEndChains }
{}

/// A program that a source is resolved to under a hierarchy has that hierarchy. Its exceptions and channels have different names in
/// UTF-8 of at most 1 MiB, which are none of the built-in exceptions, and the labels of its channels are canonical; so where the
/// principals have different names such as a module file holds, the file holds all names of the program.
pub fn resolved_programs_have_names()
    ensures hierarchy { KeepsHierarchy }
    ensures names { GivesNames }
{
    types::laws::item_names_are_proper_and_different();
    types::laws::item_names_are_utf8();
    types::laws::hierarchies_and_channel_labels_are_kept();
}

/// A program that two texts stand for is isolated: for every principal, all worlds that agree for it and any two bounds on the rounds
/// of loops, one of the lists that it sees is a prefix of the other.
pub fn accepted_programs_are_isolated()
    ensures { (hierarchy source : List ℕ) (program : Program) → StandFor hierarchy source program →
        Isolated program }
{
    isolation::noninterference::labelled_programs_are_isolated();
}
