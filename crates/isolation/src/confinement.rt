//! Confinement: what a statement does where an observer may not know that it is reached.

ghost use Rattle.isolation.specs.Confinement.{PossibleEndsAreUnread, StatementsAreConfined};
ghost use Rattle.resolved.specs.Labelled.{Labelling, Scope};

/// At a label that a principal may not read, a labelled statement changes no variable, no input and no seen pair that the principal
/// may read, and the label of the exit that it comes to is one that the principal may not read: in every procedure of a labelled
/// program without a fault of its exits, from every state, with every amount of fuel and number of frames, and also where the run is stopped.
pub fn statements_are_confined()
    ensures { (scope : Scope) (labelling : Labelling) → StatementsAreConfined scope labelling }
{}

/// At a label that a principal may not read, every possible exit of a labelled statement without a fault of its exits has a label that
/// the principal may not read.
pub fn possible_exits_are_unread()
    ensures { (scope : Scope) (labelling : Labelling) → PossibleEndsAreUnread scope labelling }
{}
