//! Laws of runs: how they end, and how they go on with more fuel.

ghost use Rattle.isolation.specs.Runs.{BlocksEndAsTheyMay, CallsEndAsDeclared, CallsGiveTheirValue, RunsGoOn, SentOnlyGrows, SentStaysSent, StatementsEndAsTheyMay};
ghost use Rattle.resolved.specs.Program.{Program};

/// Each exit that the meaning gives a statement or a block is one of its possible exits, in every program without a fault of its
/// exits, from every state, with every amount of fuel and number of frames. A call ends normally or by an exception that its procedure
/// declares.
pub fn exits_are_possible()
    ensures statements { (program : Program) → StatementsEndAsTheyMay program }
    ensures blocks { (program : Program) → BlocksEndAsTheyMay program }
    ensures calls { (program : Program) → CallsEndAsDeclared program }
{}

/// A call of a procedure with a value that ends normally gives one, of the procedure's base type, in every well-formed program without
/// a fault of its exits, with every amount of fuel and number of frames.
pub fn calls_give_their_value()
    ensures { (program : Program) → CallsGiveTheirValue program }
{}

/// Nothing that was sent is taken back: what was sent before a statement is a prefix of what is sent after it.
pub fn sent_stays_sent()
    ensures { (program : Program) → SentStaysSent program }
{}

/// More fuel changes no exit that was reached, and adds to what was sent at its end only.
pub fn more_fuel_goes_on()
    ensures runs { (program : Program) → RunsGoOn program }
    ensures sent { (program : Program) → SentOnlyGrows program }
{}
