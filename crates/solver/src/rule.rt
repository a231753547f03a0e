//! Which rule of labels asks for a constraint.

ghost use Rattle.solver.specs.Rule.{rule_number};
ghost use Rattle.std.specs.Prelude.{◌≡◌};

/// The rules of labels that demand something, each by what it makes demands on, with the number that it has in messages. What lies
/// between the labels of a program is above its parts by none of them, and has the number 0.
#[derive(Clone, Copy, Debug, PartialEq, Eq)]
pub enum Rule {
    Between = 0,
    Assignment = 1,
    ArrayDeclaration = 2,
    Store = 3,
    Receive = 4,
    Send = 5,
    Call = 6,
    While = 8,
    Return = 10,
    ProcedureExits = 13,
}

impl Rule {
    /// The number that the rule has in messages, and 0 for none.
    pub fn number(self) -> u8
        ensures { result ≡ rule_number self }
    {
        self as u8
    }
}
