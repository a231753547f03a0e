//! The operators. Texts, programs and modules use these types.

ghost use Rattle.common.specs.Operators.{opposite, opposite_order, opposite_sameness};
ghost use Rattle.std.specs.Prelude.{◌≡◌};

/// An operator before its operand.
#[derive(Clone, Copy, Debug, PartialEq, Eq)]
pub enum Prefix {
    /// `-`
    Negate,
    /// `!`
    Not,
}

/// What two ints are computed to, in 32 bits. A division or a remainder by zero raises `Arith`.
#[derive(Clone, Copy, Debug, PartialEq, Eq)]
pub enum Arithmetic {
    Add,
    Subtract,
    Multiply,
    Divide,
    Remainder,
    Bits(BitOperator),
}

/// What the bits of two ints, those of the two's complement, are made to. A shift is by the low five bits of its right side.
#[derive(Clone, Copy, Debug, PartialEq, Eq)]
pub enum BitOperator {
    BitAnd,
    BitOr,
    BitXor,
    ShiftLeft,
    /// Fills with the sign.
    ShiftRight,
    /// Fills with zeros.
    ShiftRightUnsigned,
}

/// How two ints are compared.
#[derive(Clone, Copy, Debug, PartialEq, Eq)]
pub enum Comparison {
    Ordered(Order),
    Matched(Sameness),
}

impl Comparison {
    /// The comparison that is true exactly where this one is false.
    pub fn opposite(self) -> Comparison
        ensures { result ≡ opposite self }
    {
        match self {
            Comparison::Ordered(order) => Comparison::Ordered(order.opposite()),
            Comparison::Matched(sameness) => Comparison::Matched(sameness.opposite()),
        }
    }
}

/// `<`, `<=`, `>` and `>=`.
#[derive(Clone, Copy, Debug, PartialEq, Eq)]
pub enum Order {
    LessThan,
    AtMost,
    GreaterThan,
    AtLeast,
}

impl Order {
    fn opposite(self) -> Order
        ensures { result ≡ opposite_order self }
    {
        match self {
            Order::LessThan => Order::AtLeast,
            Order::AtMost => Order::GreaterThan,
            Order::GreaterThan => Order::AtMost,
            Order::AtLeast => Order::LessThan,
        }
    }
}

/// `==` and `!=`.
#[derive(Clone, Copy, Debug, PartialEq, Eq)]
pub enum Sameness {
    Same,
    Different,
}

impl Sameness {
    /// The one that is true exactly where this one is false.
    pub fn opposite(self) -> Sameness
        ensures { result ≡ opposite_sameness self }
    {
        match self {
            Sameness::Same => Sameness::Different,
            Sameness::Different => Sameness::Same,
        }
    }
}

/// An operator that always evaluates both operands.
#[derive(Clone, Copy, Debug, PartialEq, Eq)]
pub enum Operator {
    /// An int of two ints, or the exception `Arith` where the divisor is 0.
    Compute(Arithmetic),
    /// A truth value of two ints.
    Compare(Comparison),
    /// A truth value of two truth values.
    Match(Sameness),
}

/// An operator that evaluates its right operand only where the left one does not decide.
#[derive(Clone, Copy, Debug, PartialEq, Eq)]
pub enum Connective {
    And,
    Or,
}
