//! Values.

ghost use Rattle.common.specs.Values.{kind_of, zero_of};
ghost use Rattle.std.specs.Prelude.{◌≡◌};

use crate::base_type::BaseType;

/// A value of a variable, a slot or an operand: an int of 32 bits or a boolean.
#[derive(Clone, Copy, Debug, PartialEq, Eq)]
pub enum Value {
    Int(i32),
    Bool(bool),
}

impl Value {
    /// The value that a scalar of this kind, and each element of an array, starts with: 0 or `false`.
    pub fn zero_of(kind: BaseType) -> Value
        ensures { result ≡ zero_of kind }
    {
        match kind {
            BaseType::Int => Value::Int(0),
            BaseType::Boolean => Value::Bool(false),
        }
    }

    /// The kind of the value.
    pub fn kind(self) -> BaseType
        ensures { result ≡ kind_of self }
    {
        match self {
            Value::Int(_) => BaseType::Int,
            Value::Bool(_) => BaseType::Boolean,
        }
    }
}
