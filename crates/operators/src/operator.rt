// Operators and what they make of their operands.
ghost use Rattle.std.specs.Prelude.{◌≡◌};
ghost use Rattle.operators.specs.Operators.{truth, unary, binary, chosen};

use crate::arithmetic::{
    add, at_most, equal, less, multiply, negate, quotient, remainder, subtract,
};
use values::value::Value;

// An operator with one operand.
#[derive(Clone, Copy, Debug, PartialEq, Eq)]
pub enum Unary {
    Not,
    Negate,
}

// An operator with two operands.
#[derive(Clone, Copy, Debug, PartialEq, Eq)]
pub enum Binary {
    And,
    Or,
    Add,
    Subtract,
    Multiply,
    Quotient,
    Remainder,
    Equal,
    Less,
    AtMost,
}

// Whether a value is the Bool true.
pub fn is_true(value: Value) -> bool
    ensures { result ≡ truth value }
{
    matches!(value, Value::Bool(true))
}

impl Unary {
    // The operator's value.
    pub fn apply(self, operand: Value) -> Value
        ensures { result ≡ unary self operand }
    {
        match self {
            Unary::Not => Value::Bool(!is_true(operand)),
            Unary::Negate => negate(operand),
        }
    }
}

impl Binary {
    // The operator's value; integer results have the first operand's type.
    pub fn apply(self, left: Value, right: Value) -> Value
        ensures { result ≡ binary self left right }
    {
        match self {
            Binary::And => Value::Bool(is_true(left) && is_true(right)),
            Binary::Or => Value::Bool(is_true(left) || is_true(right)),
            Binary::Add => add(left, right),
            Binary::Subtract => subtract(left, right),
            Binary::Multiply => multiply(left, right),
            Binary::Quotient => quotient(left, right),
            Binary::Remainder => remainder(left, right),
            Binary::Equal => Value::Bool(equal(left, right)),
            Binary::Less => Value::Bool(less(left, right)),
            Binary::AtMost => Value::Bool(at_most(left, right)),
        }
    }
}

/// The value if true where the test holds, otherwise the value if false.
pub fn choose(test: Value, yes: Value, no: Value) -> Value
    ensures { result ≡ chosen test yes no }
{
    if is_true(test) { yes } else { no }
}
