// Worked cases at the ends of the ranges, each with its proved result.
ghost use Rattle.std.specs.Prelude.{◌≡◌, pos, negsuc};
ghost use Rattle.operators.specs.declared.operator.Unary.TheVariants.{Negate};
ghost use Rattle.operators.specs.declared.operator.Binary.TheVariants.{Quotient, Remainder};
ghost use Rattle.operators.specs.Operators.{unary, binary};
ghost use Rattle.operators.specs.Division.{Divides};
ghost use Rattle.operators.specs.Minimums.{KeepsMinimum};
ghost use Rattle.values.specs.declared.value.Value.TheVariants as value;

use crate::operator::{Binary, Unary};
use values::value::Value;

/// Results at the minimum of one signed type, whose number has no negation in that type.
#[derive(Clone, Copy, Debug, PartialEq, Eq)]
pub struct AtMinimum {
    /// The minimum negated.
    pub negated: Value,
    /// The minimum quotient -1.
    pub quotient: Value,
    /// The minimum remainder -1.
    pub remainder: Value,
}

/// Results at the ends of the ranges.
#[derive(Clone, Copy, Debug, PartialEq, Eq)]
pub struct EdgeCases {
    /// 255 + 1 at Word8.
    pub sum: Value,
    /// -7 quotient 2 at Int8.
    pub fraction: Value,
    /// -7 remainder 2 at Int8.
    pub rest: Value,
    /// At -128.
    pub int8: AtMinimum,
    /// At -32,768.
    pub int16: AtMinimum,
    /// At -2,147,483,648.
    pub int32: AtMinimum,
    /// At -9,223,372,036,854,775,808.
    pub int64: AtMinimum,
}

// Negation, quotient and remainder by minus one, of the same type, at a minimum.
fn at_minimum(minimum: Value, minus_one: Value) -> AtMinimum
    ensures negated { result.negated ≡ unary Negate minimum }
    ensures quotient { result.quotient ≡ binary Quotient minimum minus_one }
    ensures remainder { result.remainder ≡ binary Remainder minimum minus_one }
{
    AtMinimum {
        negated: Unary::Negate.apply(minimum),
        quotient: Binary::Quotient.apply(minimum, minus_one),
        remainder: Binary::Remainder.apply(minimum, minus_one),
    }
}

/// The worked cases; and what every quotient and remainder is.
pub fn edge_cases() -> EdgeCases
    ensures sum { result.sum ≡ value.Word8 0 }
    ensures fraction { result.fraction ≡ value.Int8 (negsuc 2) }
    ensures rest { result.rest ≡ value.Int8 (negsuc 0) }
    ensures int8 { KeepsMinimum (value.Int8 (negsuc 127)) (value.Int8 (pos 0)) result.int8 }
    ensures int16 { KeepsMinimum (value.Int16 (negsuc 32767)) (value.Int16 (pos 0)) result.int16 }
    ensures int32 { KeepsMinimum (value.Int32 (negsuc 2147483647))
        (value.Int32 (pos 0)) result.int32 }
    ensures int64 { KeepsMinimum (value.Int64 (negsuc 9223372036854775807))
        (value.Int64 (pos 0)) result.int64 }
    ensures division { Divides }
{
    EdgeCases {
        sum: Binary::Add.apply(Value::Word8(255), Value::Word8(1)),
        fraction: Binary::Quotient.apply(Value::Int8(-7), Value::Int8(2)),
        rest: Binary::Remainder.apply(Value::Int8(-7), Value::Int8(2)),
        int8: at_minimum(Value::Int8(i8::MIN), Value::Int8(-1)),
        int16: at_minimum(Value::Int16(i16::MIN), Value::Int16(-1)),
        int32: at_minimum(Value::Int32(i32::MIN), Value::Int32(-1)),
        int64: at_minimum(Value::Int64(i64::MIN), Value::Int64(-1)),
    }
}
