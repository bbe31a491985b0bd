// Arithmetic and comparison. Operands of one type, as all in a typed expression are, take that type's
// own operation; those of two types go by integers of 128 bits, so no operator asks anything of them.
ghost use Rattle.std.specs.Prelude.{◌≡◌, ◌+ℤ◌, ◌-ℤ◌, ◌*ℤ◌, neg_ℤ, int_div, int_le, int_lt, int_rem};
ghost use Rattle.values.specs.Values.{type_of, num, wrap};
ghost use Rattle.operators.specs.Operators.{eq_z};

use values::types::Type;
use values::value::Value;

// One operation of the operands' own type, or the same by integers where they have two types.
macro_rules! by_type {
    ($a:expr, $b:expr, $op:ident) => {
        match ($a, $b) {
            (Value::Word8(a), Value::Word8(b)) => Value::Word8(a.$op(b)),
            (Value::Word16(a), Value::Word16(b)) => Value::Word16(a.$op(b)),
            (Value::Word32(a), Value::Word32(b)) => Value::Word32(a.$op(b)),
            (Value::Word64(a), Value::Word64(b)) => Value::Word64(a.$op(b)),
            (Value::Int8(a), Value::Int8(b)) => Value::Int8(a.$op(b)),
            (Value::Int16(a), Value::Int16(b)) => Value::Int16(a.$op(b)),
            (Value::Int32(a), Value::Int32(b)) => Value::Int32(a.$op(b)),
            (Value::Int64(a), Value::Int64(b)) => Value::Int64(a.$op(b)),
            _ => wrapped($a.ty(), $a.number().$op($b.number())),
        }
    };
}

// A comparison of the operands' own type, or of their numbers.
macro_rules! ordered {
    ($a:expr, $b:expr, $op:tt) => {
        match ($a, $b) {
            (Value::Word8(a), Value::Word8(b)) => a $op b,
            (Value::Word16(a), Value::Word16(b)) => a $op b,
            (Value::Word32(a), Value::Word32(b)) => a $op b,
            (Value::Word64(a), Value::Word64(b)) => a $op b,
            (Value::Int8(a), Value::Int8(b)) => a $op b,
            (Value::Int16(a), Value::Int16(b)) => a $op b,
            (Value::Int32(a), Value::Int32(b)) => a $op b,
            (Value::Int64(a), Value::Int64(b)) => a $op b,
            _ => $a.number() $op $b.number(),
        }
    };
}

// A division of the operands' own type, or the same by integers; `$none` is its number where the divisor is 0.
macro_rules! divided {
    ($a:expr, $b:expr, $op:ident, $none:expr) => {
        match ($a, $b) {
            (Value::Word8(a), Value::Word8(b)) if b != 0 => Value::Word8(a.$op(b)),
            (Value::Word16(a), Value::Word16(b)) if b != 0 => Value::Word16(a.$op(b)),
            (Value::Word32(a), Value::Word32(b)) if b != 0 => Value::Word32(a.$op(b)),
            (Value::Word64(a), Value::Word64(b)) if b != 0 => Value::Word64(a.$op(b)),
            (Value::Int8(a), Value::Int8(b)) if b != 0 => Value::Int8(a.$op(b)),
            (Value::Int16(a), Value::Int16(b)) if b != 0 => Value::Int16(a.$op(b)),
            (Value::Int32(a), Value::Int32(b)) if b != 0 => Value::Int32(a.$op(b)),
            (Value::Int64(a), Value::Int64(b)) if b != 0 => Value::Int64(a.$op(b)),
            _ => {
                let (a, b) = ($a.number(), $b.number());
                if b == 0 { wrapped($a.ty(), $none) } else { wrapped($a.ty(), a.$op(b)) }
            }
        }
    };
}

// An integer wrapped into a type's range.
fn wrapped(ty: Type, number: i128) -> Value
    ensures { result ≡ wrap ty number }
{
    ty.from_word(number.rem_euclid(1 << 64) as u64)
}

pub(crate) fn add(a: Value, b: Value) -> Value
    ensures { result ≡ wrap (type_of a) (num a +ℤ num b) }
{
    by_type!(a, b, wrapping_add)
}

pub(crate) fn subtract(a: Value, b: Value) -> Value
    ensures { result ≡ wrap (type_of a) (num a -ℤ num b) }
{
    by_type!(a, b, wrapping_sub)
}

pub(crate) fn multiply(a: Value, b: Value) -> Value
    ensures { result ≡ wrap (type_of a) (num a *ℤ num b) }
{
    by_type!(a, b, wrapping_mul)
}

pub(crate) fn quotient(a: Value, b: Value) -> Value
    ensures { result ≡ wrap (type_of a) (int_div (num a) (num b)) }
{
    divided!(a, b, wrapping_div, 0)
}

pub(crate) fn remainder(a: Value, b: Value) -> Value
    ensures { result ≡ wrap (type_of a) (int_rem (num a) (num b)) }
{
    divided!(a, b, wrapping_rem, a.number())
}

pub(crate) fn negate(a: Value) -> Value
    ensures { result ≡ wrap (type_of a) (neg_ℤ (num a)) }
{
    match a {
        Value::Bool(b) => Value::Bool(b),
        Value::Word8(n) => Value::Word8(n.wrapping_neg()),
        Value::Word16(n) => Value::Word16(n.wrapping_neg()),
        Value::Word32(n) => Value::Word32(n.wrapping_neg()),
        Value::Word64(n) => Value::Word64(n.wrapping_neg()),
        Value::Int8(n) => Value::Int8(n.wrapping_neg()),
        Value::Int16(n) => Value::Int16(n.wrapping_neg()),
        Value::Int32(n) => Value::Int32(n.wrapping_neg()),
        Value::Int64(n) => Value::Int64(n.wrapping_neg()),
    }
}

pub(crate) fn equal(a: Value, b: Value) -> bool
    ensures { result ≡ eq_z (num a) (num b) }
{
    ordered!(a, b, ==)
}

pub(crate) fn less(a: Value, b: Value) -> bool
    ensures { result ≡ int_lt (num a) (num b) }
{
    ordered!(a, b, <)
}

pub(crate) fn at_most(a: Value, b: Value) -> bool
    ensures { result ≡ int_le (num a) (num b) }
{
    ordered!(a, b, <=)
}
