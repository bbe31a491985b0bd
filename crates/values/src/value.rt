// A value, its number, and its word.
ghost use Rattle.std.specs.Prelude.{◌≡◌, true, pos, Some};
ghost use Rattle.values.specs.Texts.{value_text};
ghost use Rattle.values.specs.Types.{casts};
ghost use Rattle.values.specs.Values.{type_of, num, wrap, word, Proper, Wraps};

use crate::types::Type;
use std::fmt;

// A value, with its type.
#[derive(Clone, Copy, Debug, PartialEq, Eq)]
pub enum Value {
    Bool(bool),
    Word8(u8),
    Word16(u16),
    Word32(u32),
    Word64(u64),
    Int8(i8),
    Int16(i16),
    Int32(i32),
    Int64(i64),
}

impl Type {
    // The value whose low bits a word has: one bit for a Bool.
    pub fn from_word(self, word: u64) -> Value
        ensures { result ≡ wrap self (pos word) }
    {
        match self {
            Type::Bool => Value::Bool(word % 2 == 1),
            Type::Word8 => Value::Word8((word % (1 << 8)) as u8),
            Type::Word16 => Value::Word16((word % (1 << 16)) as u16),
            Type::Word32 => Value::Word32((word % (1 << 32)) as u32),
            Type::Word64 => Value::Word64(word),
            Type::Int8 => Value::Int8(((word % (1 << 8)) as u8).cast_signed()),
            Type::Int16 => Value::Int16(((word % (1 << 16)) as u16).cast_signed()),
            Type::Int32 => Value::Int32(((word % (1 << 32)) as u32).cast_signed()),
            Type::Int64 => Value::Int64(word.cast_signed()),
        }
    }
}

impl Value {
    // The value's type.
    pub fn ty(self) -> Type
        ensures { result ≡ type_of self }
    {
        match self {
            Value::Bool(_) => Type::Bool,
            Value::Word8(_) => Type::Word8,
            Value::Word16(_) => Type::Word16,
            Value::Word32(_) => Type::Word32,
            Value::Word64(_) => Type::Word64,
            Value::Int8(_) => Type::Int8,
            Value::Int16(_) => Type::Int16,
            Value::Int32(_) => Type::Int32,
            Value::Int64(_) => Type::Int64,
        }
    }

    // The value's number; true is 1.
    pub fn number(self) -> i128
        ensures value { result ≡ num self }
        ensures proper { Proper self }
    {
        match self {
            Value::Bool(b) => i128::from(b),
            Value::Word8(n) => i128::from(n),
            Value::Word16(n) => i128::from(n),
            Value::Word32(n) => i128::from(n),
            Value::Word64(n) => i128::from(n),
            Value::Int8(n) => i128::from(n),
            Value::Int16(n) => i128::from(n),
            Value::Int32(n) => i128::from(n),
            Value::Int64(n) => i128::from(n),
        }
    }

    // The value's 64-bit two's complement, from which its type gets it back.
    pub fn word(self) -> u64
        ensures value { result ≡ word self }
        ensures back { wrap (type_of self) (pos result) ≡ self }
    {
        match self {
            Value::Bool(b) => u64::from(b),
            Value::Word8(n) => u64::from(n),
            Value::Word16(n) => u64::from(n),
            Value::Word32(n) => u64::from(n),
            Value::Word64(n) => n,
            Value::Int8(n) => i64::from(n).cast_unsigned(),
            Value::Int16(n) => i64::from(n).cast_unsigned(),
            Value::Int32(n) => i64::from(n).cast_unsigned(),
            Value::Int64(n) => n.cast_unsigned(),
        }
    }

    // The value of another type with this number, wrapped where that type has none.
    pub fn cast(self, to: Type) -> Value
        ensures value { result ≡ wrap to (num self) }
        ensures kept { casts (type_of self) to ≡ true → num result ≡ num self }
        ensures wraps { Wraps }
    {
        to.from_word(self.word())
    }
}

// Writes the type's code and the number: `02=5` is the Word8 of 5.
impl fmt::Display for Value {
    ghost output = { λ value. Some (value_text value) };

    fn fmt<W: fmt::Write>(&self, f: &mut fmt::Formatter<W>) -> fmt::Result {
        let code = u8::from(self.ty());
        let number = self.number();
        write!(f, "0{code}={number}")
    }
}
