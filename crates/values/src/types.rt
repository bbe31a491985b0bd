// The types of values.
ghost use Rattle.std.specs.Prelude.{◌≡◌};
ghost use Rattle.values.specs.Types.{type_coded, code, size, least, greatest, casts};
ghost use Rattle.values.specs.Codes.{known};

// The types of values, with their codes.
#[derive(Clone, Copy, Debug, PartialEq, Eq)]
pub enum Type {
    Bool = 1,
    Word8 = 2,
    Word16 = 3,
    Word32 = 4,
    Word64 = 5,
    Int8 = 6,
    Int16 = 7,
    Int32 = 8,
    Int64 = 9,
}

// A code that names nothing.
#[derive(Clone, Copy, Debug, PartialEq, Eq)]
pub struct UnknownCode {
    pub code: u8,
}

impl TryFrom<u8> for Type {
    type Error = UnknownCode;

    ghost try_from_gives = { λ code r. r ≡ known code (type_coded code) };

    fn try_from(code: u8) -> Result<Type, UnknownCode> {
        match code {
            1 => Ok(Type::Bool),
            2 => Ok(Type::Word8),
            3 => Ok(Type::Word16),
            4 => Ok(Type::Word32),
            5 => Ok(Type::Word64),
            6 => Ok(Type::Int8),
            7 => Ok(Type::Int16),
            8 => Ok(Type::Int32),
            9 => Ok(Type::Int64),
            _ => Err(UnknownCode { code }),
        }
    }
}

impl From<Type> for u8 {
    ghost from_gives = { λ ty n. n ≡ code ty };

    fn from(ty: Type) -> u8 {
        ty as u8
    }
}

impl Type {
    // How many bytes a value takes.
    pub fn size(self) -> usize
        ensures { result ≡ size self }
    {
        match self {
            Type::Bool | Type::Word8 | Type::Int8 => 1,
            Type::Word16 | Type::Int16 => 2,
            Type::Word32 | Type::Int32 => 4,
            Type::Word64 | Type::Int64 => 8,
        }
    }

    // The least number of this type.
    fn least(self) -> i128
        ensures { result ≡ least self }
    {
        match self {
            Type::Bool | Type::Word8 | Type::Word16 | Type::Word32 | Type::Word64 => 0,
            Type::Int8 => i128::from(i8::MIN),
            Type::Int16 => i128::from(i16::MIN),
            Type::Int32 => i128::from(i32::MIN),
            Type::Int64 => i128::from(i64::MIN),
        }
    }

    // The greatest number of this type.
    fn greatest(self) -> i128
        ensures { result ≡ greatest self }
    {
        match self {
            Type::Bool => 1,
            Type::Word8 => i128::from(u8::MAX),
            Type::Word16 => i128::from(u16::MAX),
            Type::Word32 => i128::from(u32::MAX),
            Type::Word64 => i128::from(u64::MAX),
            Type::Int8 => i128::from(i8::MAX),
            Type::Int16 => i128::from(i16::MAX),
            Type::Int32 => i128::from(i32::MAX),
            Type::Int64 => i128::from(i64::MAX),
        }
    }

    // Whether every number of this type is a number of the other; true and false count as 1 and 0.
    pub fn casts_to(self, to: Type) -> bool
        ensures { result ≡ casts self to }
    {
        to.least() <= self.least() && self.greatest() <= to.greatest()
    }
}
