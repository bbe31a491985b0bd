// The codes of expressions.
ghost use Rattle.std.specs.Prelude.{◌≡◌};
ghost use Rattle.values.specs.Codes.{known};
ghost use Rattle.syntax.specs.Codes.{op_coded};

use operators::operator::{Binary, Unary};
use values::types::UnknownCode;

// What an expression's code says: the cases of a `Node` without what the bytes after the code say.
#[derive(Clone, Copy)]
pub(crate) enum Op {
    Constant,
    Channel,
    Stream,
    Unary(Unary),
    Cast,
    Binary(Binary),
    Choose,
}

impl TryFrom<u8> for Op {
    type Error = UnknownCode;

    ghost try_from_gives = { λ code r. r ≡ known code (op_coded code) };

    fn try_from(code: u8) -> Result<Op, UnknownCode> {
        match code {
            0x01 => Ok(Op::Constant),
            0x02 => Ok(Op::Channel),
            0x03 => Ok(Op::Stream),
            0x10 => Ok(Op::Unary(Unary::Not)),
            0x11 => Ok(Op::Unary(Unary::Negate)),
            0x20 => Ok(Op::Binary(Binary::And)),
            0x21 => Ok(Op::Binary(Binary::Or)),
            0x30 => Ok(Op::Binary(Binary::Add)),
            0x31 => Ok(Op::Binary(Binary::Subtract)),
            0x32 => Ok(Op::Binary(Binary::Multiply)),
            0x33 => Ok(Op::Binary(Binary::Quotient)),
            0x34 => Ok(Op::Binary(Binary::Remainder)),
            0x40 => Ok(Op::Binary(Binary::Equal)),
            0x41 => Ok(Op::Binary(Binary::Less)),
            0x42 => Ok(Op::Binary(Binary::AtMost)),
            0x50 => Ok(Op::Choose),
            0x60 => Ok(Op::Cast),
            _ => Err(UnknownCode { code }),
        }
    }
}
