// The tree of an expression.
use operators::operator::{Binary, Unary};
use values::types::Type;
use values::value::Value;

// How deep an expression is at most.
pub const DEPTH: u8 = 12;

// An expression; each node has the place of its first byte in the table, and its operands in one box.
#[derive(Drop)]
pub enum Expr {
    // A value written in the table.
    Constant {
        place: u16,
        value: Value,
    },
    // The sample of a channel.
    Channel {
        place: u16,
        number: u8,
    },
    // The value of a stream, so many indexes ahead.
    Stream {
        place: u16,
        number: u8,
        drop: u8,
    },
    Unary {
        place: u16,
        op: Unary,
        operand: Box<Expr>,
    },
    Cast {
        place: u16,
        to: Type,
        operand: Box<Expr>,
    },
    Binary {
        place: u16,
        op: Binary,
        operands: Box<(Expr, Expr)>,
    },
    // The value of the second operand where the first is true, else of the third.
    Choose {
        place: u16,
        operands: Box<(Expr, Expr, Expr)>,
    },
}

// The first bytes of an expression: all of it but its operands.
#[derive(Clone, Copy)]
pub(crate) enum Node {
    Constant(Value),
    Channel(u8),
    Stream(u8, u8),
    Unary(Unary),
    Cast(Type),
    Binary(Binary),
    Choose,
}
