// An expression from bytes.
ghost use Rattle.syntax.specs.Parsing.{parse};
ghost use Rattle.syntax.specs.Trees.{exp};
ghost use Rattle.syntax.specs.Readers.{Reads};

use crate::reader::Reader;
use crate::tree::{Expr, Node};
use faults::stop::Stop;
use std::alloc::Global;

impl<'a> Reader<'a> {
    // The operand that comes next, in a box of its own, at most `depth` deep.
    #[cycle(read_expression)]
    fn read_operand(&mut self, alloc: Global, depth: u8) -> Result<Box<Expr>, Stop>
        ensures { Reads (λ b. exp b.value) self.old self.new result (parse depth self.old.bytes.now self.old.at) }
    {
        let mut ahead = self.fork();
        let operand = Box::new(alloc, ahead.read_expression(alloc, depth)?)?;
        self.at = ahead.at;
        Ok(operand)
    }

    // The expression that comes next, at most `depth` deep.
    #[cycle(read_expression)]
    #[tactic(auto, using(std::proofs::lemmas::Bool::Decides::nat_tests, crate::proofs::Steps::parsed, crate::proofs::Steps::stops))]
    pub(crate) fn read_expression(&mut self, alloc: Global, depth: u8) -> Result<Expr, Stop>
        ensures { Reads exp self.old self.new result (parse depth self.old.bytes.now self.old.at) }
    {
        let at = self.at;
        let mut ahead = self.fork();
        let node = ahead.head(depth)?;
        // A byte stands there, so its place fits.
        let place = at as u16;
        let expression = match node {
            Node::Constant(value) => Expr::Constant { place, value },
            Node::Channel(number) => Expr::Channel { place, number },
            Node::Stream(number, drop) => Expr::Stream {
                place,
                number,
                drop,
            },
            Node::Unary(op) => {
                let operand = ahead.read_operand(alloc, depth - 1)?;
                Expr::Unary { place, op, operand }
            }
            Node::Cast(to) => {
                let operand = ahead.read_operand(alloc, depth - 1)?;
                Expr::Cast { place, to, operand }
            }
            Node::Binary(op) => {
                let left = ahead.read_expression(alloc, depth - 1)?;
                let right = ahead.read_expression(alloc, depth - 1)?;
                let operands = Box::new(alloc, (left, right))?;
                Expr::Binary {
                    place,
                    op,
                    operands,
                }
            }
            Node::Choose => {
                let test = ahead.read_expression(alloc, depth - 1)?;
                let yes = ahead.read_expression(alloc, depth - 1)?;
                let no = ahead.read_expression(alloc, depth - 1)?;
                let operands = Box::new(alloc, (test, yes, no))?;
                Expr::Choose { place, operands }
            }
        };
        self.at = ahead.at;
        Ok(expression)
    }
}
