// The first bytes of an expression.
ghost use Rattle.std.specs.Prelude.{◌≡◌, ◌+◌, ◌-◌, ◌<◌, length, OnOk};
ghost use Rattle.faults.specs.declared.cause.Cause.TheVariants.{Malformed};
ghost use Rattle.syntax.specs.Heads.{head};
ghost use Rattle.syntax.specs.Readers.{Finds};

use crate::codes::Op;
use crate::reader::Reader;
use crate::tree::Node;
use faults::cause::Cause;
use values::types::Type;
use values::value::Value;

// How many indexes ahead a stream is named at most.
const MOST_DROP: u8 = 63;

impl<'a> Reader<'a> {
    // The first bytes of the expression that comes next, with `depth` levels left.
    #[tactic(auto, unfolding(crate::specs::Heads::head))]
    pub(crate) fn head(&mut self, depth: u8) -> Result<Node, Cause>
        ensures value { Finds (λ n. n) self.old self.new result (head depth self.old.bytes.now self.old.at) }
        ensures inside { OnOk result ((0 < depth) × (self.old.at < length self.old.bytes.now)) }
    {
        let at = self.at;
        let mut ahead = self.fork();
        let op = Op::try_from(ahead.byte()?).map_err(|_| Cause::Malformed(at))?;
        if depth == 0 {
            return Err(Cause::Limit(at));
        }
        let node = match op {
            Op::Constant => {
                let ty = ahead.read_type()?;
                Node::Constant(ahead.read_value(ty)?)
            }
            Op::Channel => Node::Channel(ahead.byte()?),
            Op::Stream => {
                let number = ahead.byte()?;
                let drop = ahead.byte()?;
                if drop > MOST_DROP {
                    return Err(Cause::Limit(at + 2));
                }
                Node::Stream(number, drop)
            }
            Op::Unary(op) => Node::Unary(op),
            Op::Cast => Node::Cast(ahead.read_type()?),
            Op::Binary(op) => Node::Binary(op),
            Op::Choose => Node::Choose,
        };
        self.at = ahead.at;
        Ok(node)
    }
}
