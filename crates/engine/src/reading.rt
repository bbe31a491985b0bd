// What is read off the rings of a table.
ghost use Rattle.std.specs.Prelude.{◌≡◌, ◌+◌, ◌^◌, ◌<◌, length, MatchOption, IfSome};
ghost use Rattle.syntax.specs.Trees.{exp};
ghost use Rattle.equations.specs.Equations.{by_equation};
ghost use Rattle.rings.specs.Memory.{samples_in, values_in};
ghost use Rattle.tables.specs.Tables.{records_of, streams_of};
ghost use Rattle.engine.specs.Known.{IsOwn};
ghost use Rattle.engine.specs.Rings.{rings_of, lead_of, HasRoom, read_at};
ghost use Rattle.engine.specs.Laws.{ShowsValue};

use crate::reader::Reader;
use crate::ring::slot;
use evaluation::evaluate::evaluate;
use syntax::tree::Expr;
use tables::table::Table;
use values::value::Value;

// The value of an expression of a table at a place.
pub(crate) fn read(table: &Table, rings: &[u64], at: usize, e: &Expr) -> Value
    requires room { HasRoom table.now rings.now }
    requires own { IsOwn table.now (exp e.now) }
    requires near { at < 2 ^ 40 }
    ensures { result ≡ read_at table.now rings.now at (exp e.now) }
{
    evaluate(e, &Reader { table, rings, at })
}

// The value of a stream at an index, by its equation.
pub(crate) fn work_out(table: &Table, rings: &[u64], stream: usize, index: usize) -> Value
    requires room { HasRoom table.now rings.now }
    requires known { stream < length (streams_of table.now) }
    requires near { index < 2 ^ 40 }
    ensures { result ≡ by_equation (records_of table.now) (samples_in (rings_of table.now) rings.now)
        (values_in (rings_of table.now) rings.now) stream index }
{
    let stream = &table.streams()[stream];
    let opening = stream.opening.len();
    if index < opening {
        stream.opening[index]
    } else {
        read(table, rings, index - opening, &stream.body)
    }
}

/// The newest index of a stream after so many judged ticks, and its value there; none where it has
/// no value yet.
pub fn newest(table: &Table, rings: &[u64], ticks: u32, stream: usize) -> Option<(u64, Value)>
    requires room { HasRoom table.now rings.now }
    requires known { stream < length (streams_of table.now) }
    ensures read { MatchOption result (ticks + lead_of table.now stream ≡ 0)
        (λ p. (p.0 + 1 ≡ ticks + lead_of table.now stream)
        × (p.1 ≡ values_in (rings_of table.now) rings.now stream p.0)) }
    ensures shows { IfSome result (λ p. ShowsValue table.now ticks rings.now stream p.0 p.1) }
{
    let stream = &table.streams()[stream];
    let end = u64::from(ticks) + u64::from(stream.ring.lead);
    if end == 0 {
        return None;
    }
    let index = end - 1;
    let slot = slot(&stream.ring, index as usize);
    Some((index, stream.ty.from_word(rings[slot])))
}
