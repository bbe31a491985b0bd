// Opening, and a tick: storing its samples and judging it.
ghost use Rattle.std.specs.Prelude.{◌≡◌, ◌+◌, ◌^◌, ◌<◌, length};
ghost use Rattle.syntax.specs.declared.record.Kind.TheVariants.{Stream};
ghost use Rattle.syntax.specs.Entries.{count};
ghost use Rattle.lists.specs.Lists.{items};
ghost use Rattle.rings.specs.Calls.{OpensRings, StoresSamples, Judges, OpensAndJudges};
ghost use Rattle.rings.specs.Steps.{stored_value, worked_first};
ghost use Rattle.tables.specs.Contents.{greatest_lead_in};
ghost use Rattle.tables.specs.Tables.{records_of, streams_of, plan_of};
ghost use Rattle.engine.specs.Rings.{rings_of, HasRoom, value_at, samples_of};
ghost use Rattle.engine.specs.Laws.{AddsSamples, AddsValues, HoldsRows};

use crate::reading::work_out;
use crate::ring::slot;
use tables::table::Table;
use values::value::Value;

// Works a stream out and stores it at an index.
fn store(table: &Table, rings: &mut [u64], stream: usize, index: usize)
    requires room { HasRoom table.now rings.old }
    requires known { stream < length (streams_of table.now) }
    requires near { index < 2 ^ 40 }
    ensures { rings.new ≡ stored_value (rings_of table.now) rings.old stream index }
{
    let word = work_out(table, rings, stream, index).word();
    rings[slot(&table.streams()[stream].ring, index)] = word;
}

// Works the streams out at a tick, in the order of evaluation. Ticks are counted from the first
// opening tick, `top` before the first judged one; an index below 0 is skipped.
fn work_tick(table: &Table, rings: &mut [u64], tick: usize, top: usize)
    requires room { HasRoom table.now rings.old }
    requires near { tick < 2 ^ 39 }
    ensures { rings.new ≡ worked_first (rings_of table.now) (items (plan_of table.now).order) top tick
        rings.old (count Stream (records_of table.now)) }
{
    for stream in table.order() {
        let end = tick + table.streams()[*stream].ring.lead as usize;
        if top <= end {
            store(table, rings, *stream, end - top);
        }
    }
}

/// Clears the rings and works the opening ticks.
pub fn open(table: &Table, rings: &mut [u64])
    requires { HasRoom table.now rings.old }
    ensures { OpensRings (rings_of table.now) rings.old rings.new }
{
    rings[..table.counts().slots].fill(0);
    let top = table.greatest_lead() as usize;
    for tick in 0..top {
        work_tick(table, rings, tick, top);
    }
}

/// Stores the samples of a tick: of each declared channel the row's value.
pub fn store_samples(table: &Table, rings: &mut [u64], tick: u32, row: &[Value; 16])
    requires { HasRoom table.now rings.old }
    ensures made { StoresSamples (rings_of table.now) tick (value_at row.now) rings.old rings.new }
    ensures holds { AddsSamples table.now tick (value_at row.now) rings.old rings.new }
{
    for (number, channel) in table.channels().iter().enumerate() {
        rings[slot(&channel.ring, tick as usize)] = row[number].word();
    }
}

/// Works out and stores every stream's value of a tick.
pub fn judge(table: &Table, rings: &mut [u64], tick: u32)
    requires { HasRoom table.now rings.old }
    ensures made { Judges (rings_of table.now) tick rings.old rings.new }
    ensures holds { AddsValues table.now tick rings.old rings.new }
{
    let top = table.greatest_lead() as usize;
    work_tick(table, rings, tick as usize + top, top);
}

/// Opens the rings, and then stores the samples of a tick for each row and judges it.
pub fn run(table: &Table, rings: &mut [u64], rows: &[[Value; 16]])
    requires room { HasRoom table.now rings.old }
    requires few { length rows.now < 2 ^ 32 }
    ensures made { OpensAndJudges (rings_of table.now) (samples_of rows.now) (length rows.now)
        rings.old rings.new }
    ensures holds { HoldsRows table.now rows.now rings.new }
{
    open(table, rings);
    for (tick, row) in rows.iter().enumerate() {
        store_samples(table, rings, tick as u32, row);
        judge(table, rings, tick as u32);
    }
}
