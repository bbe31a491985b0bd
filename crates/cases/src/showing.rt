// What streams of two worked tables show, tick by tick.
ghost use Rattle.std.specs.Prelude.{◌≡◌, ◌<◌, length, replicate, Ok, IfOk};
ghost use Rattle.cases.specs.Cases.{Checks};
ghost use Rattle.cases.specs.Showing.{AddsTick, Shows, m2_repeating, m2_ahead};
ghost use Rattle.equations.specs.Examples.{m3_and_m2, m0_to_m2};
ghost use Rattle.engine.specs.Rings.{HasRoom, value_at};
ghost use Rattle.tables.specs.Checking.{Accepting};
ghost use Rattle.tables.specs.Reading.{checked};
ghost use Rattle.tables.specs.Tables.{records_of, streams_of};

use crate::{TWO_STREAMS, three_streams};
use engine::reading::newest;
use engine::tick::{judge, open, store_samples};
use std::alloc::{AllocError, Global};
use tables::line::BLANK_SHEET;
use tables::rejection::Rejection;
use tables::table::Table;
use values::value::Value;

// The table of bytes that the check accepts.
fn accept(alloc: Global, bytes: &[u8]) -> Result<Table, AllocError>
    requires { Checks bytes.now Accepting }
    ensures { IfOk result (λ t. checked bytes.now ≡ Ok (records_of t)) }
{
    let mut table = Table::new(alloc)?;
    let mut sheet = BLANK_SHEET;
    match table.check(alloc, bytes, &mut sheet) {
        Ok(_) => Ok(table),
        Err(Rejection::Refused(_)) => unreachable!(),
        Err(Rejection::Memory) => Err(AllocError),
    }
}

// Stores a tick's row and judges it; then the newest index and value of a stream.
fn turn(
    table: &Table,
    rings: &mut [u64],
    tick: u32,
    row: Value,
    stream: usize,
) -> Option<(u64, Value)>
    requires room { HasRoom table.now rings.old }
    requires few { tick < 4 }
    requires known { stream < length (streams_of table.now) }
    ensures long { length rings.new ≡ length rings.old }
    ensures adds { AddsTick table.now tick (value_at (replicate 16 row)) rings.old rings.new }
    ensures shows { Shows table.now tick rings.new stream result }
{
    store_samples(table, rings, tick, &[row; 16]);
    judge(table, rings, tick);
    newest(table, rings, tick + 1, stream)
}

// What m2 has at indexes 0 to 3, as it comes.
fn show_m3_and_m2(table: &Table, rings: &mut [u64]) -> [Option<(u64, Value)>; 4]
    requires room { HasRoom table.now rings.old }
    requires records { records_of table.now ≡ m3_and_m2 }
    ensures { result ≡ m2_repeating }
{
    open(table, rings);
    let row = Value::Word8(0);
    let first = turn(table, rings, 0, row, 1);
    let second = turn(table, rings, 1, row, 1);
    let third = turn(table, rings, 2, row, 1);
    let fourth = turn(table, rings, 3, row, 1);
    [first, second, third, fourth]
}

// What m2 has at indexes 0 and 1, as it comes, where the samples are 10 and 20.
fn show_m0_to_m2(table: &Table, rings: &mut [u64]) -> [Option<(u64, Value)>; 2]
    requires room { HasRoom table.now rings.old }
    requires records { records_of table.now ≡ m0_to_m2 }
    ensures { result ≡ m2_ahead }
{
    open(table, rings);
    let first = turn(table, rings, 0, Value::Word64(10), 2);
    let second = turn(table, rings, 1, Value::Word64(20), 2);
    [first, second]
}

// The values of m2 = drop 1 m3, where m3 = [0, 1, 2] ++ m2, from the bytes of the two.
pub(crate) fn show_two(alloc: Global) -> Result<[Option<(u64, Value)>; 4], AllocError>
    ensures { IfOk result (λ shown. shown ≡ m2_repeating) }
{
    let table = accept(alloc, &TWO_STREAMS)?;
    let mut rings = vec![in alloc; 0u64; table.counts().slots]?;
    Ok(show_m3_and_m2(&table, &mut rings))
}

// The values of m2 = drop 2 m1, where m1 = m0 + m0 and m0 = [0, 1, 2] ++ (channel 0 + 3), from the
// bytes of the three.
pub(crate) fn show_three(alloc: Global) -> Result<[Option<(u64, Value)>; 2], AllocError>
    ensures { IfOk result (λ shown. shown ≡ m2_ahead) }
{
    let table = accept(alloc, &three_streams(2))?;
    let mut rings = vec![in alloc; 0u64; table.counts().slots]?;
    Ok(show_m0_to_m2(&table, &mut rings))
}
