// Tables that are accepted, opened, and judged on a few rows.
ghost use Rattle.std.specs.Prelude.{◌≤◌, length, IfOk};
ghost use Rattle.tables.specs.Tables.{streams_of, plan_of};

use crate::reading::newest;
use crate::rules::{arguments, find_called};
use crate::tick::{judge, open, store_samples};
use alarms::alarm::Arguments;
use std::alloc::Global;
use std::test::Fail;
use tables::line::BLANK_SHEET;
use tables::table::Table;
use values::value::Value;

// m3 = [0, 1, 2] ++ m2 and m2 = drop 1 m3, in Word8.
const TWO_STREAMS: [u8; 20] = [
    0x01, 0x00, 0x09, 0x02, 0x02, 0x03, 0x00, 0x01, 0x02, 0x03, 0x01, 0x00, 0x00, 0x06, 0x02, 0x02,
    0x00, 0x03, 0x00, 0x01,
];

// m0 = [0, 1, 2] ++ (channel 0 + 3), m1 = m0 + m0 and m2 = drop 2 m1, in Word64.
const THREE_STREAMS: [u8; 67] = [
    0x01, 0x00, 0x02, 0x01, 0x05, 0x00, 0x28, 0x02, 0x05, 0x03, 0, 0, 0, 0, 0, 0, 0, 0, 0, 0, 0, 0,
    0, 0, 0, 1, 0, 0, 0, 0, 0, 0, 0, 2, 0x30, 0x02, 0x00, 0x01, 0x05, 0, 0, 0, 0, 0, 0, 0, 3, 0x00,
    0x0a, 0x02, 0x05, 0x00, 0x30, 0x03, 0x00, 0x00, 0x03, 0x00, 0x00, 0x00, 0x06, 0x02, 0x05, 0x00,
    0x03, 0x01, 0x02,
];

// Whether the arm turned, whether a pass was read, the pass of a tick ago, and a rule for a turn without a pass.
const TURNSTILE: [u8; 31] = [
    0x01, 0x00, 0x02, 0x01, 0x01, 0x00, 0x02, 0x01, 0x01, 0x00, 0x06, 0x02, 0x01, 0x01, 0x00, 0x02,
    0x01, 0x00, 0x0c, 0x03, 0x00, 0x20, 0x02, 0x00, 0x10, 0x21, 0x02, 0x01, 0x03, 0x00, 0x00,
];

// Channels of Bool and Word8, and a rule whose guard is the one and whose argument is the other.
const ONE_RULE: [u8; 17] = [
    0x01, 0x00, 0x02, 0x01, 0x01, 0x00, 0x02, 0x01, 0x02, 0x00, 0x06, 0x03, 0x01, 0x02, 0x00, 0x02,
    0x01,
];

// The table of these bytes, where it has so many streams and no more than 8 slots.
fn accept(alloc: Global, bytes: &[u8], streams: usize) -> Result<Table, Fail>
    ensures { IfOk result (λ t. ((plan_of t).counts.slots ≤ 8) × (streams ≤ length (streams_of t))) }
{
    let mut table = Table::new(alloc)?;
    let mut sheet = BLANK_SHEET;
    if table.check(alloc, bytes, &mut sheet).is_err() {
        return Err(Fail::new("refused"));
    }
    if table.counts().slots > 8 || table.streams().len() < streams {
        return Err(Fail::new("another table"));
    }
    Ok(table)
}

#[test]
fn two_streams_repeat(rt: HostRuntime) -> Result<(), Fail> {
    let table = accept(rt.alloc(), &TWO_STREAMS, 2)?;
    let mut rings = [7; 8];
    open(&table, &mut rings);
    assert_eq!(rt; rings, [0, 0, 0, 0, 7, 7, 7, 7]);
    assert_eq!(rt; newest(&table, &rings, 0, 0), Some((0, Value::Word8(0))));
    assert_eq!(rt; newest(&table, &rings, 0, 1), None);
    for (tick, value) in [1u8, 2, 1, 2].iter().enumerate() {
        judge(&table, &mut rings, tick as u32);
        assert_eq!(rt;
            newest(&table, &rings, tick as u32 + 1, 1),
            Some((tick as u64, Value::Word8(*value)))
        );
    }
    assert_eq!(rt; rings, [2, 2, 2, 1, 7, 7, 7, 7]);
    Ok(())
}

#[test]
fn looks_ahead_of_a_channel(rt: HostRuntime) -> Result<(), Fail> {
    let table = accept(rt.alloc(), &THREE_STREAMS, 3)?;
    let mut rings = [7; 8];
    open(&table, &mut rings);
    for (tick, (sample, value)) in [(10, 4), (20, 26), (30, 46)].iter().enumerate() {
        store_samples(
            &table,
            &mut rings,
            tick as u32,
            &[Value::Word64(*sample); 16],
        );
        judge(&table, &mut rings, tick as u32);
        assert_eq!(rt;
            newest(&table, &rings, tick as u32 + 1, 2),
            Some((tick as u64, Value::Word64(*value)))
        );
    }
    Ok(())
}

#[test]
fn calls_where_an_arm_turned_without_a_pass(rt: HostRuntime) -> Result<(), Fail> {
    let table = accept(rt.alloc(), &TURNSTILE, 1)?;
    let mut rings = [7; 8];
    open(&table, &mut rings);
    let rows = [(false, true), (true, false), (false, false), (false, true)];
    for (tick, (pass, called)) in rows.iter().enumerate() {
        let mut row = [Value::Bool(true); 16];
        row[1] = Value::Bool(*pass);
        store_samples(&table, &mut rings, tick as u32, &row);
        judge(&table, &mut rings, tick as u32);
        assert_eq!(rt;
            find_called(&table, &rings, tick as u32).len() == 1,
            *called
        );
    }
    Ok(())
}

#[test]
fn gives_the_values_of_arguments(rt: HostRuntime) -> Result<(), Fail> {
    let table = accept(rt.alloc(), &ONE_RULE, 0)?;
    let mut rings = [7; 8];
    open(&table, &mut rings);
    let mut row = [Value::Word8(9); 16];
    row[0] = Value::Bool(true);
    store_samples(&table, &mut rings, 0, &row);
    judge(&table, &mut rings, 0);
    assert_eq!(rt;
        arguments(&table, &rings, 0, 0),
        Arguments::One(Value::Word8(9))
    );
    assert_eq!(rt; arguments(&table, &rings, 0, 1), Arguments::None);
    Ok(())
}
