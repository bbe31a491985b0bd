// A trace that ends, a sink that refuses for some ticks, and a table like the one that was opened.
use crate::plain_alarm;
use alarms::ledger::Ledger;
use alarms::sink::Sink;
use faults::cause::Cause;
use faults::fault::{Fault, Layer};
use monitor::counts::AlarmCounts;
use monitor::states::{Judged, Ready, Stopped};
use sampling::hold::Hold;
use sampling::panel::Panel;
use sampling::sampler::Sampler;
use std::alloc::Global;
use std::test::Fail;
use tables::line::BLANK_SHEET;
use tables::table::Table;
use traces::trace::Trace;

// No channel, no stream, and a rule whose guard is the constant true; and the same with false.
pub(crate) const ALWAYS: [u8; 8] = [1, 0, 5, 3, 0, 1, 1, 1];

const NEVER: [u8; 8] = [1, 0, 5, 3, 0, 1, 1, 0];

// A row without a value.
const EMPTY_ROW: [u8; 3] = [1, 0, 0];

// The table of these bytes.
pub(crate) fn table_of(alloc: Global, bytes: &[u8]) -> Result<Table, Fail> {
    let mut table = Table::new(alloc)?;
    let mut sheet = BLANK_SHEET;
    match table.check(alloc, bytes, &mut sheet) {
        Ok(_) => Ok(table),
        Err(_) => Err(Fail::new("refused")),
    }
}

// Samples and judges a tick.
fn judge_next<S: Sampler>(
    ready: Ready,
    table: &Table,
    sampler: &mut S,
) -> Result<(Judged, AlarmCounts), Fault> {
    let mut rings = [0u64; 1];
    let sampled = match ready.sample(table, &mut rings, sampler) {
        Ok(sampled) => sampled,
        Err(stopped) => return Err(stopped.fault),
    };
    match sampled.judge(table, &mut rings) {
        Ok(judged) => Ok(judged),
        Err(stopped) => Err(stopped.fault),
    }
}

// Makes a judged monitor ready, and says how many alarms that were still due it struck.
pub(crate) fn strike_out(mut judged: Judged) -> (Ready, u32) {
    let mut struck: u32 = 0;
    loop {
        match judged.close() {
            Ok(ready) => return (ready, struck),
            Err(Stopped { state, fault: _ }) => {
                judged = state;
                let _counts = judged.strike();
                struck = struck.saturating_add(1);
            }
        }
    }
}

#[test]
fn samples_until_a_trace_ends(rt: HostRuntime) -> Result<(), Fail> {
    let table = table_of(rt.alloc(), &NEVER)?;
    let Ok(ready) = Ready::open(&table, &mut []) else {
        return Err(Fail::new("not opened"));
    };
    let mut trace = Trace::new(rt.alloc())?;
    assert!(rt; trace.open(rt.alloc(), &EMPTY_ROW) == Ok(1));
    let mut pile = Hold::new(Hold::new(trace, 3), 0);
    let Ok((judged, counts)) = judge_next(ready, &table, &mut pile) else {
        return Err(Fail::new("not judged"));
    };
    assert_eq!(rt; counts.called, 0u64);
    let (ready, _struck) = strike_out(judged);
    let ended = Fault {
        cause: Cause::NoRow(1),
        layer: Layer::Trace,
        passed: 3,
    };
    match ready.sample(&table, &mut [], &mut pile) {
        Ok(_) => Err(Fail::new("sampled")),
        Err(stopped) => {
            assert!(rt; stopped.fault == ended);
            Ok(())
        }
    }
}

#[test]
fn a_sink_refuses_for_some_ticks(rt: HostRuntime) -> Result<(), Fail> {
    let table = table_of(rt.alloc(), &ALWAYS)?;
    let mut panel = Panel::new();
    let mut entries = [plain_alarm(9); 1];
    let mut sink = Ledger::new(&mut entries);
    let Ok(mut ready) = Ready::open(&table, &mut []) else {
        return Err(Fail::new("not opened"));
    };
    let full = Fault {
        cause: Cause::SinkFull,
        layer: Layer::Ledger,
        passed: 1,
    };
    // The first alarm is taken; those of two ticks are refused and struck; then the ledger is collected.
    for tick in 0..4u64 {
        if tick == 3 {
            sink.collect();
        }
        let Ok((mut judged, counts)) = judge_next(ready, &table, &mut panel) else {
            return Err(Fail::new("not judged"));
        };
        let due = counts.due;
        let refused = tick == 1 || tick == 2;
        let answer = judged.deliver(&table, &[], &mut sink);
        let (next, struck) = strike_out(judged);
        ready = next;
        assert_eq!(rt; due, 1u64);
        assert!(rt; refused == (answer == Err(full)));
        assert_eq!(rt; struck, u32::from(refused));
    }
    assert_eq!(rt; sink.number(), 2u32);
    assert!(rt; sink.ask(0) == Some(plain_alarm(3)));
    Ok(())
}

#[test]
fn a_like_table_is_used_as_it_is(rt: HostRuntime) -> Result<(), Fail> {
    let opened = table_of(rt.alloc(), &ALWAYS)?;
    let like = table_of(rt.alloc(), &NEVER)?;
    let mut panel = Panel::new();
    let Ok(ready) = Ready::open(&opened, &mut []) else {
        return Err(Fail::new("not opened"));
    };
    let Ok((judged, counts)) = judge_next(ready, &like, &mut panel) else {
        return Err(Fail::new("not judged"));
    };
    let (_ready, struck) = strike_out(judged);
    assert_eq!(rt; counts.due, 0u64);
    assert_eq!(rt; struck, 0u32);
    Ok(())
}
