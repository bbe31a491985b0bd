// Days on small tables: the turnstile's alarm, refusals over piles, and values before any tick.
use crate::counts::AlarmCounts;
use crate::progress::Progress;
use crate::states::{Judged, Ready};
use alarms::alarm::{Alarm, Arguments};
use alarms::bell::Bell;
use alarms::ledger::Ledger;
use alarms::quota::Quota;
use alarms::sink::Sink;
use arrayvec::ArrayVec;
use faults::cause::Cause;
use faults::fault::{Fault, Layer};
use sampling::hold::Hold;
use sampling::panel::Panel;
use sampling::sampler::Sampler;
use std::alloc::Global;
use std::test::Fail;
use tables::line::BLANK_SHEET;
use tables::table::Table;
use values::value::Value;

// Channels 0 and 1 of Bool, stream 0 = [false] ++ channel 1, and a rule: channel 0 and not (channel 1 or stream 0).
const TURNSTILE: [u8; 31] = [
    0x01, 0x00, 0x02, 0x01, 0x01, 0x00, 0x02, 0x01, 0x01, 0x00, 0x06, 0x02, 0x01, 0x01, 0x00, 0x02,
    0x01, 0x00, 0x0c, 0x03, 0x00, 0x20, 0x02, 0x00, 0x10, 0x21, 0x02, 0x01, 0x03, 0x00, 0x00,
];

// Stream 0 is [0, 1, 2] ++ stream 1, and stream 1 is drop 1 of stream 0, in Word8.
const TWO_STREAMS: [u8; 20] = [
    0x01, 0x00, 0x09, 0x02, 0x02, 0x03, 0x00, 0x01, 0x02, 0x03, 0x01, 0x00, 0x00, 0x06, 0x02, 0x02,
    0x00, 0x03, 0x00, 0x01,
];

// The table of these bytes.
fn table_of(alloc: Global, bytes: &[u8]) -> Result<Table, Fail> {
    let mut table = Table::new(alloc)?;
    let mut sheet = BLANK_SHEET;
    match table.check(alloc, bytes, &mut sheet) {
        Ok(_) => Ok(table),
        Err(_) => Err(Fail::new("refused")),
    }
}

// A fault that the monitor made.
fn own(cause: Cause) -> Fault {
    Fault::new(Layer::Monitor, cause)
}

// Samples and judges a tick.
fn judge_next<S: Sampler>(
    ready: Ready,
    table: &Table,
    rings: &mut [u64],
    sampler: &mut S,
) -> Result<(Judged, AlarmCounts), Fault> {
    let sampled = match ready.sample(table, rings, sampler) {
        Ok(sampled) => sampled,
        Err(stopped) => return Err(stopped.fault),
    };
    match sampled.judge(table, rings) {
        Ok(judged) => Ok(judged),
        Err(stopped) => Err(stopped.fault),
    }
}

// Closes a monitor that has no alarm due.
fn close(judged: Judged) -> Result<Ready, Fail> {
    match judged.close() {
        Ok(ready) => Ok(ready),
        Err(stopped) => {
            let Judged { progress: _ } = stopped.state;
            Err(Fail::new("not closed"))
        }
    }
}

// Sets both channels of the turnstile for the next row.
fn set(panel: &mut Panel, turned: bool, read: bool) {
    let _turned = panel.put(0, Value::Bool(turned));
    let _read = panel.put(1, Value::Bool(read));
}

#[test]
fn the_turnstile_calls_once(rt: HostRuntime) -> Result<(), Fail> {
    let table = table_of(rt.alloc(), &TURNSTILE)?;
    let mut rings = [7u64; 5];
    let Ok(ready) = Ready::open(&table, &mut rings) else {
        return Err(Fail::new("not opened"));
    };
    let mut panel = Panel::new();
    set(&mut panel, false, true);
    let Ok((judged, counts)) = judge_next(ready, &table, &mut rings, &mut panel) else {
        return Err(Fail::new("not judged"));
    };
    assert_eq!(rt; counts.called, 0u64);
    let ready = close(judged)?;
    set(&mut panel, true, false);
    let Ok((judged, counts)) = judge_next(ready, &table, &mut rings, &mut panel) else {
        return Err(Fail::new("not judged"));
    };
    assert_eq!(rt; counts.called, 0u64);
    let ready = close(judged)?;
    let Ok((mut judged, counts)) = judge_next(ready, &table, &mut rings, &mut panel) else {
        return Err(Fail::new("not judged"));
    };
    assert_eq!(rt; counts.due, 1u64);
    // A pile without a place keeps the alarm due, and its fault passes both quotas and the monitor.
    let alarm = Alarm {
        tick: 2,
        rule: 0,
        arguments: Arguments::None,
    };
    let mut entries = [alarm; 0];
    let mut full = Quota::new(Quota::new(Ledger::new(&mut entries), 1), 1);
    let no_place = Fault {
        cause: Cause::SinkFull,
        layer: Layer::Ledger,
        passed: 3,
    };
    assert!(rt; judged.deliver(&table, &rings, &mut full) == Err(no_place));
    let mut judged = match judged.close() {
        Ok(_) => return Err(Fail::new("closed")),
        Err(stopped) => {
            assert!(rt; stopped.fault == own(Cause::AlarmsDue(1)));
            stopped.state
        }
    };
    let mut bell = Bell::new();
    let settled = AlarmCounts {
        called: 1,
        taken: 1,
        struck: 0,
        due: 0,
    };
    assert!(rt; judged.deliver(&table, &rings, &mut bell) == Ok(settled));
    assert!(rt; bell.latest() == Some(alarm));
    assert!(rt; judged.deliver(&table, &rings, &mut bell) == Err(own(Cause::NoneDue)));
    assert!(rt; judged.strike() == Err(own(Cause::NoneDue)));
    let ready = close(judged)?;
    // The stream's newest value is its opening value put off by a tick: channel 1 at tick 1.
    let Ok(shown) = ready.show(&table, &rings, 0) else {
        return Err(Fail::new("not shown"));
    };
    assert_eq!(rt; shown.index, 2u64);
    assert!(rt; shown.value == Value::Bool(false));
    assert_eq!(rt; rings[4], 7u64);
    Ok(())
}

#[test]
fn samples_are_refused(rt: HostRuntime) -> Result<(), Fail> {
    let table = table_of(rt.alloc(), &TURNSTILE)?;
    let other = table_of(rt.alloc(), &TWO_STREAMS)?;
    let mut rings = [0u64; 4];
    let short = Ready::open(&table, &mut rings[..3]);
    assert!(rt; matches!(&short, Err(fault) if *fault == own(Cause::Slots(4))));
    let Ok(mut ready) = Ready::open(&table, &mut rings) else {
        return Err(Fail::new("not opened"));
    };
    let mut hold = Hold::new(Panel::new(), 1);
    let faults = [
        own(Cause::OtherTable),
        own(Cause::Slots(4)),
        // A dark channel is the panel's, handed on by hold and monitor.
        Fault {
            cause: Cause::Dark(0),
            layer: Layer::Panel,
            passed: 2,
        },
        own(Cause::OtherType(1)),
    ];
    let _dark = hold.get_mut().put(1, Value::Word8(1));
    for (step, fault) in faults.iter().enumerate() {
        if step == 3 {
            set(hold.get_mut(), true, true);
            let _typed = hold.get_mut().put(1, Value::Word8(1));
        }
        let tried = if step == 0 { &other } else { &table };
        let room = if step == 1 { 3 } else { 4 };
        match ready.sample(tried, &mut rings[..room], &mut hold) {
            Ok(_) => return Err(Fail::new("sampled")),
            Err(stopped) => {
                assert!(rt; stopped.fault == *fault);
                ready = stopped.state;
            }
        }
    }
    Ok(())
}

#[test]
fn ticks_are_spent(rt: HostRuntime) -> Result<(), Fail> {
    let table = table_of(rt.alloc(), &TURNSTILE)?;
    let last = Ready {
        progress: Progress {
            opened: table.counts(),
            ticks: u32::MAX,
            due: ArrayVec::new(),
            taken: 0,
            struck: 0,
        },
    };
    let mut rings = [0u64; 4];
    match last.sample(&table, &mut rings, &mut Panel::new()) {
        Ok(_) => Err(Fail::new("sampled")),
        Err(stopped) => {
            assert!(rt; stopped.fault == own(Cause::TicksSpent));
            Ok(())
        }
    }
}

#[test]
fn shows_before_any_tick(rt: HostRuntime) -> Result<(), Fail> {
    let table = table_of(rt.alloc(), &TWO_STREAMS)?;
    let mut rings = [0u64; 4];
    let Ok(ready) = Ready::open(&table, &mut rings) else {
        return Err(Fail::new("not opened"));
    };
    let Ok(shown) = ready.show(&table, &rings, 0) else {
        return Err(Fail::new("not shown"));
    };
    assert_eq!(rt; shown.index, 0u64);
    assert!(rt; shown.value == Value::Word8(0));
    assert!(rt; ready.show(&table, &rings, 1) == Err(own(Cause::NoValueYet(1))));
    assert!(rt; ready.show(&table, &rings, 2) == Err(own(Cause::NoStream(2))));
    Ok(())
}
