// A day: the calls that a host asks for, one after another.
ghost use Rattle.std.specs.Prelude.{◌≡◌};
ghost use Rattle.day.specs.Calls.{MakesCall};
ghost use Rattle.day.specs.Days.{MakesCalls, RunsDay, TakesDay};

use crate::calls::{Answer, Call};
use crate::host::Host;
use crate::states::Monitor;
use alarms::sink::Sink;
use faults::fault::Fault;
use faults::stop::Stop;
use monitor::states::{Judged, Ready, Sampled, Stopped};
use sampling::sampler::Sampler;
use std::alloc::Global;
use tables::table::Table;
use walks::edge::SheetEntry;

// A call of a ready monitor.
fn call_ready<S: Sampler, K: Sink>(
    monitor: Ready,
    call: Call,
    table: &Table,
    rings: &mut [u64],
    sampler: &mut S,
    sink: &mut K,
) -> (Monitor, Answer)
    ensures { MakesCall S.Sampler K.Sink table.now call result.1
        (Monitor.Ready monitor) rings.old sampler.old sink.old
        result.0 rings.new sampler.new sink.new }
{
    match call {
        Call::Sample => match monitor.sample(table, rings, sampler) {
            Ok(next) => (Monitor::Sampled(next), Answer::Sampled),
            Err(Stopped { state, fault }) => (Monitor::Ready(state), Answer::Refused(fault)),
        },
        Call::Show(stream) => match monitor.show(table, rings, stream) {
            Ok(shown) => (Monitor::Ready(monitor), Answer::Shown(shown)),
            Err(fault) => (Monitor::Ready(monitor), Answer::Refused(fault)),
        },
        _ => (Monitor::Ready(monitor), Answer::Absent),
    }
}

// A call of a sampled monitor.
fn call_sampled<S: Sampler, K: Sink>(
    monitor: Sampled,
    call: Call,
    table: &Table,
    rings: &mut [u64],
    sampler: &mut S,
    sink: &mut K,
) -> (Monitor, Answer)
    ensures { MakesCall S.Sampler K.Sink table.now call result.1
        (Monitor.Sampled monitor) rings.old sampler.old sink.old
        result.0 rings.new sampler.new sink.new }
{
    match call {
        Call::Judge => match monitor.judge(table, rings) {
            Ok((next, counts)) => (Monitor::Judged(next), Answer::Judged(counts)),
            Err(Stopped { state, fault }) => (Monitor::Sampled(state), Answer::Refused(fault)),
        },
        _ => (Monitor::Sampled(monitor), Answer::Absent),
    }
}

// A call of a judged monitor.
fn call_judged<S: Sampler, K: Sink>(
    mut monitor: Judged,
    call: Call,
    table: &Table,
    rings: &mut [u64],
    sampler: &mut S,
    sink: &mut K,
) -> (Monitor, Answer)
    ensures { MakesCall S.Sampler K.Sink table.now call result.1
        (Monitor.Judged monitor) rings.old sampler.old sink.old
        result.0 rings.new sampler.new sink.new }
{
    match call {
        Call::Deliver => match monitor.deliver(table, rings, sink) {
            Ok(counts) => (Monitor::Judged(monitor), Answer::Delivered(counts)),
            Err(fault) => (Monitor::Judged(monitor), Answer::Refused(fault)),
        },
        Call::Strike => match monitor.strike() {
            Ok(counts) => (Monitor::Judged(monitor), Answer::Struck(counts)),
            Err(fault) => (Monitor::Judged(monitor), Answer::Refused(fault)),
        },
        Call::Close => match monitor.close() {
            Ok(next) => (Monitor::Ready(next), Answer::Closed),
            Err(Stopped { state, fault }) => (Monitor::Judged(state), Answer::Refused(fault)),
        },
        _ => (Monitor::Judged(monitor), Answer::Absent),
    }
}

// One call of a monitor, where its state has it.
pub(crate) fn make_call<S: Sampler, K: Sink>(
    monitor: Monitor,
    call: Call,
    table: &Table,
    rings: &mut [u64],
    sampler: &mut S,
    sink: &mut K,
) -> (Monitor, Answer)
    ensures { MakesCall S.Sampler K.Sink table.now call result.1
        monitor rings.old sampler.old sink.old
        result.0 rings.new sampler.new sink.new }
{
    match monitor {
        Monitor::Ready(ready) => call_ready(ready, call, table, rings, sampler, sink),
        Monitor::Sampled(sampled) => call_sampled(sampled, call, table, rings, sampler, sink),
        Monitor::Judged(judged) => call_judged(judged, call, table, rings, sampler, sink),
    }
}

// Calls of a monitor, as the host asks for them, and not more than so many.
fn make_calls<S: Sampler, K: Sink, H: Host<S, K>>(
    mut monitor: Monitor,
    table: &Table,
    rings: &mut [u64],
    sampler: &mut S,
    sink: &mut K,
    host: &mut H,
    most: u64,
) -> Monitor
    ensures { MakesCalls S.Sampler K.Sink H.Host table.now most
        monitor rings.old sampler.old sink.old host.old
        result rings.new sampler.new sink.new host.new }
{
    for _ in 0..most {
        let Some(call) = host.next_call() else {
            return monitor;
        };
        host.handle(call, sampler, sink);
        let (next, answer) = make_call(monitor, call, table, rings, sampler, sink);
        monitor = next;
        host.hear(answer);
    }
    monitor
}

/// A day over a table, from opening on: the calls that the host asks for, and not more than `most`.
/// Errs where the rings have no room for the table's slots.
pub fn run_day<S: Sampler, K: Sink, H: Host<S, K>>(
    table: &Table,
    rings: &mut [u64],
    sampler: &mut S,
    sink: &mut K,
    host: &mut H,
    most: u64,
) -> Result<Monitor, Fault>
    ensures { RunsDay S.Sampler K.Sink H.Host table.now most
        rings.old sampler.old sink.old host.old result
        rings.new sampler.new sink.new host.new }
{
    let ready = Ready::open(table, rings)?;
    Ok(make_calls(
        Monitor::Ready(ready),
        table,
        rings,
        sampler,
        sink,
        host,
        most,
    ))
}

/// A day from the bytes of a table: they are checked, and put in the table's place, before it opens.
/// Errs where the check or the opening refuses, and where the check's memory fails.
pub fn take_day<S: Sampler, K: Sink, H: Host<S, K>>(
    alloc: Global,
    table: &mut Table,
    bytes: &[u8],
    sheet: &mut [SheetEntry],
    rings: &mut [u64],
    sampler: &mut S,
    sink: &mut K,
    host: &mut H,
    most: u64,
) -> Result<Monitor, Stop<Fault>>
    ensures { TakesDay S.Sampler K.Sink H.Host table.old table.new bytes.now sheet.old sheet.new most
        rings.old sampler.old sink.old host.old result
        rings.new sampler.new sink.new host.new }
{
    match table.check(alloc, bytes, sheet) {
        Ok(_) => match run_day(table, rings, sampler, sink, host, most) {
            Ok(monitor) => Ok(monitor),
            Err(fault) => Err(Stop::Refused(fault)),
        },
        Err(stop) => Err(stop),
    }
}
