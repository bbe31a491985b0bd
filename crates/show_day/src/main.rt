// Runs days, one a line of standard input, and prints each one's alarms.
#![tactic(auto)]

mod replay;

use crate::replay::{MOST_CALLS, Replay, strike_out};
use alarms::alarm::{Alarm, Arguments};
use alarms::ledger::Ledger;
use day::day::take_day;
use day::states::Monitor;
use faults::fault::Fault;
use faults::stop::Stop;
use programs::exit::exit_code;
use programs::vectors::{table_bytes, tell_lines};
use sampling::hold::Hold;
use std::alloc::{AllocError, Global};
use std::io::BufReader;
use std::process::ExitCode;
use tables::line::BLANK_SHEET;
use tables::table::Table;
use traces::trace::Trace;

// How many slots the rings of any table take at most.
const SLOTS: usize = 2048;

// An entry of a ledger that lists nothing yet.
const BLANK: Alarm = Alarm {
    tick: 0,
    rule: 0,
    arguments: Arguments::None,
};

// Ends a monitor, in whichever state a day left it.
fn end(monitor: Monitor) {
    match monitor {
        Monitor::Ready(_) | Monitor::Sampled(_) => {}
        Monitor::Judged(judged) => {
            let _ready = strike_out(judged);
        }
    }
}

// The alarms of a table on the rows of a trace, under a hold that bridges nothing.
fn tell_day(alloc: Global, table: &[u8], rows: &[u8]) -> Result<String, Stop<Fault>> {
    let mut trace = Trace::new(alloc)?;
    trace.open(alloc, rows)?;
    let mut sampler = Hold::new(trace, 0);
    let mut entries = [BLANK; 16];
    let mut sink = Ledger::new(&mut entries);
    let mut rings = vec![in alloc; 0u64; SLOTS]?;
    let mut sheet = BLANK_SHEET;
    let mut accepted = Table::new(alloc)?;
    let mut host = Replay::new(alloc);
    let monitor = take_day(
        alloc,
        &mut accepted,
        table,
        &mut sheet,
        &mut rings,
        &mut sampler,
        &mut sink,
        &mut host,
        MOST_CALLS,
    )?;
    end(monitor);
    Ok(host.finish()?)
}

// The table and the trace of a line.
fn split_line(line: &str) -> Option<(&str, &str)> {
    let mut words = line.split_whitespace();
    let table = words.next()?;
    let trace = words.next()?;
    match words.next() {
        Some(_) => None,
        None => Some((table, trace)),
    }
}

// What is told of a line.
fn tell(alloc: Global, line: &str) -> Result<String, AllocError> {
    let Some((table, trace)) = split_line(line) else {
        return String::from_str(alloc, "not a table and a trace");
    };
    let Some(table) = table_bytes(alloc, table)? else {
        return String::from_str(alloc, "not hexadecimal");
    };
    let Some(rows) = table_bytes(alloc, trace)? else {
        return String::from_str(alloc, "not hexadecimal");
    };
    match tell_day(alloc, &table, &rows) {
        Ok(text) => Ok(text),
        Err(stop) => {
            let fault = stop.refused()?;
            let layer = fault.layer;
            format!(in alloc; "{fault} by {layer}")
        }
    }
}

// The same in each program that reads lines. One function for all of them would have no contract: none knows a byte of standard input.
fn run(rt: &HostRuntime) -> anyhow::Result<()> {
    let alloc = rt.alloc();
    let input = BufReader::new(alloc, rt.stdin())?;
    tell_lines(alloc, input, &mut rt.stdout(), tell)
}

fn main(rt: HostRuntime) -> ExitCode {
    exit_code(&rt, "show_day", run(&rt))
}
