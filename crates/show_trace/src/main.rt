// Opens traces, one a line of standard input, and prints what a hold shows of each, row by row.
#![tactic(auto)]

use faults::fault::Fault;
use faults::stop::Stop;
use programs::exit::exit_code;
use programs::vectors::{table_bytes, tell_lines};
use sampling::hold::Hold;
use sampling::row::CHANNELS;
use sampling::watch::{Sighting, watch};
use std::alloc::{AllocError, Global};
use std::io::BufReader;
use std::process::ExitCode;
use traces::trace::Trace;

// The channels of one row at which the hold shows a value; one that it bridges is marked.
fn tell_row(alloc: Global, place: usize, seen: &Sighting) -> Result<String, AllocError> {
    let mut text = format!(in alloc; "row {place}:")?;
    let mut any = false;
    for channel in 0..CHANNELS {
        if let Some(value) = seen.shown.at(channel) {
            let mark = match seen.below.at(channel) {
                Some(_) => "",
                None => " held",
            };
            let comma = if any { "," } else { "" };
            write!(text, "{comma} channel {channel} {value}{mark}")?;
            any = true;
        }
    }
    if !any {
        write!(text, " nothing")?;
    }
    Ok(text)
}

// What a trace is, and what a hold that bridges so many latches shows of its rows.
fn tell_trace(alloc: Global, bridges: u8, bytes: &[u8]) -> Result<String, Stop<Fault>> {
    let mut trace = Trace::new(alloc)?;
    let rows = trace.open(alloc, bytes)?;
    let mut text = format!(in alloc; "opened rows {rows}")?;
    let mut hold = Hold::new(trace, bridges);
    let seen = watch(alloc, &mut hold, rows)?;
    for (place, sighting) in seen.iter().enumerate() {
        let row = tell_row(alloc, place, sighting)?;
        write!(text, "\n{row}")?;
    }
    Ok(text)
}

// How many latches a line wants bridged, from 0 to 255, and the trace that it writes behind a blank.
fn split_line(line: &str) -> Option<(u8, &str)> {
    let mut words = line.split_whitespace();
    let bridges = words.next()?.parse().ok()?;
    let trace = words.next()?;
    match words.next() {
        Some(_) => None,
        None => Some((bridges, trace)),
    }
}

// What is told of a line.
fn tell(alloc: Global, line: &str) -> Result<String, AllocError> {
    let Some((bridges, trace)) = split_line(line) else {
        return String::from_str(alloc, "not a number of latches and a trace");
    };
    let Some(bytes) = table_bytes(alloc, trace)? else {
        return String::from_str(alloc, "not hexadecimal");
    };
    match tell_trace(alloc, bridges, &bytes) {
        Ok(text) => Ok(text),
        Err(stop) => {
            let fault = stop.refused()?;
            let layer = fault.layer;
            let passed = fault.passed;
            format!(in alloc; "{fault} by {layer} passed {passed}")
        }
    }
}

// The same in each program that reads lines. One function for all of them would have no contract: none knows a byte of standard input.
fn run(rt: &HostRuntime) -> anyhow::Result<()> {
    let alloc = rt.alloc();
    let input = BufReader::new(alloc, rt.stdin())?;
    tell_lines(alloc, input, &mut rt.stdout(), tell)
}

fn main(rt: HostRuntime) -> ExitCode {
    exit_code(&rt, "show_trace", run(&rt))
}
