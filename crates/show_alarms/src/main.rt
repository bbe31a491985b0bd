// Offers alarms to a ledger under two quotas, a pile a line of standard input, and prints what becomes of them.
#![tactic(auto)]

use alarms::alarm::{Alarm, Arguments};
use alarms::ledger::Ledger;
use alarms::offer::offer;
use alarms::quota::Quota;
use alarms::sink::Sink;
use programs::exit::exit_code;
use programs::vectors::tell_lines;
use std::alloc::{AllocError, Global};
use std::io::BufReader;
use std::process::ExitCode;
use values::value::Value;

// How many entries the ledger's memory has at most, and how many alarms are offered at most.
const MOST: usize = 16;

// A pile and what is offered to it.
#[derive(Drop)]
struct Script {
    entries: usize,
    lower: u16,
    upper: u16,
    alarms: usize,
}

// The alarm of rule 0 at a tick; its arguments are the tick's low byte and whether the tick is odd.
fn alarm_at(tick: u64) -> Alarm {
    let mut arguments = Arguments::new();
    // Two arguments have room.
    let _first = arguments.push(Value::Word8((tick % 256) as u8));
    let _second = arguments.push(Value::Bool(tick % 2 == 1));
    Alarm {
        tick,
        rule: 0,
        arguments,
    }
}

// The tick, the rule and the arguments, with colons between them; between arguments stand commas.
fn tell_alarm(alloc: Global, alarm: &Alarm) -> Result<String, AllocError> {
    let tick = alarm.tick;
    let rule = alarm.rule;
    let mut text = format!(in alloc; "{tick}:{rule}:")?;
    let mut before = "";
    for place in 0..alarm.arguments.len() {
        if let Some(value) = alarm.arguments.get(place) {
            write!(text, "{before}{value}")?;
            before = ",";
        }
    }
    Ok(text)
}

// What the pile shows: the number taken, the places left, the latest alarm, and what the ledger lists.
fn tell_pile(alloc: Global, pile: &Quota<Quota<Ledger<'_>>>) -> Result<String, AllocError> {
    let number = pile.number();
    let places = pile.places();
    let latest = match pile.latest() {
        Some(alarm) => tell_alarm(alloc, &alarm)?,
        None => String::from_str(alloc, "none")?,
    };
    let mut text = format!(in alloc; "number {number} places {places} latest {latest}")?;
    for place in 0..MOST {
        if let Some(alarm) = pile.get_ref().get_ref().ask(place) {
            let alarm = tell_alarm(alloc, &alarm)?;
            write!(text, "\nlisted {alarm}")?;
        }
    }
    Ok(text)
}

// Offers the alarms of the ticks from 0, and tells how many were taken and why no more.
fn tell_offer(
    alloc: Global,
    pile: &mut Quota<Quota<Ledger<'_>>>,
    count: usize,
) -> Result<String, AllocError> {
    let mut alarms = [alarm_at(0); MOST];
    for (tick, alarm) in alarms.iter_mut().enumerate() {
        *alarm = alarm_at(tick as u64);
    }
    match offer(pile, &alarms[..count.min(MOST)]) {
        Ok(()) => format!(in alloc; "took all"),
        Err(untaken) => {
            let taken = untaken.taken;
            let fault = untaken.fault;
            let layer = fault.layer;
            let passed = fault.passed;
            format!(in alloc; "took {taken}, {fault} by {layer} passed {passed}")
        }
    }
}

// What a line wants: how many entries the ledger has, the quota over it, the quota over that, and how many alarms are offered.
fn parse(line: &str) -> Option<Script> {
    let mut words = line.split_whitespace();
    let script = Script {
        entries: words.next()?.parse().ok()?,
        lower: words.next()?.parse().ok()?,
        upper: words.next()?.parse().ok()?,
        alarms: words.next()?.parse().ok()?,
    };
    match words.next() {
        None if script.entries <= MOST && script.alarms <= MOST => Some(script),
        _ => None,
    }
}

// What is told of a line.
fn tell(alloc: Global, line: &str) -> Result<String, AllocError> {
    let Some(script) = parse(line) else {
        return String::from_str(alloc, "not four numbers in range");
    };
    let mut entries = [alarm_at(0); MOST];
    let ledger = Ledger::new(&mut entries[..script.entries.min(MOST)]);
    let mut pile = Quota::new(Quota::new(ledger, script.lower), script.upper);
    let offered = tell_offer(alloc, &mut pile, script.alarms)?;
    let shown = tell_pile(alloc, &pile)?;
    format!(in alloc; "{offered}\n{shown}")
}

// The same in each program that reads lines. One function for all of them would have no contract: none knows a byte of standard input.
fn run(rt: &HostRuntime) -> anyhow::Result<()> {
    let alloc = rt.alloc();
    let input = BufReader::new(alloc, rt.stdin())?;
    tell_lines(alloc, input, &mut rt.stdout(), tell)
}

fn main(rt: HostRuntime) -> ExitCode {
    exit_code(&rt, "show_alarms", run(&rt))
}
