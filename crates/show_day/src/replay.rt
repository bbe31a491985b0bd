// A host that runs a trace through a monitor: each row is sampled and judged, and its alarms are delivered.
use alarms::alarm::Alarm;
use alarms::ledger::Ledger;
use day::calls::{Answer, Call};
use day::host::Host;
use faults::cause::Cause;
use faults::fault::Fault;
use monitor::counts::AlarmCounts;
use monitor::states::{Judged, Ready, Stopped};
use sampling::hold::Hold;
use std::alloc::{AllocError, Global};
use traces::trace::Trace;

// More calls than the longest trace has use of.
pub(crate) const MOST_CALLS: u64 = 1 << 22;

// What is told of a day so far, and the call that comes next.
#[derive(Drop)]
pub(crate) struct Replay {
    alloc: Global,
    next: Option<Call>,
    text: String,
    ticks: u64,
    counts: AlarmCounts,
    // Whether memory failed for a line of the text, which ends the day.
    failed: bool,
}

impl Replay {
    // Before its first call.
    pub(crate) fn new(alloc: Global) -> Replay {
        Replay {
            alloc,
            next: Some(Call::Sample),
            text: String::new(alloc),
            ticks: 0,
            counts: AlarmCounts {
                called: 0,
                taken: 0,
                struck: 0,
                due: 0,
            },
            failed: false,
        }
    }

    // A line for an alarm: its tick, its rule and its arguments.
    fn tell_alarm(&mut self, alarm: Alarm) -> Result<(), AllocError> {
        let Alarm {
            tick,
            rule,
            arguments,
        } = alarm;
        write!(self.text, "tick {tick} rule {rule}")?;
        for place in 0..4usize {
            if let Some(value) = arguments.get(place) {
                write!(self.text, " {value}")?;
            }
        }
        write!(self.text, "\n")
    }

    // Lines for the alarms that were listed, and the ledger emptied.
    fn collect(&mut self, ledger: &mut Ledger<'_>) -> Result<(), AllocError> {
        for place in 0..16usize {
            if let Some(alarm) = ledger.ask(place) {
                self.tell_alarm(alarm)?;
            }
        }
        ledger.collect();
        Ok(())
    }

    // What comes after a refusal: the day ends behind the last row; another sample that is refused is no tick, and is told.
    fn go_on(&mut self, fault: Fault) -> Result<Option<Call>, AllocError> {
        match fault.cause {
            Cause::NoRow(_) => Ok(None),
            Cause::SinkFull => Ok(Some(Call::Strike)),
            _ => {
                write!(self.text, "{fault}\n")?;
                Ok(Some(Call::Sample))
            }
        }
    }

    // The whole text, with the counts at its end.
    pub(crate) fn finish(self) -> Result<String, AllocError> {
        if self.failed {
            return Err(AllocError);
        }
        let mut text = self.text;
        let ticks = self.ticks;
        let AlarmCounts {
            called,
            taken,
            struck,
            ..
        } = self.counts;
        write!(
            text,
            "ticks {ticks} called {called} taken {taken} struck {struck}"
        )?;
        Ok(text)
    }
}

impl<'a> Host<Hold<Trace>, Ledger<'a>> for Replay {
    ghost asks = { λ old call new. Unit {0} };

    ghost handles = { λ call old sampler sink new sampler_after sink_after. Unit {0} };

    ghost hears = { λ answer old new. Unit {0} };

    // Nothing is promised of what is told, which no contract could compare with what is printed.
    fn next_call(&mut self) -> Option<Call>
        ensures { Unit {0} }
    {
        if self.failed { None } else { self.next }
    }

    fn handle(&mut self, _call: Call, _sampler: &mut Hold<Trace>, sink: &mut Ledger<'a>) {
        if self.collect(sink).is_err() {
            self.failed = true;
        }
    }

    fn hear(&mut self, answer: Answer)
        ensures { Unit {0} }
    {
        self.next = match answer {
            Answer::Sampled => Some(Call::Judge),
            Answer::Judged(counts) | Answer::Delivered(counts) | Answer::Struck(counts) => {
                self.counts = counts;
                Some(if counts.due > 0 {
                    Call::Deliver
                } else {
                    Call::Close
                })
            }
            Answer::Closed => {
                self.ticks = self.ticks.saturating_add(1);
                Some(Call::Sample)
            }
            Answer::Refused(fault) => match self.go_on(fault) {
                Ok(call) => call,
                Err(AllocError) => {
                    self.failed = true;
                    None
                }
            },
            Answer::Shown(_) | Answer::Absent => None,
        };
    }
}

// Makes a judged monitor ready; alarms that are still due are struck.
pub(crate) fn strike_out(mut judged: Judged) -> Ready {
    loop {
        match judged.close() {
            Ok(ready) => return ready,
            Err(Stopped { state, fault: _ }) => {
                judged = state;
                let _counts = judged.strike();
            }
        }
    }
}
