// Days of the turnstile over piles, with a host that asks for the calls of a script.
ghost use Rattle.std.specs.Prelude.{◌≡◌};

use crate::calls::{Answer, Call};
use crate::day::take_day;
use crate::host::Host;
use crate::states::Monitor;
use alarms::alarm::{Alarm, Arguments};
use alarms::ledger::Ledger;
use alarms::quota::Quota;
use faults::cause::Cause;
use faults::fault::{Fault, Layer};
use monitor::counts::AlarmCounts;
use monitor::states::{Judged, Shown};
use sampling::hold::Hold;
use sampling::panel::Panel;
use std::test::Fail;
use tables::line::BLANK_SHEET;
use tables::table::Table;
use values::value::Value;

// Channels 0 and 1 of Bool, stream 0 = [false] ++ channel 1, and a rule: channel 0 and not (channel 1 or stream 0).
const TURNSTILE: [u8; 31] = [
    0x01, 0x00, 0x02, 0x01, 0x01, 0x00, 0x02, 0x01, 0x01, 0x00, 0x06, 0x02, 0x01, 0x01, 0x00, 0x02,
    0x01, 0x00, 0x0c, 0x03, 0x00, 0x20, 0x02, 0x00, 0x10, 0x21, 0x02, 0x01, 0x03, 0x00, 0x00,
];

// Whether the arm turned and a pass was read, tick by tick.
const ROWS: [(bool, bool); 3] = [(false, true), (true, false), (true, false)];

const SCRIPT: [Call; 18] = [
    Call::Show(0),
    Call::Judge,
    Call::Sample,
    Call::Sample,
    Call::Judge,
    Call::Deliver,
    Call::Close,
    Call::Sample,
    Call::Judge,
    Call::Close,
    Call::Sample,
    Call::Judge,
    Call::Close,
    Call::Deliver,
    Call::Close,
    Call::Show(0),
    Call::Show(1),
    Call::Sample,
];

// Asks for the calls of the script, sets the panel before each sample call, and notes what each call answered.
#[derive(Drop)]
struct Reader {
    next: usize,
    row: usize,
    answers: [Answer; 18],
}

impl Reader {
    fn new() -> Reader {
        Reader {
            next: 0,
            row: 0,
            answers: [Answer::Absent; 18],
        }
    }
}

impl<K> Host<Hold<Panel>, K> for Reader {
    ghost asks = { λ r call s. Unit {0} };

    ghost handles = { λ call r s k r' s' k'. k' ≡ k };

    ghost hears = { λ answer r s. Unit {0} };

    fn next_call(&mut self) -> Option<Call> {
        SCRIPT.get(self.next).copied()
    }

    fn handle(&mut self, call: Call, sampler: &mut Hold<Panel>, _sink: &mut K) {
        if call != Call::Sample {
            return;
        }
        let Some((turned, read)) = ROWS.get(self.row).copied() else {
            return;
        };
        let panel = sampler.get_mut();
        let _turned = panel.put(0, Value::Bool(turned));
        let _read = panel.put(1, Value::Bool(read));
    }

    fn hear(&mut self, answer: Answer) {
        if answer == Answer::Sampled {
            self.row = self.row.saturating_add(1);
        }
        if let Some(place) = self.answers.get_mut(self.next) {
            *place = answer;
        }
        self.next = self.next.saturating_add(1);
    }
}

// Strikes what is due, and closes.
fn finish(mut judged: Judged) {
    loop {
        match judged.close() {
            Ok(_) => return,
            Err(stopped) => {
                judged = stopped.state;
                let _struck = judged.strike();
            }
        }
    }
}

fn end(monitor: Monitor) {
    match monitor {
        Monitor::Ready(_) => {}
        Monitor::Sampled(_) => {}
        Monitor::Judged(judged) => finish(judged),
    }
}

fn own(cause: Cause) -> Answer {
    Answer::Refused(Fault::new(Layer::Monitor, cause))
}

#[test]
fn the_turnstile_calls_once(rt: HostRuntime) -> Result<(), Fail> {
    let mut table = Table::new(rt.alloc())?;
    let mut sheet = BLANK_SHEET;
    let mut rings = [7u64; 5];
    let alarm = Alarm {
        tick: 2,
        rule: 0,
        arguments: Arguments::None,
    };
    let mut entries = [Alarm { tick: 9, ..alarm }; 2];
    let mut sampler = Hold::new(Panel::new(), 1);
    let mut sink = Quota::new(Ledger::new(&mut entries), 1);
    let mut host = Reader::new();
    let Ok(monitor) = take_day(
        rt.alloc(),
        &mut table,
        &TURNSTILE,
        &mut sheet,
        &mut rings,
        &mut sampler,
        &mut sink,
        &mut host,
        99,
    ) else {
        return Err(Fail::new("no day"));
    };
    end(monitor);
    let none = AlarmCounts {
        called: 0,
        taken: 0,
        struck: 0,
        due: 0,
    };
    let due = AlarmCounts {
        called: 1,
        due: 1,
        ..none
    };
    let taken = AlarmCounts {
        called: 1,
        taken: 1,
        ..none
    };
    // The stream's newest value is channel 1 a tick before: at tick 1.
    let shown = Shown {
        index: 2,
        value: Value::Bool(false),
    };
    let answers = [
        own(Cause::NoValueYet(0)),
        Answer::Absent,
        Answer::Sampled,
        Answer::Absent,
        Answer::Judged(none),
        own(Cause::NoneDue),
        Answer::Closed,
        Answer::Sampled,
        Answer::Judged(none),
        Answer::Closed,
        Answer::Sampled,
        Answer::Judged(due),
        own(Cause::AlarmsDue(1)),
        Answer::Delivered(taken),
        Answer::Closed,
        Answer::Shown(shown),
        own(Cause::NoStream(1)),
        Answer::Sampled,
    ];
    assert!(rt; host.answers == answers);
    assert!(rt; sink.get_ref().ask(0) == Some(alarm));
    assert!(rt; sink.get_ref().ask(1) == None);
    assert_eq!(rt; rings[4], 7u64);
    Ok(())
}
