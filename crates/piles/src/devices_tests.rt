// A day over a sampler and a sink that were written over the interfaces alone.
ghost use Rattle.std.specs.Prelude.{◌≡◌};

use crate::plain_alarm;
use crate::tests::{ALWAYS, strike_out, table_of};
use alarms::bell::Bell;
use alarms::ledger::Ledger;
use alarms::sink::Sink;
use day::calls::{Answer, Call};
use day::day::run_day;
use day::host::Host;
use day::states::Monitor;
use devices::poller::Poller;
use devices::relay::Relay;
use faults::cause::Cause;
use faults::fault::{Fault, Layer};
use sampling::row::Row;
use std::test::Fail;

// Two ticks, each of which calls an alarm: one is taken, and the other refused and struck; then the rows end.
const SCRIPT: [Call; 10] = [
    Call::Sample,
    Call::Judge,
    Call::Deliver,
    Call::Close,
    Call::Sample,
    Call::Judge,
    Call::Deliver,
    Call::Strike,
    Call::Close,
    Call::Sample,
];

// Asks for the calls of the script, and notes the answers that were refusals.
#[derive(Drop)]
struct Reader {
    next: usize,
    refused: [Option<Fault>; 10],
}

impl<S, K> Host<S, K> for Reader {
    ghost asks = { λ old call new. Unit {0} };

    ghost handles = { λ call old sampler sink new sampler_after sink_after. sink_after ≡ sink };

    ghost hears = { λ answer old new. Unit {0} };

    fn next_call(&mut self) -> Option<Call> {
        SCRIPT.get(self.next).copied()
    }

    fn handle(&mut self, _call: Call, _sampler: &mut S, _sink: &mut K) {}

    fn hear(&mut self, answer: Answer) {
        if let Answer::Refused(fault) = answer
            && self.next < 10
        {
            self.refused[self.next] = Some(fault);
        }
        self.next = self.next.saturating_add(1);
    }
}

#[test]
fn a_day_over_a_poller_and_a_relay(rt: HostRuntime) -> Result<(), Fail> {
    let table = table_of(rt.alloc(), &ALWAYS)?;
    let rows = [Row::empty(); 2];
    let mut sampler = Poller::new(&rows);
    let mut entries = [plain_alarm(9); 1];
    let mut sink = Relay::new(Bell::new(), Ledger::new(&mut entries));
    let mut host = Reader {
        next: 0,
        refused: [None; 10],
    };
    let Ok(monitor) = run_day(&table, &mut [], &mut sampler, &mut sink, &mut host, 20) else {
        return Err(Fail::new("no day"));
    };
    match monitor {
        Monitor::Ready(_) | Monitor::Sampled(_) => {}
        Monitor::Judged(judged) => {
            let _ended = strike_out(judged);
        }
    }
    let full = Fault {
        cause: Cause::SinkFull,
        layer: Layer::Ledger,
        passed: 2,
    };
    let ended = Fault {
        cause: Cause::NoRow(2),
        layer: Layer::Trace,
        passed: 1,
    };
    assert!(rt; host.refused[6] == Some(full));
    assert!(rt; host.refused[9] == Some(ended));
    assert_eq!(rt; sampler.failed(), 1u32);
    assert_eq!(rt; sink.refused(), 1u32);
    assert_eq!(rt; sink.number(), 1u32);
    assert!(rt; sink.get_ref().1.ask(0) == Some(plain_alarm(0)));
    Ok(())
}
