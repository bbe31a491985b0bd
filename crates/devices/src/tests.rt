// A relay to a ledger and a quota over a bell, and holds over a poller, with the exact faults and counts.
use crate::poller::Poller;
use crate::relay::Relay;
use alarms::alarm::{Alarm, Arguments};
use alarms::bell::Bell;
use alarms::ledger::Ledger;
use alarms::offer::offer;
use alarms::quota::Quota;
use alarms::sink::Sink;
use faults::cause::Cause;
use faults::fault::{Fault, Layer};
use sampling::hold::Hold;
use sampling::row::Row;
use sampling::sampler::Sampler;
use std::test::Fail;
use values::value::Value;

// The alarm of rule 0 at a tick.
fn at(tick: u64) -> Alarm {
    Alarm {
        tick,
        rule: 0,
        arguments: Arguments::new(),
    }
}

// The fault of a full sink that this layer made, and one other handed on.
fn full(layer: Layer) -> Fault {
    Fault::new(layer, Cause::SinkFull).hand_on()
}

#[test]
fn a_relay_whose_second_is_full(rt: HostRuntime) -> Result<(), Fail> {
    let mut entries = [at(90), at(91), at(92)];
    let mut relay = Relay::new(Ledger::new(&mut entries), Quota::new(Bell::new(), 2));
    assert_eq!(rt; relay.places(), 2u32);
    match offer(&mut relay, &[at(1), at(2), at(3)]) {
        Ok(()) => return Err(Fail::new("a quota of 2 took a third")),
        Err(untaken) => {
            assert_eq!(rt; untaken.taken, 2usize);
            assert!(rt; untaken.fault == full(Layer::Quota));
        }
    }
    assert_eq!(rt; relay.refused(), 1u32);
    assert_eq!(rt; relay.number(), 2u32);
    assert!(rt; relay.latest() == Some(at(2)));
    // The ledger has room for the third, and was not asked.
    let (ledger, quota) = relay.get_ref();
    assert_eq!(rt; ledger.places(), 1u32);
    assert!(rt; ledger.ask(1) == Some(at(2)));
    assert!(rt; ledger.ask(2) == None);
    assert!(rt; quota.latest() == Some(at(2)));
    let (_, quota) = relay.into_inner();
    assert_eq!(rt; quota.into_inner().number(), 2u32);
    Ok(())
}

#[test]
fn a_relay_whose_first_is_full(rt: HostRuntime) -> Result<(), Fail> {
    let mut entries = [at(90)];
    let mut relay = Relay::new(Ledger::new(&mut entries), Quota::new(Bell::new(), 1));
    assert!(rt; relay.take(at(7)).is_ok());
    // Both are full by now, and the first is asked.
    for _ in 0..2u8 {
        assert!(rt; relay.take(at(8)) == Err(full(Layer::Ledger)));
    }
    assert_eq!(rt; relay.refused(), 2u32);
    assert_eq!(rt; relay.get_ref().1.number(), 1u32);
    // A relay is a sink, so relays pile.
    let mut pile = Relay::new(Bell::new(), relay);
    assert!(rt; pile.take(at(9)) == Err(full(Layer::Ledger).hand_on()));
    assert_eq!(rt; pile.number(), 0u32);
    assert_eq!(rt; pile.get_ref().1.refused(), 3u32);
    Ok(())
}

#[test]
fn a_poller_past_its_rows(rt: HostRuntime) -> Result<(), Fail> {
    let mut seated = Row::empty();
    seated.put(3, Some(Value::Bool(true)));
    let rows = [seated, Row::empty()];
    let mut hold = Hold::new(Poller::new(&rows), 1);
    for _ in 0..2u8 {
        assert!(rt; hold.latch().is_ok());
        assert!(rt; hold.read(3) == Ok(Value::Bool(true)));
    }
    let dark = Fault::new(Layer::Trace, Cause::Dark(3));
    assert!(rt; hold.get_ref().read(3) == Err(dark));
    let spent = Fault::new(Layer::Trace, Cause::NoRow(2)).hand_on();
    for _ in 0..3u8 {
        assert!(rt; hold.latch() == Err(spent));
    }
    // A refused latch ages nothing.
    assert!(rt; hold.read(3) == Ok(Value::Bool(true)));
    let dark = Fault::new(Layer::Trace, Cause::Dark(4)).hand_on();
    assert!(rt; hold.read(4) == Err(dark));
    let poller = hold.into_inner();
    assert_eq!(rt; poller.given(), 2usize);
    assert_eq!(rt; poller.failed(), 3u32);
    Ok(())
}
