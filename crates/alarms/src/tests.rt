// Piles of quotas, with the exact faults and the layers that they passed.
use crate::alarm::{Alarm, Arguments};
use crate::bell::Bell;
use crate::ledger::{Ledger, list_in};
use crate::offer::offer;
use crate::quota::Quota;
use crate::sink::Sink;
use faults::cause::Cause;
use faults::fault::{Fault, Layer};
use std::test::Fail;
use values::value::Value;

// The alarm of rule 0 at a tick, whose one argument is the tick's parity.
fn at(tick: u64) -> Alarm {
    let mut arguments = Arguments::new();
    let _room = arguments.push(Value::Bool(tick % 2 == 1));
    Alarm {
        tick,
        rule: 0,
        arguments,
    }
}

#[test]
fn a_fifth_argument_is_given_back(rt: HostRuntime) -> Result<(), Fail> {
    let mut arguments = Arguments::new();
    for n in 0..4u8 {
        assert!(rt; arguments.push(Value::Word8(n)).is_ok());
    }
    assert!(rt; arguments.push(Value::Word8(4)) == Err(Value::Word8(4)));
    assert_eq!(rt; arguments.len(), 4usize);
    assert!(rt; arguments.get(0) == Some(Value::Word8(0)));
    assert!(rt; arguments.get(3) == Some(Value::Word8(3)));
    assert!(rt; arguments.get(4) == None);
    Ok(())
}

#[test]
fn alarms_are_equal_by_tick_rule_and_arguments(rt: HostRuntime) -> Result<(), Fail> {
    let mut alarm = Alarm {
        tick: 3,
        rule: 0,
        arguments: Arguments::None,
    };
    assert!(rt; alarm != at(3));
    assert!(rt; alarm.arguments.push(Value::Bool(true)).is_ok());
    assert!(rt; alarm == at(3));
    assert!(rt; alarm != at(1));
    Ok(())
}

#[test]
fn a_pile_over_a_ledger(rt: HostRuntime) -> Result<(), Fail> {
    let mut entries = [at(90), at(91), at(92)];
    let mut pile = Quota::new(Quota::new(Ledger::new(&mut entries), 3), 9);
    assert_eq!(rt; pile.places(), 3u32);
    assert!(rt; offer(&mut pile, &[at(1), at(2)]).is_ok());
    assert_eq!(rt; pile.number(), 2u32);
    assert!(rt; pile.latest() == Some(at(2)));
    assert_eq!(rt; pile.places(), 1u32);
    // The list is emptied, and the inner quota has one left all the same.
    pile.get_mut().get_mut().collect();
    assert_eq!(rt; pile.places(), 1u32);
    match offer(&mut pile, &[at(3), at(4)]) {
        Ok(()) => return Err(Fail::new("a quota of 3 took a fourth")),
        Err(untaken) => {
            assert_eq!(rt; untaken.taken, 1usize);
            assert!(rt;
                untaken.fault
                    == Fault {
                        cause: Cause::SinkFull,
                        layer: Layer::Quota,
                        passed: 1
                    }
            );
        }
    }
    assert!(rt; pile.get_ref().get_ref().ask(0) == Some(at(3)));
    assert!(rt; pile.get_ref().get_ref().ask(1) == None);
    assert_eq!(rt; pile.number(), 3u32);
    Ok(())
}

#[test]
fn a_full_ledger_under_two_quotas(rt: HostRuntime) -> Result<(), Fail> {
    let mut entries = [at(90)];
    let mut pile = Quota::new(Quota::new(Ledger::new(&mut entries), 5), 5);
    assert!(rt; pile.take(at(7)).is_ok());
    let fault = Fault {
        cause: Cause::SinkFull,
        layer: Layer::Ledger,
        passed: 2,
    };
    assert!(rt; pile.take(at(8)) == Err(fault));
    // Its own test comes first, and its fault has passed no layer.
    let mut spent = Quota::new(pile, 0);
    let own = Fault::new(Layer::Quota, Cause::SinkFull);
    assert!(rt; spent.take(at(8)) == Err(own));
    assert_eq!(rt; spent.number(), 1u32);
    assert!(rt; spent.latest() == Some(at(7)));
    Ok(())
}

#[test]
fn a_pile_over_a_bell(rt: HostRuntime) -> Result<(), Fail> {
    let mut pile = Quota::new(Quota::new(Bell::new(), 2), 1);
    assert_eq!(rt; pile.get_ref().get_ref().places(), u32::MAX);
    assert!(rt; pile.take(at(5)).is_ok());
    let own = Fault::new(Layer::Quota, Cause::SinkFull);
    assert!(rt; pile.take(at(6)) == Err(own));
    assert_eq!(rt; pile.get_ref().places(), 1u32);
    assert_eq!(rt; pile.into_inner().into_inner().number(), 1u32);
    Ok(())
}

#[test]
fn a_ledger_leaves_its_list_in_lent_memory(rt: HostRuntime) -> Result<(), Fail> {
    let mut entries = [at(90), at(91), at(92)];
    assert_eq!(rt; list_in(&mut entries, &[at(1), at(2)]), 2usize);
    assert!(rt; entries == [at(1), at(2), at(92)]);
    assert_eq!(rt; list_in(&mut entries[..1], &[at(5), at(6)]), 1usize);
    assert!(rt; entries == [at(5), at(2), at(92)]);
    Ok(())
}
