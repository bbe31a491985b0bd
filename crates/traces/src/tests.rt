// Piles of holds over a trace, with the exact faults and the layers that they passed, and opening.
use crate::trace::Trace;
use faults::cause::Cause;
use faults::fault::{Fault, Layer};
use faults::stop::Stop;
use sampling::hold::Hold;
use sampling::sampler::Sampler;
use std::test::Fail;
use values::value::Value;

// Channel 0 reads the Word8 of 5, and then nothing at three rows.
const FIVE: [u8; 12] = [1, 0, 2, 2, 5, 0, 0, 0, 1, 0, 0, 0];

#[test]
fn a_pile_over_a_trace(rt: HostRuntime) -> Result<(), Fail> {
    let mut trace = Trace::new(rt.alloc())?;
    assert!(rt; trace.open(rt.alloc(), &FIVE) == Ok(4));
    let mut pile = Hold::new(Hold::new(trace, 1), 1);
    // Before its first latch the upper hold makes the fault, also above channel 15.
    let own = Fault::new(Layer::Hold, Cause::Dark(200));
    assert!(rt; pile.read(200) == Err(own));
    // One latch is bridged by the lower hold, and one more by the upper.
    let five = Ok(Value::Word8(5));
    for _ in 0..3u8 {
        assert!(rt; pile.latch().is_ok());
        assert!(rt; pile.read(0) == five);
    }
    assert!(rt; pile.latch().is_ok());
    let dark = Fault {
        cause: Cause::Dark(0),
        layer: Layer::Trace,
        passed: 2,
    };
    assert!(rt; pile.read(0) == Err(dark));
    // A latch that is refused ages nothing and keeps the rows.
    let spent = Fault {
        cause: Cause::NoRow(4),
        layer: Layer::Trace,
        passed: 2,
    };
    assert!(rt; pile.latch() == Err(spent));
    assert!(rt; pile.read(0) == Err(dark));
    Ok(())
}

#[test]
fn a_refused_latch_ages_nothing(rt: HostRuntime) -> Result<(), Fail> {
    let mut trace = Trace::new(rt.alloc())?;
    assert!(rt; trace.open(rt.alloc(), &FIVE[..5]) == Ok(1));
    let mut hold = Hold::new(trace, 0);
    assert!(rt; hold.latch().is_ok());
    let spent = Fault {
        cause: Cause::NoRow(1),
        layer: Layer::Trace,
        passed: 1,
    };
    for _ in 0..3u8 {
        assert!(rt; hold.latch() == Err(spent));
        assert!(rt; hold.read(0) == Ok(Value::Word8(5)));
    }
    Ok(())
}

#[test]
fn a_refused_opening_keeps_the_trace(rt: HostRuntime) -> Result<(), Fail> {
    let mut trace = Trace::new(rt.alloc())?;
    assert!(rt; trace.latch() == Err(Fault::new(Layer::Trace, Cause::NoRow(0))));
    assert!(rt; trace.open(rt.alloc(), &FIVE) == Ok(4));
    assert!(rt; trace.latch().is_ok());
    // A Bool of 2.
    let bad = [1u8, 0, 2, 1, 2];
    let refusal = Fault::new(Layer::Trace, Cause::Malformed(4));
    assert!(rt; trace.open(rt.alloc(), &bad) == Err(Stop::Refused(refusal)));
    assert!(rt; trace.read(0) == Ok(Value::Word8(5)));
    assert!(rt; trace.latch().is_ok());
    assert!(rt; trace.read(0) == Err(Fault::new(Layer::Trace, Cause::Dark(0))));
    Ok(())
}
