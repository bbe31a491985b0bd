// Holds over a panel, with the exact faults and the layers that they passed.
ghost use Rattle.std.specs.Prelude.{None, refl};
ghost use Rattle.faults.specs.declared.cause.Cause.TheVariants.{NoRow, Dark};
ghost use Rattle.faults.specs.declared.fault.Layer.TheVariants as layer;
ghost use Rattle.faults.specs.Faults.{made_by};
ghost use Rattle.sampling.specs.Rows.{nothing};

use crate::hold::Hold;
use crate::panel::Panel;
use crate::sampler::Sampler;
use faults::cause::Cause;
use faults::fault::{Fault, Layer};
use std::test::Fail;
use values::value::Value;

#[test]
fn a_pile_over_a_panel(rt: HostRuntime) -> Result<(), Fail> {
    let mut pile = Hold::new(Hold::new(Panel::new(), 2), 0);
    let panel = pile.get_mut().get_mut();
    assert!(rt; panel.put(7, Value::Int8(-1)).is_ok());
    assert!(rt; panel.put(16, Value::Int8(-1)) == Err(Fault::new(Layer::Panel, Cause::Limit(16))));
    assert!(rt; panel.clear(255) == Err(Fault::new(Layer::Panel, Cause::Limit(255))));
    assert!(rt; pile.read(7) == Err(Fault::new(Layer::Hold, Cause::Dark(7))));
    // The panel's next row outlasts the latch, so that the value is read again.
    for _ in 0..4u8 {
        assert!(rt; pile.latch().is_ok());
        assert!(rt; pile.read(7) == Ok(Value::Int8(-1)));
    }
    assert!(rt; pile.get_mut().get_mut().clear(7).is_ok());
    for _ in 0..2u8 {
        assert!(rt; pile.latch().is_ok());
        assert!(rt; pile.read(7) == Ok(Value::Int8(-1)));
    }
    assert!(rt; pile.latch().is_ok());
    let dark = Fault {
        cause: Cause::Dark(7),
        layer: Layer::Panel,
        passed: 2,
    };
    assert!(rt; pile.read(7) == Err(dark));
    Ok(())
}

#[test]
fn a_panel_that_its_host_latches_alone(rt: HostRuntime) -> Result<(), Fail> {
    let mut hold = Hold::new(Panel::new(), 0);
    assert!(rt; hold.latch().is_ok());
    let panel = hold.get_mut();
    assert!(rt; panel.put(7, Value::Int8(-1)).is_ok());
    assert!(rt; panel.latch().is_ok());
    assert!(rt; hold.get_ref().read(7) == Ok(Value::Int8(-1)));
    // The hold has not latched since: its row has nothing there, and the fault is its own.
    assert!(rt; hold.read(7) == Err(Fault::new(Layer::Hold, Cause::Dark(7))));
    assert!(rt; hold.latch().is_ok());
    assert!(rt; hold.read(7) == Ok(Value::Int8(-1)));
    let panel = hold.get_mut();
    assert!(rt; panel.clear(7).is_ok());
    assert!(rt; panel.latch().is_ok());
    assert!(rt; hold.read(7) == Ok(Value::Int8(-1)));
    Ok(())
}

// A device that has no row and counts how often it was asked for one: both rows are kept, and not the whole of it.
#[derive(Drop)]
struct Silent {
    polls: u8,
}

impl Sampler for Silent {
    ghost meaning = { λ d. record {
      present = nothing;
      next = None;
      refusal = made_by layer.Trace (NoRow 0);
      dark = λ k. made_by layer.Trace (Dark k);
    } };

    ghost moves = { λ d e. Unit {0} };

    ghost rests = { λ d e. Unit {0} };

    ghost short = { λ d k h. refl };

    ghost refuses = { λ d. refl };

    ghost darkens = { λ d k. refl };

    fn latch(&mut self) -> Result<(), Fault> {
        self.polls = self.polls.saturating_add(1);
        Err(Fault::new(Layer::Trace, Cause::NoRow(0)))
    }

    fn read(&self, channel: u8) -> Result<Value, Fault> {
        Err(Fault::new(Layer::Trace, Cause::Dark(channel)))
    }
}

#[test]
fn a_device_that_counts_refused_latches(rt: HostRuntime) -> Result<(), Fail> {
    let mut hold = Hold::new(Silent { polls: 0 }, 2);
    for _ in 0..2u8 {
        assert!(rt; hold.latch().is_err());
    }
    assert!(rt; hold.get_ref().polls == 2);
    assert!(rt; hold.read(0) == Err(Fault::new(Layer::Hold, Cause::Dark(0))));
    Ok(())
}
