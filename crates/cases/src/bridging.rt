// A hold over a panel, in a worked case.
ghost use Rattle.std.specs.Prelude.{◌≡◌, [], ◌∷◌, Some, None};
ghost use Rattle.sampling.specs.Holds.{after, record_at};
ghost use Rattle.sampling.specs.Rows.{readings};
ghost use Rattle.values.specs.declared.value.Value.TheVariants.{Word8};

use sampling::hold::Hold;
use sampling::panel::Panel;
use sampling::sampler::Sampler;
use values::value::Value;

// Puts a value at channel 0 of the panel below, or clears it; the channel is there, so neither is refused.
fn set(hold: &mut Hold<Panel>, reading: Option<Value>)
    ensures next { readings hold.new.below.next 0 ≡ reading }
    ensures bridges { hold.new.bridges ≡ hold.old.bridges }
    ensures channels { hold.new.channels ≡ hold.old.channels }
{
    let panel = hold.get_mut();
    let _set = match reading {
        Some(value) => panel.put(0, value),
        None => panel.clear(0),
    };
}

// The same, and then what the hold shows there after a latch, which a panel never refuses.
fn turn(hold: &mut Hold<Panel>, reading: Option<Value>) -> Option<Value>
    ensures { (result ≡ (after hold.old.bridges (record_at hold.old.channels 0) reading).last)
        × (record_at hold.new.channels 0 ≡ after hold.old.bridges (record_at hold.old.channels 0) reading)
        × (hold.new.bridges ≡ hold.old.bridges) }
{
    set(hold, reading);
    let _latched = hold.latch();
    hold.read(0).ok()
}

// What a hold that bridges two latches shows of 5 and three latches with nothing.
pub(crate) fn bridge_five() -> [Option<Value>; 4]
    ensures { result ≡ Some (Word8 5) ∷ Some (Word8 5) ∷ Some (Word8 5) ∷ None ∷ [] }
{
    let mut hold = Hold::new(Panel::new(), 2);
    let first = turn(&mut hold, Some(Value::Word8(5)));
    let second = turn(&mut hold, None);
    let third = turn(&mut hold, None);
    let fourth = turn(&mut hold, None);
    [first, second, third, fourth]
}
