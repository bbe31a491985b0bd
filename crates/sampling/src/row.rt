// A row: what each channel reads at one latch.
ghost use Rattle.std.specs.Prelude.{◌≡◌};
ghost use Rattle.sampling.specs.Rows.{readings, nothing, placed};

use values::value::Value;

// How many channels a row has.
pub const CHANNELS: u8 = 16;

// A value or nothing for each of sixteen channels.
#[derive(Clone, Copy, Debug, PartialEq, Eq)]
pub struct Row {
    channels: [Option<Value>; 16],
}

impl Row {
    // The row that has nothing.
    pub fn empty() -> Row
        ensures { readings result ≡ nothing }
    {
        Row {
            channels: [None; 16],
        }
    }

    // What a channel reads; above 15 nothing.
    pub fn at(&self, channel: u8) -> Option<Value>
        ensures { result ≡ readings self.now channel }
    {
        self.channels.get(usize::from(channel)).copied().flatten()
    }

    // Puts a value or nothing at a channel; above 15 there is no place for it.
    pub fn put(&mut self, channel: u8, reading: Option<Value>)
        ensures { readings self.new ≡ placed (readings self.old) channel reading }
    {
        if channel < CHANNELS {
            self.channels[usize::from(channel)] = reading;
        }
    }
}
