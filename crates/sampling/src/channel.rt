// What a hold keeps of one channel.
ghost use Rattle.std.specs.Prelude.{◌≡◌};
ghost use Rattle.sampling.specs.Holds.{unread, last_value, after};

use values::value::Value;

// The last value of a channel while it is shown, and for how many more latches running that may be.
#[derive(Clone, Copy, Debug, PartialEq, Eq)]
pub struct ChannelRecord {
    last: Option<Value>,
    left: u8,
}

impl ChannelRecord {
    // Of a channel that has not been read yet.
    pub fn new() -> ChannelRecord
        ensures { result ≡ unread }
    {
        ChannelRecord {
            last: None,
            left: 0,
        }
    }

    // What is shown of the channel.
    pub fn shown(&self) -> Option<Value>
        ensures { result ≡ last_value self.now }
    {
        self.last
    }

    // Takes what the channel reads below at a latch, where so many latches with nothing are bridged.
    pub fn take(&mut self, reading: Option<Value>, bridges: u8)
        ensures { self.new ≡ after bridges self.old reading }
    {
        match reading {
            Some(_) => {
                *self = ChannelRecord {
                    last: reading,
                    left: bridges,
                }
            }
            None if self.left == 0 => *self = ChannelRecord::new(),
            None => self.left -= 1,
        }
    }
}
