// What a sink counts.
ghost use Rattle.std.specs.Prelude.{◌≡◌, ◌+◌, ◌-◌, min, Some, None};

use crate::alarm::Alarm;

// How many alarms were taken, and the latest.
#[derive(Clone, Copy, Debug)]
pub struct Tally {
    pub number: u32,
    pub latest: Option<Alarm>,
}

impl Tally {
    // Of no alarm yet.
    pub fn new() -> Tally
        ensures number { result.number ≡ 0 }
        ensures latest { result.latest ≡ None }
    {
        Tally {
            number: 0,
            latest: None,
        }
    }

    // How many more can be counted.
    pub fn left(&self) -> u32
        ensures { result ≡ 4294967295 - self.now.number }
    {
        u32::MAX - self.number
    }

    // Counts one more, as far as it can.
    pub fn count(&mut self, alarm: Alarm)
        ensures number { self.new.number ≡ min (self.old.number + 1) 4294967295 }
        ensures latest { self.new.latest ≡ Some alarm }
    {
        self.number = self.number.saturating_add(1);
        self.latest = Some(alarm);
    }
}
