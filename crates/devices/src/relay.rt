// The relay: an alarm for two sinks at once, and a count of the alarms that it refused.
ghost use Rattle.std.specs.Prelude.{◌≡◌, true, false, is_ok};
ghost use Rattle.devices.specs.Relays.{relay_to, first_of, second_of, refused_offers, relay_view, relay_full, Passed, Declined, Rested, relay_over, both_bounded, either_refuses};
ghost use Rattle.alarms.specs.Sinks.{offered, Offered};

use alarms::alarm::Alarm;
use alarms::sink::Sink;
use faults::fault::Fault;
use faults::upper::UpperFault;

/// A fault of a relay: always one from below that it has handed on.
pub type RelayFault = UpperFault;

/// A sink over two others, of any kind, that takes an alarm where both have a place for it, and counts those that it refused.
#[derive(Drop)]
pub struct Relay<A, B> {
    first: A,
    second: B,
    refused: u32,
}

impl<A: Sink, B: Sink> Relay<A, B> {
    /// A relay that has refused no alarm yet.
    pub fn new(first: A, second: B) -> Relay<A, B>
        ensures { result ≡ relay_to first second }
    {
        Relay {
            first,
            second,
            refused: 0,
        }
    }

    /// Both sinks, the first and the second.
    pub fn get_ref(&self) -> (&A, &B)
        ensures first { result.0.now ≡ first_of self.now }
        ensures second { result.1.now ≡ second_of self.now }
    {
        (&self.first, &self.second)
    }

    /// Both sinks, once the relay is done with.
    pub fn into_inner(self) -> (A, B)
        ensures { result ≡ (first_of self, second_of self) }
    {
        let Relay { first, second, .. } = self;
        (first, second)
    }

    /// How many alarms it refused, counted up to 4,294,967,295.
    pub fn refused(&self) -> u32
        ensures { result ≡ refused_offers self.now }
    {
        self.refused
    }

    // An alarm for both. The first is not asked where it would take what the second refuses.
    fn pass(&mut self, alarm: Alarm) -> Result<(), RelayFault>
        ensures answer { result ≡ offered (relay_view A.Sink B.Sink self.old) alarm
            (relay_full A.Sink B.Sink self.old alarm) }
        ensures view { Offered (relay_over A.Sink B.Sink).adds alarm
            (relay_view A.Sink B.Sink self.old) (relay_view A.Sink B.Sink self.new) result }
        ensures moved { is_ok result ≡ true → Passed A.Sink B.Sink alarm self.old self.new }
        ensures rested { is_ok result ≡ false → Declined A.Sink B.Sink alarm self.old self.new }
        ensures refused { refused_offers self.new ≡ refused_offers self.old }
    {
        if self.first.places() == 0 || self.second.places() > 0 {
            self.first.take(alarm)?;
        }
        self.second.take(alarm)?;
        Ok(())
    }
}

impl<A: Sink, B: Sink> Sink for Relay<A, B> {
    ghost Holding = { (relay_over A.Sink B.Sink).Holding };

    ghost view = { (relay_over A.Sink B.Sink).view };

    ghost adds = { (relay_over A.Sink B.Sink).adds };

    ghost full = { (relay_over A.Sink B.Sink).full };

    ghost moves = { (relay_over A.Sink B.Sink).moves };

    ghost rests = { (relay_over A.Sink B.Sink).rests };

    ghost bounded = { λ r. let s = first_of r in
        both_bounded (A.view s) (B.view (second_of r)) (A.bounded s) };

    ghost refuses = { λ r a. let s = first_of r in let t = second_of r in
        either_refuses (A.view s) a (A.full s a) (B.full t a) (A.refuses s a) (B.refuses t a) };

    fn take(&mut self, alarm: Alarm) -> Result<(), Fault> {
        let passed = self.pass(alarm);
        if passed.is_err() {
            self.refused = self.refused.saturating_add(1);
        }
        Ok(passed?)
    }

    fn number(&self) -> u32 {
        self.first.number()
    }

    fn latest(&self) -> Option<Alarm> {
        self.first.latest()
    }

    fn places(&self) -> u32 {
        self.first.places().min(self.second.places())
    }
}
