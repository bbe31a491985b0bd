// The hold: stands over any sampler, and bridges the latches at which a channel below has nothing.
ghost use Rattle.std.specs.Prelude.{◌≡◌, ◌<◌, ℕ, true, false, is_ok, ok_or};
ghost use Rattle.sampling.specs.Holds.{after, record_at, hold_row, hold_dark};
ghost use Rattle.faults.specs.Faults.{from_below};
ghost use Rattle.std.specs.Borrow.{Lends, sem};
ghost use Rattle.sampling.specs.contracts.hold.Hold.{the_row};
ghost use Rattle.sampling.specs.Meanings.{latch_answer, row_after};
ghost use Rattle.sampling.specs.Moves.{unlatched, sampler_below, with_below, hold_meaning, Moved, Rested};
ghost use Rattle.sampling.specs.Short.{past_hold, dark_hold};

use crate::channel::ChannelRecord;
use crate::row::CHANNELS;
use crate::sampler::Sampler;
use faults::cause::Cause;
use faults::fault::{Fault, Layer};
use faults::upper::UpperFault;
use values::value::Value;

// A fault of a hold: its own, or one from below that it has handed on.
pub type HoldFault = UpperFault;

// A sampler over another: where the row below has nothing, it shows the channel's last value for some latches running.
#[derive(Drop)]
pub struct Hold<S> {
    below: S,
    // How many latches it bridges.
    bridges: u8,
    // Whether it has latched yet.
    latched: bool,
    channels: [ChannelRecord; 16],
}

impl<S: Sampler> Hold<S> {
    // A hold that has not latched yet.
    pub fn new(below: S, bridges: u8) -> Hold<S>
        ensures { result ≡ unlatched below bridges }
    {
        Hold {
            below,
            bridges,
            latched: false,
            channels: [ChannelRecord::new(); 16],
        }
    }

    // The sampler below.
    pub fn get_ref(&self) -> &S
        ensures { result.now ≡ sampler_below self.now }
    {
        &self.below
    }

    // The sampler below, for its host. The hold takes note of a latch of it alone only at its own next latch.
    pub fn get_mut(&mut self) -> &mut S
        ensures* writes_back { sem 𝓛 (Lends (the_row S.row) S.row self.entry result (with_below self.old)) }
        ensures value { result.now ≡ sampler_below self.old }
    {
        &mut self.below
    }

    // The sampler below, once the hold is done with.
    pub fn into_inner(self) -> S
        ensures { result ≡ sampler_below self }
    {
        let Hold { below, .. } = self;
        below
    }

    // Reads all sixteen channels below, and keeps what they read.
    fn take_row(&mut self)
        ensures below { self.new.below ≡ self.old.below }
        ensures bridges { self.new.bridges ≡ self.old.bridges }
        ensures latched { self.new.latched ≡ self.old.latched }
        ensures channels { (k : ℕ) → k < 16 → record_at self.new.channels k
            ≡ after self.old.bridges (record_at self.old.channels k) ((S.meaning self.old.below).present k) }
    {
        for channel in 0..CHANNELS {
            let reading = self.below.read(channel).ok();
            let record = &mut self.channels[usize::from(channel)];
            record.take(reading, self.bridges);
        }
    }

    // Latches below, and then takes the row there.
    fn step(&mut self) -> Result<(), HoldFault>
        ensures answer { let below = S.meaning self.old.below in
            result ≡ latch_answer below.next (from_below below.refusal) }
        ensures below { (S.meaning self.new.below).present ≡ row_after (S.meaning self.old.below) }
        ensures moved { is_ok result ≡ true → Moved S.Sampler self.old self.new }
        ensures rested { is_ok result ≡ false → Rested S.Sampler self.old self.new }
    {
        self.below.latch()?;
        self.take_row();
        self.latched = true;
        Ok(())
    }

    // What a channel reads: what its record shows. Elsewhere it is dark below too, unless the host has latched there alone.
    fn look(&self, channel: u8) -> Result<Value, HoldFault>
        ensures { result ≡ ok_or (hold_row self.now.latched self.now.channels channel)
            (hold_dark self.now.latched (S.meaning self.now.below) channel) }
    {
        let dark = HoldFault::new(Layer::Hold, Cause::Dark(channel));
        if !self.latched {
            return Err(dark);
        }
        let record = self.channels.get(usize::from(channel));
        if let Some(value) = record.and_then(ChannelRecord::shown) {
            return Ok(value);
        }
        self.below.read(channel)?;
        Err(dark)
    }
}

impl<S: Sampler> Sampler for Hold<S> {
    ghost meaning = { hold_meaning S.Sampler };

    ghost moves = { Moved S.Sampler };

    ghost rests = { Rested S.Sampler };

    ghost short = { λ h. past_hold h.latched h.channels };

    ghost refuses = { λ h. S.refuses h.below };

    ghost darkens = { λ h. dark_hold h.latched (S.meaning h.below) (S.darkens h.below) };

    fn latch(&mut self) -> Result<(), Fault> {
        self.step()?;
        Ok(())
    }

    fn read(&self, channel: u8) -> Result<Value, Fault> {
        Ok(self.look(channel)?)
    }
}
