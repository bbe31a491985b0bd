// What every sampler does.
ghost use Rattle.std.specs.Prelude.{◌≡◌, ◌<◌, ℕ, true, false, None, is_ok};
ghost use Rattle.faults.specs.Causes.{number_of, refusal};
ghost use Rattle.sampling.specs.Meanings.{Meaning, latched, row_after, reading, SameRows};

use faults::fault::Fault;
use values::value::Value;

// Gives a row of readings at each latch.
pub trait Sampler {
    // what it means
    ghost meaning: { Self → Meaning };

    // what a latch that goes through makes of the sampler, besides its present row
    ghost moves: { Self → Self → Type 0 };

    // what a refused latch leaves of it, besides its rows
    ghost rests: { Self → Self → Type 0 };

    // Makes the next row the present one.
    fn latch(&mut self) -> Result<(), Fault>
        ensures answer { result ≡ latched (meaning self.old) }
        ensures shows { (meaning self.new).present ≡ row_after (meaning self.old) }
        ensures moved { is_ok result ≡ true → moves self.old self.new }
        ensures kept { is_ok result ≡ false → SameRows (meaning self.old) (meaning self.new) }
        ensures rested { is_ok result ≡ false → rests self.old self.new };

    // The reading at a channel of the present row.
    fn read(&self, channel: u8) -> Result<Value, Fault>
        ensures { result ≡ reading (meaning self.now) channel };

    // laws: no row has anything above channel 15; a latch is refused by 14, and a read by 15 at its channel
    ghost short: { (s : Self) (k : ℕ) → 15 < k → (meaning s).present k ≡ None };

    ghost refuses: { (s : Self) → number_of (meaning s).refusal.cause ≡ 14 };

    ghost darkens: { (s : Self) (k : ℕ) → refusal ((meaning s).dark k).cause ≡ (15, k) };
}
