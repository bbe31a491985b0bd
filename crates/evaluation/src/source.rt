// Where the values of channels and streams come from.
ghost use Rattle.std.specs.Prelude.{◌≡◌, ℕ, ◌+◌};
ghost use Rattle.values.specs.declared.value.Value.{Value};
ghost use Rattle.evaluation.specs.Meaning.{Samples, Values};

use values::value::Value;

/// Samples of channels and values of streams, read at one place: a channel at the place itself, and
/// a stream a drop further on.
pub trait Source {
    // the samples by tick and channel
    ghost samples: { Self → Samples };

    // the values by stream and index
    ghost values: { Self → Values };

    // the place at which it is read
    ghost place: { Self → ℕ };

    /// The channel's sample of the place's tick.
    fn channel(&self, number: u8) -> Value
        ensures { result ≡ samples self.now (place self.now) number };

    /// The stream's value at the index that lies the drop beyond the place.
    fn stream(&self, number: u8, drop: u8) -> Value
        ensures { result ≡ values self.now number (place self.now + drop) };
}
