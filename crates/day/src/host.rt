// Who asks for the calls of a day.
ghost use Rattle.std.specs.Prelude.{◌≡◌, Option};
ghost use Rattle.day.specs.declared.calls.Answer.{Answer};
ghost use Rattle.day.specs.declared.calls.Call.{Call};

use crate::calls::{Answer, Call};

/// Asks for calls, handles sampler and sink before each, and hears what it answered.
pub trait Host<S, K> {
    // asking for the next call, if any, makes this of it
    ghost asks: { Self → Option Call → Self → Type 0 };

    // handling sampler and sink before a call makes this of it and of them
    ghost handles: { Call → Self → S → K → Self → S → K → Type 0 };

    // hearing an answer makes this of it
    ghost hears: { Answer → Self → Self → Type 0 };

    /// The next call, if the day is to go on.
    fn next_call(&mut self) -> Option<Call>
        ensures { asks self.old result self.new };

    /// Handles sampler and sink before the call.
    fn handle(&mut self, call: Call, sampler: &mut S, sink: &mut K)
        ensures { handles call self.old sampler.old sink.old self.new sampler.new sink.new };

    /// Hears what the call answered.
    fn hear(&mut self, answer: Answer)
        ensures { hears answer self.old self.new };
}
