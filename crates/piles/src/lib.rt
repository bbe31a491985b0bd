// Monitors over piles of samplers and sinks, tried: tests that cross crates.
#![tactic(auto)]

#[cfg(test)]
mod devices_tests;
#[cfg(test)]
mod tests;

ghost use Rattle.std.specs.Prelude.{◌≡◌};

use alarms::alarm::{Alarm, Arguments};

/// The alarm of rule 0 at a tick, without arguments.
pub fn plain_alarm(tick: u64) -> Alarm
    ensures tick { result.tick ≡ tick }
    ensures rule { result.rule ≡ 0 }
    ensures arguments { result.arguments ≡ Arguments.None }
{
    Alarm {
        tick,
        rule: 0,
        arguments: Arguments::None,
    }
}
