// The states of a monitor, a type each.
ghost use Rattle.std.specs.Prelude.{◌≡◌, ◌<◌, []};

use crate::progress::Progress;
use faults::fault::Fault;
use faults::upper::UpperFault;
use std::marker::Model;
use values::value::Value;

/// A fault of a monitor: its own, or one of a sampler or a sink that it has handed on.
pub type MonitorFault = UpperFault;

/// A monitor between two ticks: no alarm is due.
#[derive(Drop)]
pub struct Ready {
    pub(crate) progress: Progress,
}

impl Model for Ready {
    ghost use Rattle.std.specs.Prelude.{◌≡◌, []};
    ghost use Rattle.monitor.specs.States.{State, state_of};

    ghost Value = { State };

    ghost view = { λ r. state_of r.progress };

    ghost invariant = { λ r. r.progress.due.items ≡ [] };
}

/// A monitor with a tick sampled, which is to be judged.
#[derive(Drop)]
pub struct Sampled {
    pub(crate) progress: Progress,
}

impl Model for Sampled {
    ghost use Rattle.std.specs.Prelude.{◌≡◌, ◌<◌, []};
    ghost use Rattle.monitor.specs.States.{State, state_of};

    ghost Value = { State };

    ghost view = { λ s. state_of s.progress };

    ghost invariant = { λ s. (s.progress.due.items ≡ []) × (s.progress.ticks < 4294967295) };
}

/// A monitor with a tick judged, whose alarms may be due. It is not `Drop`: only closing ends it.
pub struct Judged {
    pub(crate) progress: Progress,
}

impl Model for Judged {
    ghost use Rattle.monitor.specs.States.{State, state_of};

    ghost Value = { State };

    ghost view = { λ j. state_of j.progress };
}

/// The newest index of a stream, and its value there.
#[derive(Clone, Copy, Debug, PartialEq, Eq)]
pub struct Shown {
    pub index: u64,
    pub value: Value,
}

/// The fault of a call that was refused, with the state as it was.
#[derive(Drop)]
pub struct Stopped<T> {
    pub state: T,
    pub fault: Fault,
}
