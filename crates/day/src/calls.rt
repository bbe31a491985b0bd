// The calls of a day, and what they answer.
use faults::fault::Fault;
use monitor::counts::AlarmCounts;
use monitor::states::Shown;

/// A call of a monitor.
#[derive(Clone, Copy, Debug, PartialEq, Eq)]
pub enum Call {
    Sample,
    Judge,
    Deliver,
    Strike,
    Close,
    // Of the stream of this number.
    Show(u8),
}

/// What a call answered.
#[derive(Clone, Copy, Debug, PartialEq, Eq)]
pub enum Answer {
    Sampled,
    Judged(AlarmCounts),
    Delivered(AlarmCounts),
    Struck(AlarmCounts),
    Closed,
    Shown(Shown),
    Refused(Fault),
    // The state has no such call.
    Absent,
}
