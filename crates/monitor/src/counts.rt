// How many alarms there were.

/// How many alarms were called, taken and struck since opening, and how many are due.
#[derive(Clone, Copy, Debug, PartialEq, Eq)]
pub struct AlarmCounts {
    pub called: u64,
    pub taken: u64,
    pub struck: u64,
    pub due: u64,
}
