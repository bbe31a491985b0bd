// A monitor in any of its states.
use monitor::states::{Judged, Ready, Sampled};

/// A monitor in one of its states. It is not `Drop`, since it may be judged.
pub enum Monitor {
    Ready(Ready),
    Sampled(Sampled),
    Judged(Judged),
}
