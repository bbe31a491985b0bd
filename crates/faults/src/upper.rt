// The fault of a layer that stands over another.
ghost use Rattle.std.specs.Prelude.{◌≡◌};
ghost use Rattle.faults.specs.Faults.{from_below, its_own};

use crate::cause::Cause;
use crate::fault::{Fault, Layer};

// A fault of a layer that stands over another: its own, or one from below, which it has handed on.
#[derive(Clone, Copy, Debug, PartialEq, Eq)]
pub struct UpperFault {
    pub fault: Fault,
}

impl UpperFault {
    // A fault of the layer's own.
    pub fn new(layer: Layer, cause: Cause) -> UpperFault
        ensures { result ≡ its_own layer cause }
    {
        UpperFault {
            fault: Fault::new(layer, cause),
        }
    }
}

// From below: cause and layer are kept, and one more layer is counted.
impl From<Fault> for UpperFault {
    ghost from_gives = { λ below upper. upper ≡ from_below below };

    fn from(below: Fault) -> UpperFault {
        UpperFault {
            fault: below.hand_on(),
        }
    }
}

// As whoever stands above sees it.
impl From<UpperFault> for Fault {
    ghost from_gives = { λ upper fault. fault ≡ upper.fault };

    fn from(upper: UpperFault) -> Fault {
        upper.fault
    }
}
