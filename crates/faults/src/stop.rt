// Why a call stops that may want memory.
ghost use Rattle.std.specs.Prelude.{◌≡◌};
ghost use Rattle.faults.specs.declared.stop.Stop.TheVariants.{Refused, Memory};
ghost use Rattle.faults.specs.Stops.{stop_made_by, refused};

use crate::cause::Cause;
use crate::fault::{Fault, Layer};
use std::alloc::{AllocError, AllocFailed as Unplaced};

// Why a call stops: something is refused, by its cause or as a fault, or there is no memory for it.
#[derive(Clone, Copy, Debug, PartialEq, Eq)]
pub enum Stop<R = Cause> {
    Refused(R),
    Memory,
}

impl From<Cause> for Stop {
    ghost from_gives = { λ x y. y ≡ Refused x };

    fn from(cause: Cause) -> Stop {
        Stop::Refused(cause)
    }
}

impl From<Fault> for Stop<Fault> {
    ghost from_gives = { λ x y. y ≡ Refused x };

    fn from(fault: Fault) -> Stop<Fault> {
        Stop::Refused(fault)
    }
}

impl<R, T: Drop> From<Unplaced<T>> for Stop<R> {
    ghost from_gives = { λ x y. y ≡ Memory };

    fn from(_unplaced: Unplaced<T>) -> Stop<R> {
        Stop::Memory
    }
}

impl<R> From<AllocError> for Stop<R> {
    ghost from_gives = { λ x y. y ≡ Memory };

    fn from(_failed: AllocError) -> Stop<R> {
        Stop::Memory
    }
}

impl Stop {
    // The same, where a refusal is a fault of the layer that made it.
    pub fn made_by(self, layer: Layer) -> Stop<Fault>
        ensures { result ≡ stop_made_by layer self }
    {
        match self {
            Stop::Refused(cause) => Stop::Refused(Fault::new(layer, cause)),
            Stop::Memory => Stop::Memory,
        }
    }
}

impl<R: Drop> Stop<R> {
    // What is refused; want of memory is the caller's to hand on.
    pub fn refused(self) -> Result<R, AllocError>
        ensures { result ≡ refused self }
    {
        match self {
            Stop::Refused(refused) => Ok(refused),
            Stop::Memory => Err(AllocError),
        }
    }
}
