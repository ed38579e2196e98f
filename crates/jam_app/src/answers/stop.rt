//! What ends the work before its text is written.
ghost use Rattle.std.specs.Prelude.{◌≡◌};
ghost use Rattle.jam_app.specs.declared.answers.stop.Stop.TheVariants.{OutOfMemory};

use crate::Refusal;
use crate::answers::line::Line;
use std::alloc::{AllocError, AllocFailed};

/// What ends the work before its text is written.
#[derive(Debug, Drop)]
pub(crate) enum Stop {
    /// The folder failed.
    ReadFault,
    /// There was no memory.
    OutOfMemory,
    /// A refusal, and the line that says it.
    Refused(Refusal, Line),
}

impl From<jam_base::OutOfMemory> for Stop {
    ghost from_gives = { λ _ e. e ≡ OutOfMemory };

    fn from(_: jam_base::OutOfMemory) -> Stop {
        Stop::OutOfMemory
    }
}

impl From<AllocError> for Stop {
    ghost from_gives = { λ _ e. e ≡ OutOfMemory };

    fn from(_: AllocError) -> Stop {
        Stop::OutOfMemory
    }
}

impl<T: Drop> From<AllocFailed<T>> for Stop {
    ghost from_gives = { λ _ e. e ≡ OutOfMemory };

    fn from(_: AllocFailed<T>) -> Stop {
        Stop::OutOfMemory
    }
}
