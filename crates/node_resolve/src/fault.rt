//! Why nothing can be said of a require.
ghost use Rattle.std.specs.Prelude.{◌≡◌};
ghost use Rattle.node_resolve.specs.declared.fault.ResolveFault.TheVariants as fault;

use jam_base::Failed;
use std::alloc::{AllocError, AllocFailed};
use thiserror::Error;

/// Why `resolve` and `entry_of` give no target.
#[derive(Debug, PartialEq, Eq, Drop, Error)]
pub enum ResolveFault {
    /// A call of the folder failed, and its count of faults rose.
    #[error("read failed")]
    ReadFault,
    /// There is not enough memory.
    #[error("out of memory")]
    OutOfMemory,
}

impl From<Failed> for ResolveFault {
    ghost from_gives = { λ _ e. e ≡ fault.ReadFault };

    fn from(_: Failed) -> ResolveFault {
        ResolveFault::ReadFault
    }
}

impl From<jam_base::OutOfMemory> for ResolveFault {
    ghost from_gives = { λ _ e. e ≡ fault.OutOfMemory };

    fn from(_: jam_base::OutOfMemory) -> ResolveFault {
        ResolveFault::OutOfMemory
    }
}

impl From<AllocError> for ResolveFault {
    ghost from_gives = { λ _ e. e ≡ fault.OutOfMemory };

    fn from(_: AllocError) -> ResolveFault {
        ResolveFault::OutOfMemory
    }
}
