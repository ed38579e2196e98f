//! Why a text is no range.
use std::alloc::{AllocError, AllocFailed};
use thiserror::Error;

/// Why `Range::read` gives no range.
#[derive(Clone, Copy, Debug, PartialEq, Eq, Error)]
pub enum RangeFault {
    /// The first piece that begins no comparator begins at this offset, in bytes from 0.
    #[error("range at {offset}")]
    At { offset: u32 },
    /// There is not enough memory, or the first bad piece begins at 4,294,967,296 or later.
    #[error("out of memory")]
    OutOfMemory,
}

impl From<AllocError> for RangeFault {
    ghost use Rattle.std.specs.Prelude.{◌≡◌};
    ghost use Rattle.npm_range.specs.declared.fault.RangeFault.TheVariants as fault;

    ghost from_gives = { λ _ r. r ≡ fault.OutOfMemory };

    fn from(_: AllocError) -> RangeFault {
        RangeFault::OutOfMemory
    }
}

impl<T: Drop> From<AllocFailed<T>> for RangeFault {
    ghost use Rattle.std.specs.Prelude.{◌≡◌};
    ghost use Rattle.npm_range.specs.declared.fault.RangeFault.TheVariants as fault;

    ghost from_gives = { λ _ r. r ≡ fault.OutOfMemory };

    fn from(_: AllocFailed<T>) -> RangeFault {
        RangeFault::OutOfMemory
    }
}
