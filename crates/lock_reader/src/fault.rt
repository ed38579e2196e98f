//! Why bytes are no lockfile.
ghost use Rattle.std.specs.Prelude.{◌≡◌, ◌⊎◌};

use jam_base::{OutOfMemory, Text};
use std::alloc::{AllocError, AllocFailed, Global};
use thiserror::Error;

/// Why `read_lock` gives no lockfile. The first of these that holds is the one that is told.
#[derive(Debug, PartialEq, Eq, Drop, Error)]
pub enum LockFault {
    /// The bytes are no JSON text.
    #[error("not JSON")]
    NotJson,
    /// What stands at this place has another shape than in a lockfile: the empty place is the file
    /// itself, then come `lockfileVersion` and `packages`, then the first location by bytes.
    #[error("wrong shape at {}", .place.as_str())]
    Shape { place: Text },
    /// The `lockfileVersion` is none that is read.
    #[error("lockfileVersion {found}")]
    Version { found: u64 },
    /// There is not enough memory.
    #[error("out of memory")]
    OutOfMemory,
}

impl From<OutOfMemory> for LockFault {
    ghost use Rattle.std.specs.Prelude.{◌≡◌};
    ghost use Rattle.lock_reader.specs.declared.fault.LockFault.TheVariants as fault;

    ghost from_gives = { λ _ r. r ≡ fault.OutOfMemory };

    fn from(_: OutOfMemory) -> LockFault {
        LockFault::OutOfMemory
    }
}

impl From<AllocError> for LockFault {
    ghost use Rattle.std.specs.Prelude.{◌≡◌};
    ghost use Rattle.lock_reader.specs.declared.fault.LockFault.TheVariants as fault;

    ghost from_gives = { λ _ r. r ≡ fault.OutOfMemory };

    fn from(_: AllocError) -> LockFault {
        LockFault::OutOfMemory
    }
}

impl<T: Drop> From<AllocFailed<T>> for LockFault {
    ghost use Rattle.std.specs.Prelude.{◌≡◌};
    ghost use Rattle.lock_reader.specs.declared.fault.LockFault.TheVariants as fault;

    ghost from_gives = { λ _ r. r ≡ fault.OutOfMemory };

    fn from(_: AllocFailed<T>) -> LockFault {
        LockFault::OutOfMemory
    }
}

/// The fault that something has the wrong shape at a place.
pub(crate) fn wrong_shape(alloc: Global, place: &str) -> LockFault
    ensures { (result ≡ LockFault.OutOfMemory) ⊎ (result ≡ LockFault.Shape place.now) }
{
    match Text::of(alloc, place) {
        Ok(place) => LockFault::Shape { place },
        Err(_) => LockFault::OutOfMemory,
    }
}
