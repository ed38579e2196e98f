//! Why bytes are no list of advisories.
use jam_base::OutOfMemory;
use std::alloc::{AllocError, AllocFailed};
use thiserror::Error;

/// A member of an advisory.
#[derive(Clone, Copy, Debug, PartialEq, Eq, Error)]
pub enum Field {
    /// `id`: a text that isn't empty. An item that is no object fails here.
    #[error("id")]
    Id,
    /// `package`: a text that isn't empty.
    #[error("package")]
    Package,
    /// `range`: a text.
    #[error("range")]
    Range,
    /// `functions`: an array of objects with the texts `file` and `name`.
    #[error("functions")]
    Functions,
}

/// Why `read_advisories` gives no list. The first fault is the one that is told: first by index, then in
/// the order of `Field`, where a range that can't be read comes after one that is no text.
#[derive(Clone, Copy, Debug, PartialEq, Eq, Error)]
pub enum AdvisoryFault {
    /// The bytes are no JSON text.
    #[error("not JSON")]
    NotJson,
    /// The file is no object with an array `advisories`.
    #[error("wrong shape")]
    Shape,
    /// A member of the advisory at this index, from 0, is missing or isn't what it must be.
    #[error("advisory {index}: {field}")]
    Field { index: u32, field: Field },
    /// The range of the advisory at this index, from 0, has its first bad piece at this offset, in bytes
    /// from 0.
    #[error("advisory {index}: range at {at}")]
    Range { index: u32, at: u32 },
    /// There is not enough memory, or the fault is at an index from 4,294,967,296 on.
    #[error("out of memory")]
    OutOfMemory,
}

impl From<OutOfMemory> for AdvisoryFault {
    ghost use Rattle.std.specs.Prelude.{◌≡◌};
    ghost use Rattle.advisory_reader.specs.declared.fault.AdvisoryFault.TheVariants as fault;

    ghost from_gives = { λ _ r. r ≡ fault.OutOfMemory };

    fn from(_: OutOfMemory) -> AdvisoryFault {
        AdvisoryFault::OutOfMemory
    }
}

impl From<AllocError> for AdvisoryFault {
    ghost use Rattle.std.specs.Prelude.{◌≡◌};
    ghost use Rattle.advisory_reader.specs.declared.fault.AdvisoryFault.TheVariants as fault;

    ghost from_gives = { λ _ r. r ≡ fault.OutOfMemory };

    fn from(_: AllocError) -> AdvisoryFault {
        AdvisoryFault::OutOfMemory
    }
}

impl<T: Drop> From<AllocFailed<T>> for AdvisoryFault {
    ghost use Rattle.std.specs.Prelude.{◌≡◌};
    ghost use Rattle.advisory_reader.specs.declared.fault.AdvisoryFault.TheVariants as fault;

    ghost from_gives = { λ _ r. r ≡ fault.OutOfMemory };

    fn from(_: AllocFailed<T>) -> AdvisoryFault {
        AdvisoryFault::OutOfMemory
    }
}
