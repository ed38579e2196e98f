//! Versions of installed packages.
ghost use Rattle.std.specs.Prelude.{◌≡◌, IfOk};
ghost use Rattle.std.specs.Option.{option_map};
ghost use Rattle.semver.specs.Identifiers.{parts_of};
ghost use Rattle.alarms.specs.Versions as versions;

use jam_base::OutOfMemory;
use lock_reader::LockEntry;
use semver::Version;
use std::alloc::{AllocError, Global};

// The version that a text spells, if it spells one.
fn version_in(alloc: Global, text: &str) -> Result<Option<Version>, OutOfMemory>
    ensures { IfOk result (λ found. option_map parts_of found ≡ versions.version_in text.now) }
{
    match Version::parse(alloc, text) {
        Ok(version) => Ok(Some(version)),
        Err(error) if error == semver::Error::from(AllocError) => Err(OutOfMemory),
        Err(_) => Ok(None),
    }
}

/// The version of an installed package, where the lockfile gives one and it is one.
pub(crate) fn version_of(alloc: Global, entry: &LockEntry) -> Result<Option<Version>, OutOfMemory>
    ensures { IfOk result (λ found. option_map parts_of found ≡ versions.version_of entry.now) }
{
    match &entry.version {
        Some(text) => version_in(alloc, text.as_str()),
        None => Ok(None),
    }
}
