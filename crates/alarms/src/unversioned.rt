//! Installed packages whose version can't be told.
ghost use Rattle.std.specs.Prelude.{◌≡◌, IfOk, is_some};
ghost use Rattle.alarms.specs.Alarms as specs_of;
ghost use Rattle.alarms.specs.Versions.{version_of as version_in_entry};

use crate::packages::ByPackage;
use crate::version::version_of;
use advisory_reader::Advisory;
use jam_base::{OutOfMemory, Text};
use lock_reader::{Lock, LockEntry};
use std::alloc::Global;

// Whether the package has a version.
fn has_version(alloc: Global, entry: &LockEntry) -> Result<bool, OutOfMemory>
    ensures { IfOk result (λ has. has ≡ is_some (version_in_entry entry.now)) }
{
    let version = version_of(alloc, entry)?;
    Ok(version.is_some())
}

// Whether the package has the name of an advisory's package.
fn is_advised(advisories: &ByPackage<'_>, entry: &LockEntry) -> bool
    ensures { result ≡ specs_of.is_advised advisories.now entry.now }
{
    advisories.has(entry.name.as_str())
}

// Whether the package has the name of an advisory's package, and no version.
fn lacks_version(
    alloc: Global,
    advisories: &ByPackage<'_>,
    entry: &LockEntry,
) -> Result<bool, OutOfMemory>
    ensures { IfOk result (λ lacks. lacks ≡ specs_of.lacks_version advisories.now entry.now) }
{
    let has = has_version(alloc, entry)?;
    Ok(!has && is_advised(advisories, entry))
}

/// The locations of the installed packages that have the name of an advisory's package and no version, in
/// their order.
pub fn locations_without_version(
    alloc: Global,
    lock: &Lock,
    advisories: &[Advisory],
) -> Result<Vec<Text>, OutOfMemory>
    ensures { IfOk result (λ made. made.items ≡ specs_of.unversioned advisories.now lock.now.entries) }
{
    let by_package = ByPackage::of(alloc, advisories)?;
    let mut locations = Vec::new(alloc);
    for entry in lock.entries.as_slice() {
        if lacks_version(alloc, &by_package, entry)? {
            locations.push(entry.location.copy(alloc)?)?;
        }
    }
    Ok(locations)
}
