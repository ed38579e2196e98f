//! Reading a lockfile.
ghost use Rattle.std.specs.Prelude.{◌≡◌, ◌⊎◌, Ok, Err, IfOk, IfErr};
ghost use Rattle.std.specs.Option.{option_map};
ghost use Rattle.serde_json.specs.View.{members_view, view};
ghost use Rattle.lock_reader.specs.Lock.{IsAscending, lock_in, lock_of, packages_of as packages_in, version_of as version_in};
ghost use Rattle.lock_reader.specs.declared.fault.LockFault.TheVariants as fault;

use crate::entries::read_entries;
use crate::fault::{LockFault, wrong_shape};
use crate::lock::Lock;
use jam_base::List;
use json_value::read_value;
use serde_json::{Map, Value};
use std::alloc::Global;

/// The version of the file's format.
#[tactic(auto, unfolding(crate::specs::Lock::version_of))]
fn version_of(value: &Value) -> Option<u64>
    ensures { result ≡ version_in (view value.now) }
{
    match value.get("lockfileVersion") {
        Some(member) => member.as_u64(),
        None => None,
    }
}

/// The members of `packages`.
#[tactic(auto, unfolding(crate::specs::Lock::packages_of))]
fn packages_of(value: &Value) -> Option<&Map<String, Value>>
    ensures { option_map (λ m. members_view m.now.entries) result ≡ packages_in (view value.now) }
{
    match value.get("packages") {
        Some(member) => member.as_object(),
        None => None,
    }
}

/// The lockfile that a value describes.
#[tactic(auto, unfolding(crate::specs::Lock::lock_in))]
fn read_lock_in(alloc: Global, value: &Value) -> Result<Lock, LockFault>
    ensures lock { IfOk result (λ lock. lock_in (view value.now) ≡ Ok lock.entries) }
    ensures ascending { IfOk result (λ lock. IsAscending lock.entries) }
    ensures fault { IfErr result (λ f. (f ≡ fault.OutOfMemory) ⊎ (lock_in (view value.now) ≡ Err f)) }
{
    if !value.is_object() {
        return Err(wrong_shape(alloc, ""));
    }
    let Some(found) = version_of(value) else {
        return Err(wrong_shape(alloc, "lockfileVersion"));
    };
    if found != 2 && found != 3 {
        return Err(LockFault::Version { found });
    }
    let Some(packages) = packages_of(value) else {
        return Err(wrong_shape(alloc, "packages"));
    };
    Ok(Lock {
        entries: List::of(read_entries(alloc, packages)?),
    })
}

/// Reads a `package-lock.json` with `lockfileVersion` 2 or 3 (npm manual, "package-lock.json"). Its
/// entries are the members of `packages`; of equal locations the last counts. Each has its location,
/// its `name` (else what stands after the last `node_modules/` of the location, else the empty name)
/// and its `version`, where there is one. Everything else in the file is passed over.
///
/// Fails with `NotJson`, `Shape` or `Version`, in this order, where the bytes are no such file, and
/// with `OutOfMemory`.
pub fn read_lock(alloc: Global, bytes: &[u8]) -> Result<Lock, LockFault>
    ensures lock { IfOk result (λ lock. lock_of bytes.now ≡ Ok lock.entries) }
    ensures ascending { IfOk result (λ lock. IsAscending lock.entries) }
    ensures fault { IfErr result (λ f. (f ≡ fault.OutOfMemory) ⊎ (lock_of bytes.now ≡ Err f)) }
{
    match read_value(alloc, bytes)? {
        Some(value) => read_lock_in(alloc, &value),
        None => Err(LockFault::NotJson),
    }
}
