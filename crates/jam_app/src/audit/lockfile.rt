//! The lockfile of the application.
ghost use Rattle.std.specs.Prelude.{◌≡◌, Ok, IfErr, IfOk, IfSome};
ghost use Rattle.std.specs.Option.{option_map};
ghost use Rattle.lock_reader.specs.Lock.{IsAscending};
ghost use Rattle.lock_reader.specs.Lock.{lock_of as read_of};
ghost use Rattle.jam_app.specs.AuditFiles as audit_files;
ghost use Rattle.jam_app.specs.Lines.{IsLockName};
ghost use Rattle.jam_app.specs.Stops.{CountsFaults, Gives, StopsForBytes};

use crate::Stop;
use crate::answers::file_message::{no_lock, wrong_lock};
use crate::audit::named::file_named;
use jam_base::Folder;
use lock_reader::{Lock, read_lock};
use std::alloc::Global;

const SHRINKWRAP: &str = "npm-shrinkwrap.json";

const PACKAGE_LOCK: &str = "package-lock.json";

// A file that is to be the lockfile: its name and its bytes.
#[derive(Drop)]
struct LockFile {
    name: &'static str,
    bytes: Vec<u8>,
}

// The file `package-lock.json`, if there is one.
fn package_lock<F: Folder>(alloc: Global, folder: &mut F) -> Result<Option<LockFile>, Stop>
    ensures name { IfOk result (λ found. IfSome found (λ file. IsLockName file.name.now)) }
    ensures gives { Gives (λ m found. option_map audit_files.lock_pair found ≡ audit_files.package_lock m)
        (λ m owed. ⊥) (F.files folder.old) (F.faults folder.old) (F.faults folder.new) result }
    ensures same { F.files folder.new ≡ F.files folder.old }
    ensures counts { CountsFaults (F.faults folder.old) (F.faults folder.new) result }
{
    let found = file_named(alloc, folder, PACKAGE_LOCK)?;
    Ok(named(PACKAGE_LOCK, found))
}

// The file of this name, if it is there.
fn named(name: &'static str, found: Option<Vec<u8>>) -> Option<LockFile>
    ensures name { IfSome result (λ file. file.name.now ≡ name.now) }
    ensures pair { option_map audit_files.lock_pair result ≡ audit_files.named name.now (option_map (λ v. v.items) found) }
{
    match found {
        Some(bytes) => Some(LockFile { name, bytes }),
        None => None,
    }
}

// The file that is to be the lockfile, if there is one: `npm-shrinkwrap.json`, else `package-lock.json`.
fn lock_file<F: Folder>(alloc: Global, folder: &mut F) -> Result<Option<LockFile>, Stop>
    ensures name { IfOk result (λ found. IfSome found (λ file. IsLockName file.name.now)) }
    ensures gives { Gives (λ m found. option_map audit_files.lock_pair found ≡ audit_files.lock_file m)
        (λ m owed. ⊥) (F.files folder.old) (F.faults folder.old) (F.faults folder.new) result }
    ensures same { F.files folder.new ≡ F.files folder.old }
    ensures counts { CountsFaults (F.faults folder.old) (F.faults folder.new) result }
{
    match file_named(alloc, folder, SHRINKWRAP)? {
        Some(bytes) => Ok(Some(LockFile {
            name: SHRINKWRAP,
            bytes,
        })),
        None => package_lock(alloc, folder),
    }
}

// The lockfile that a file is.
fn lock_in(alloc: Global, file: &LockFile) -> Result<Lock, Stop>
    requires { IsLockName file.now.name.now }
    ensures lock { IfOk result (λ lock. read_of file.now.bytes.items ≡ Ok lock.entries) }
    ensures ascending { IfOk result (λ lock. IsAscending lock.entries) }
    ensures stop { IfErr result (StopsForBytes file.now.bytes.items) }
{
    match read_lock(alloc, file.bytes.as_slice()) {
        Ok(lock) => Ok(lock),
        Err(fault) => Err(wrong_lock(alloc, file.name, fault)),
    }
}

/// The lockfile of the application.
pub(crate) fn lock_of<F: Folder>(alloc: Global, folder: &mut F) -> Result<Lock, Stop>
    ensures gives { Gives (λ m lock. audit_files.HasLock m lock.entries) audit_files.IsLockRefusal
        (F.files folder.old) (F.faults folder.old) (F.faults folder.new) result }
    ensures ascending { IfOk result (λ lock. IsAscending lock.entries) }
    ensures same { F.files folder.new ≡ F.files folder.old }
    ensures counts { CountsFaults (F.faults folder.old) (F.faults folder.new) result }
{
    match lock_file(alloc, folder)? {
        Some(file) => lock_in(alloc, &file),
        None => Err(no_lock()),
    }
}
