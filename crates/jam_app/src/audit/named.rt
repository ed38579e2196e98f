//! Files that are asked for by name.
ghost use Rattle.std.specs.Prelude.{◌≡◌};
ghost use Rattle.std.specs.Option.{option_map};
ghost use Rattle.jam_app.specs.AuditFiles as audit_files;
ghost use Rattle.jam_app.specs.Stops.{CountsFaults, Gives};

use crate::Stop;
use crate::loading::source::file_at;
use jam_base::{Folder, ModulePath};
use std::alloc::Global;

/// The bytes of the file that a text names in the application folder, if there is one.
pub(crate) fn file_named<F: Folder>(
    alloc: Global,
    folder: &mut F,
    name: &str,
) -> Result<Option<Vec<u8>>, Stop>
    ensures gives { Gives (λ m found. option_map (λ v. v.items) found ≡ audit_files.file_named m name.now)
        (λ m owed. ⊥) (F.files folder.old) (F.faults folder.old) (F.faults folder.new) result }
    ensures same { F.files folder.new ≡ F.files folder.old }
    ensures counts { CountsFaults (F.faults folder.old) (F.faults folder.new) result }
{
    match ModulePath::read(alloc, name)? {
        Some(path) => file_at(alloc, folder, &path),
        None => Ok(None),
    }
}
