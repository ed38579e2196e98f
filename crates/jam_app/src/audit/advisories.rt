//! The advisories.
ghost use Rattle.std.specs.Prelude.{◌≡◌, IfErr, IfOk};
ghost use Rattle.advisory_reader.specs.Advisories.{SpellsAdvisories};
ghost use Rattle.jam_app.specs.AuditFiles as audit_files;
ghost use Rattle.jam_app.specs.Stops.{CountsFaults, Gives, StopsForText};

use crate::Stop;
use crate::answers::file_message::{no_advisories, wrong_advisories};
use crate::audit::named::file_named;
use advisory_reader::{Advisory, read_advisories};
use jam_base::{Folder, List};
use std::alloc::Global;

// The advisories in these bytes.
fn advisories_in(alloc: Global, bytes: &[u8]) -> Result<List<Advisory>, Stop>
    ensures list { IfOk result (λ list. SpellsAdvisories bytes.now list) }
    ensures stop { IfErr result (StopsForText bytes.now) }
{
    match read_advisories(alloc, bytes) {
        Ok(list) => Ok(list),
        Err(fault) => Err(wrong_advisories(alloc, fault)),
    }
}

/// The advisories in the file of this name.
pub(crate) fn advisories_of<F: Folder>(
    alloc: Global,
    folder: &mut F,
    name: &str,
) -> Result<List<Advisory>, Stop>
    ensures gives { Gives (λ m list. audit_files.HasAdvisories m name.now list) (λ m owed. audit_files.IsAdvisoryRefusal m name.now owed)
        (F.files folder.old) (F.faults folder.old) (F.faults folder.new) result }
    ensures same { F.files folder.new ≡ F.files folder.old }
    ensures counts { CountsFaults (F.faults folder.old) (F.faults folder.new) result }
{
    match file_named(alloc, folder, name)? {
        Some(bytes) => advisories_in(alloc, bytes.as_slice()),
        None => Err(no_advisories()),
    }
}
