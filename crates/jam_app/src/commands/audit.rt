//! The report of an application.
ghost use Rattle.std.specs.Prelude.{◌≡◌};
ghost use Rattle.word_reader.specs.declared.table.Command.TheVariants as command;
ghost use Rattle.jam_app.specs.Refusals.{IsRefusal};
ghost use Rattle.jam_app.specs.Stops.{CountsFaults, Gives, IsOwed};

use crate::Stop;
use crate::audit::advisories::advisories_of;
use crate::audit::lockfile::lock_of;
use crate::audit::report::{Output, report_of, written_report};
use crate::loading::rounds::load;
use jam_base::{Folder, Steps};
use std::alloc::Global;
use std::sync::ledger::Ledger;
use word_reader::Request;

/// The report that `audit` owes: of the lockfile, the advisories and the application of the entry.
pub(crate) fn audit<F: Folder, L: Ledger>(
    alloc: Global,
    folder: &mut F,
    request: &Request<'_>,
    steps: &mut Steps<L>,
) -> Result<Output, Stop>
    requires { request.now.command ≡ command.Audit }
    ensures gives { Gives (λ m made. IsOwed request.now m made) (IsRefusal request.now)
        (F.files folder.old) (F.faults folder.old) (F.faults folder.new) result }
    ensures same { F.files folder.new ≡ F.files folder.old }
    ensures counts { CountsFaults (F.faults folder.old) (F.faults folder.new) result }
{
    let lock = lock_of(alloc, folder)?;
    let advisories = advisories_of(alloc, folder, request.operand())?;
    let application = load(
        alloc,
        folder,
        request.start(),
        request.skips_refused(),
        steps,
    )?;
    let report = report_of(alloc, &lock, advisories.as_slice(), application)?;
    Ok(written_report(alloc, &report, request.is_json())?)
}
