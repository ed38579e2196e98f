//! The call graph of an application, as text.
ghost use Rattle.std.specs.Prelude.{◌≡◌, false, IfOk};
ghost use Rattle.word_reader.specs.declared.table.Command.TheVariants as command;
ghost use Rattle.jam_app.specs.Refusals.{IsRefusal};
ghost use Rattle.jam_app.specs.Stops.{CountsFaults, Gives, IsOwed};

use crate::Stop;
use crate::answers::edges::printed_edges;
use crate::audit::report::Output;
use crate::loading::rounds::load;
use jam_base::{Folder, Steps};
use std::alloc::Global;
use std::sync::ledger::Ledger;
use word_reader::Request;

/// What `graph` owes: the call edges of the application of its operand.
pub(crate) fn graph<F: Folder, L: Ledger>(
    alloc: Global,
    folder: &mut F,
    request: &Request<'_>,
    steps: &mut Steps<L>,
) -> Result<Output, Stop>
    requires { request.now.command ≡ command.Graph }
    ensures gives { Gives (λ m made. IsOwed request.now m made) (IsRefusal request.now)
        (F.files folder.old) (F.faults folder.old) (F.faults folder.new) result }
    ensures unalarmed { IfOk result (λ made. made.alarmed ≡ false) }
    ensures same { F.files folder.new ≡ F.files folder.old }
    ensures counts { CountsFaults (F.faults folder.old) (F.faults folder.new) result }
{
    let application = load(
        alloc,
        folder,
        request.start(),
        request.skips_refused(),
        steps,
    )?;
    let text = printed_edges(alloc, application.modules)?;
    Ok(Output {
        text,
        alarmed: false,
    })
}
