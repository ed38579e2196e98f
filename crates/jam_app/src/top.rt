//! The top call.
ghost use Rattle.std.specs.Prelude.{◌≡◌, ◌≢◌, ◌≤◌, ◌↔◌, ℕ, List, true, IfOk, Some, None};
ghost use Rattle.jam_base.specs.Causes.{Rose};
ghost use Rattle.jam_app.specs.Lines.{IsTold, TellsStatus};
ghost use Rattle.word_reader.specs.declared.table.Command.TheVariants as command;
ghost use Rattle.word_reader.specs.Requests.{canonical_request as asked_of};
ghost use Rattle.jam_app.specs.Outcomes.{IsAudit, WhereTold, RefusesRightly, RefusesAlways, Completes, WritesOut, Writes, done_status};
ghost use Rattle.jam_app.specs.Refusals.{IsRefusal};
ghost use Rattle.jam_app.specs.Stops.{CountsFaults, Gives, IsOwed};
ghost use Rattle.jam_app.specs.Written.{TakesAll, TakesFront};

use crate::answers::line::Line;
use crate::answers::write::write_all;
use crate::audit::report::Output;
use crate::commands::audit::audit;
use crate::commands::graph::graph;
use crate::{Status, Stop};
use jam_base::{Folder, Gate, Keeper, Sink, Steps, Text};
use std::alloc::Global;
use std::marker::Sync;
use std::sync::ledger::Ledger;
use std::thread::Threads;
use word_reader::{Command, Request, help_text, request_of};

/// Does all that the program does, and answers how it ended.
///
/// The words are those of the command line without the program's name (`request_of`). The report or the
/// call graph goes to `out`, and a line that says why there is none goes to `err` (`docs/FORMATS.md`); for
/// other words `err` takes the help text. A run always returns. What it answers and writes is settled
/// before `err` is called, so a failing `err` changes nothing else. The gate isn't passed.
pub fn run<R: Threads + Sync, F: Folder, K: Keeper, O: Sink, E: Sink, G: Gate, L: Ledger>(
    rt: &R,
    alloc: Global,
    words: &[Text],
    folder: &mut F,
    keeper: &mut K,
    out: &mut O,
    err: &mut E,
    gate: &G,
    steps: &mut Steps<L>,
) -> Status
    // The cause of each status.
    ensures usage { (result ≡ Status.Usage) ↔ (asked_of words.now ≡ None) }
    ensures read_fault { result ≡ Status.ReadFault → Rose (F.faults folder.old) (F.faults folder.new) }
    ensures write_fault { result ≡ Status.WriteFault → Rose (O.faults out.old) (O.faults out.new) }
    ensures alarms { result ≡ Status.Alarms → IsAudit (asked_of words.now) }
    ensures refuses_rightly { WhereTold (asked_of words.now) (F.files folder.old) (RefusesRightly result) }

    // A fault is answered, and ends the work.
    ensures no_read_fault { result ≢ Status.ReadFault → F.faults folder.new ≡ F.faults folder.old }
    ensures no_write_fault { result ≢ Status.WriteFault → O.faults out.new ≡ O.faults out.old }

    // What is owed is answered.
    ensures refuses_always { WhereTold (asked_of words.now) (F.files folder.old) (RefusesAlways result) }
    ensures completes { WhereTold (asked_of words.now) (F.files folder.old) (Completes result) }

    // What stands after each status.
    ensures out { WritesOut (asked_of words.now) (F.files folder.old) (O.taken out.old) (O.taken out.new) result }
    ensures folder { F.files folder.new ≡ F.files folder.old }
    ensures keeper { keeper.new ≡ keeper.old }
    ensures usage_out { result ≡ Status.Usage → (folder.new ≡ folder.old) × (out.new ≡ out.old) }
    ensures clean_err { result ≡ Status.Clean → err.new ≡ err.old }
    ensures alarms_err { result ≡ Status.Alarms → err.new ≡ err.old }
    ensures err { IsTold (TakesFront (E.taken err.old) (E.taken err.new)) result }

    // Counts of faults never fall.
    ensures folder_later { F.faults folder.old ≤ F.faults folder.new }
    ensures keeper_later { K.faults keeper.old ≤ K.faults keeper.new }
    ensures out_later { O.faults out.old ≤ O.faults out.new }
    ensures err_later { E.faults err.old ≤ E.faults err.new }
{
    let Some(request) = request_of(words) else {
        write_help(alloc, err);
        return Status::Usage;
    };
    let answer = answered(alloc, folder, out, &request, steps);
    answer.line.write(err);
    answer.status
}

// Writes the help text, where there is memory for it.
fn write_help<E: Sink>(alloc: Global, err: &mut E)
    ensures front { (text : List ℕ) × TakesFront (E.taken err.old) (E.taken err.new) text }
    ensures later { E.faults err.old ≤ E.faults err.new }
{
    Line::of(help_text(alloc)).write(err);
}

// How a run ends: its status, and the line for the error output.
#[derive(Drop)]
struct Answer {
    status: Status,
    line: Line,
}

// Reads, works and writes.
fn answered<F: Folder, O: Sink, L: Ledger>(
    alloc: Global,
    folder: &mut F,
    out: &mut O,
    request: &Request<'_>,
    steps: &mut Steps<L>,
) -> Answer
    ensures usage { result.status ≢ Status.Usage }
    ensures read_fault { result.status ≡ Status.ReadFault → Rose (F.faults folder.old) (F.faults folder.new) }
    ensures write_fault { result.status ≡ Status.WriteFault → Rose (O.faults out.old) (O.faults out.new) }
    ensures alarms { result.status ≡ Status.Alarms → request.now.command ≡ command.Audit }
    ensures refuses_rightly { WhereTold (Some request.now) (F.files folder.old) (RefusesRightly result.status) }
    ensures no_read_fault { result.status ≢ Status.ReadFault → F.faults folder.new ≡ F.faults folder.old }
    ensures no_write_fault { result.status ≢ Status.WriteFault → O.faults out.new ≡ O.faults out.old }
    ensures refuses_always { WhereTold (Some request.now) (F.files folder.old) (RefusesAlways result.status) }
    ensures completes { WhereTold (Some request.now) (F.files folder.old) (Completes result.status) }
    ensures out { WritesOut (Some request.now) (F.files folder.old) (O.taken out.old) (O.taken out.new) result.status }
    ensures folder { F.files folder.new ≡ F.files folder.old }
    ensures line { TellsStatus result.status result.line }
    ensures folder_later { F.faults folder.old ≤ F.faults folder.new }
    ensures out_later { O.faults out.old ≤ O.faults out.new }
{
    match output_of(alloc, folder, request, steps) {
        Ok(output) => written(out, &output),
        Err(Stop::ReadFault) => Answer {
            status: Status::ReadFault,
            line: Line::Fixed("jam: read failed\n"),
        },
        Err(Stop::OutOfMemory) => Answer {
            status: Status::NoMemory,
            line: Line::Fixed("jam: out of memory\n"),
        },
        Err(Stop::Refused(refusal, line)) => Answer {
            status: Status::Refused(refusal),
            line,
        },
    }
}

// What the request is to write.
fn output_of<F: Folder, L: Ledger>(
    alloc: Global,
    folder: &mut F,
    request: &Request<'_>,
    steps: &mut Steps<L>,
) -> Result<Output, Stop>
    ensures gives { Gives (λ m made. IsOwed request.now m made) (IsRefusal request.now)
        (F.files folder.old) (F.faults folder.old) (F.faults folder.new) result }
    ensures alarmed { IfOk result (λ made. made.alarmed ≡ true → request.now.command ≡ command.Audit) }
    ensures same { F.files folder.new ≡ F.files folder.old }
    ensures counts { CountsFaults (F.faults folder.old) (F.faults folder.new) result }
{
    match request.command() {
        Command::Audit => audit(alloc, folder, request, steps),
        Command::Graph => graph(alloc, folder, request, steps),
    }
}

// Writes what is owed.
fn written<O: Sink>(out: &mut O, output: &Output) -> Answer
    ensures writes { Writes (O.taken out.old) (O.taken out.new) (O.faults out.old) (O.faults out.new) output.now result.status }
    ensures line { TellsStatus result.status result.line }
    ensures later { O.faults out.old ≤ O.faults out.new }
{
    match write_all(out, output.text.as_str().as_bytes()) {
        Ok(()) => Answer {
            status: done(output.alarmed),
            line: Line::Nothing,
        },
        Err(_) => Answer {
            status: Status::WriteFault,
            line: Line::Fixed("jam: write failed\n"),
        },
    }
}

// The status after the work is done.
fn done(alarmed: bool) -> Status
    ensures { result ≡ done_status alarmed }
{
    if alarmed {
        Status::Alarms
    } else {
        Status::Clean
    }
}

/// What the program answers where there is no memory for its words: it writes the line on `err`.
pub fn ended_without_words<E: Sink>(err: &mut E) -> Status
    ensures status { result ≡ Status.NoMemory }
    ensures err { IsTold (TakesFront (E.taken err.old) (E.taken err.new)) result }
    ensures all { (Rose (E.faults err.old) (E.faults err.new) → ⊥) → IsTold (TakesAll (E.taken err.old) (E.taken err.new)) result }
    ensures later { E.faults err.old ≤ E.faults err.new }
{
    Line::Fixed("jam: out of memory\n").write(err);
    Status::NoMemory
}
