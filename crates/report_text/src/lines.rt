//! A report as lines of text.
ghost use Rattle.std.specs.Prelude.{◌≡◌, ◌++◌, IfOk, OnOk, flat_map, string_bytes};
ghost use Rattle.std.specs.Fmt.{decimal};
ghost use Rattle.report_text.specs.Reports as reports;

use crate::escape::push_escaped;
use crate::graph::{push_place, push_step};
use crate::report::{Alarm, Counts, LineColumn, Note, Report};
use crate::shown::{PathStep, Shown};
use jam_base::{OutOfMemory, Text};
use std::alloc::{AllocError, Global};

/// The report as text: a line `alarm ID PACKAGE VERSION PATH:LINE:COLUMN NAME` for each alarm, with a line
/// for each call of its path behind it; a line `note PATH:LINE:COLUMN TEXT`, or `note LOCATION TEXT`, for
/// each note; and the counts. Each line is ended by a line feed, and texts are `escaped`.
pub fn text(alloc: Global, report: &Report) -> Result<Text, OutOfMemory>
    ensures { IfOk result (λ made. made ≡ reports.report_of report.now) }
{
    let mut out = String::new(alloc);
    push_alarms(&mut out, report.alarms.as_slice())?;
    push_notes(&mut out, report.notes.as_slice())?;
    push_counts(&mut out, &report.counts)?;
    Ok(Text::from_string(out))
}

fn push_alarms(out: &mut String, alarms: &[Alarm]) -> Result<(), AllocError>
    ensures { OnOk result (string_bytes out.new ≡ string_bytes out.old ++ flat_map reports.alarm_text alarms.now) }
{
    for alarm in alarms {
        push_alarm(out, alarm)?;
    }
    Ok(())
}

fn push_alarm(out: &mut String, alarm: &Alarm) -> Result<(), AllocError>
    ensures { OnOk result (string_bytes out.new ≡ string_bytes out.old ++ reports.alarm_text alarm.now) }
{
    out.push_str("alarm ")?;
    push_escaped(out, alarm.id.as_str())?;
    out.push(' ')?;
    push_escaped(out, alarm.package.as_str())?;
    out.push(' ')?;
    push_escaped(out, alarm.version.as_str())?;
    out.push(' ')?;
    push_function(out, &alarm.function)?;
    out.push('\n')?;
    push_path(out, alarm.path.as_slice())
}

fn push_function(out: &mut String, function: &Shown) -> Result<(), AllocError>
    ensures { OnOk result (string_bytes out.new ≡ string_bytes out.old ++ reports.function_text function.now) }
{
    push_place(out, function.path.as_str(), function.line, function.column)?;
    out.push(' ')?;
    push_escaped(out, function.name.as_str())
}

fn push_path(out: &mut String, path: &[PathStep]) -> Result<(), AllocError>
    ensures { OnOk result (string_bytes out.new ≡ string_bytes out.old ++ flat_map reports.path_line path.now) }
{
    for step in path {
        push_path_line(out, step)?;
    }
    Ok(())
}

fn push_path_line(out: &mut String, step: &PathStep) -> Result<(), AllocError>
    ensures { OnOk result (string_bytes out.new ≡ string_bytes out.old ++ reports.path_line step.now) }
{
    out.push_str("  ")?;
    push_step(out, step)?;
    out.push('\n')?;
    Ok(())
}

fn push_notes(out: &mut String, notes: &[Note]) -> Result<(), AllocError>
    ensures { OnOk result (string_bytes out.new ≡ string_bytes out.old ++ flat_map reports.note_text notes.now) }
{
    for note in notes {
        push_note(out, note)?;
    }
    Ok(())
}

fn push_note(out: &mut String, note: &Note) -> Result<(), AllocError>
    ensures { OnOk result (string_bytes out.new ≡ string_bytes out.old ++ reports.note_text note.now) }
{
    out.push_str("note ")?;
    push_noted_at(out, note.path.as_str(), note.place)?;
    out.push(' ')?;
    push_escaped(out, note.text.as_str())?;
    out.push('\n')?;
    Ok(())
}

fn push_noted_at(out: &mut String, path: &str, place: Option<LineColumn>) -> Result<(), AllocError>
    ensures { OnOk result (string_bytes out.new ≡ string_bytes out.old ++ reports.noted_at path.now place) }
{
    match place {
        Some(at) => push_place(out, path, at.line, at.column),
        None => push_escaped(out, path),
    }
}

fn push_counts(out: &mut String, counts: &Counts) -> Result<(), AllocError>
    ensures { OnOk result (string_bytes out.new ≡ string_bytes out.old ++ reports.counts_text counts.now) }
{
    push_count(out, "modules ", counts.modules)?;
    push_count(out, ", functions ", counts.functions)?;
    push_count(out, ", reachable ", counts.reachable)?;
    push_count(out, ", edges ", counts.edges)?;
    push_count(out, ", alarms ", counts.alarms)?;
    push_count(out, ", notes ", counts.notes)?;
    out.push('\n')?;
    Ok(())
}

fn push_count(out: &mut String, before: &str, count: u64) -> Result<(), AllocError>
    ensures { OnOk result (string_bytes out.new ≡ string_bytes out.old ++ before.now ++ decimal count) }
{
    write!(out, "{before}{count}")
}
