//! A report as JSON.
ghost use Rattle.std.specs.Prelude.{◌≡◌, ◌++◌, ◌∷◌, [], IfOk, OnOk, map};
ghost use Rattle.serde_json.specs.Data.{array};
ghost use Rattle.serde_json.specs.View.{items_of, items_view, view};
ghost use Rattle.report_text.specs.Json as data_of;

use crate::report::{Alarm, Counts, Note, Report};
use crate::shown::{PathStep, Shown};
use jam_base::{OutOfMemory, Text};
use serde_json::{Value, json as value_of};
use std::alloc::{AllocError, Global};

/// The report as the compact text of one JSON value, with the keys in the order of their bytes, and a line
/// feed. Texts are as they were taken, with JSON's own escapes.
pub fn json(alloc: Global, report: &Report) -> Result<Text, OutOfMemory>
    ensures { IfOk result (λ made. made ≡ data_of.report_json_of report.now) }
{
    let value = report_value(alloc, report)?;
    let mut out = value.to_string(alloc)?;
    out.push('\n')?;
    Ok(Text::from_string(out))
}

fn report_value(alloc: Global, report: &Report) -> Result<Value, AllocError>
    ensures { IfOk result (λ v. view v ≡ data_of.report_data report.now) }
{
    let alarms = alarm_values(alloc, report.alarms.as_slice())?;
    let notes = note_values(alloc, report.notes.as_slice())?;
    let counts = counts_value(alloc, &report.counts)?;
    value_of!(in alloc; {"alarms": alarms, "notes": notes, "summary": counts})
}

fn alarm_values(alloc: Global, alarms: &[Alarm]) -> Result<Vec<Value>, AllocError>
    ensures { IfOk result (λ values. map view values.items ≡ map data_of.alarm_data alarms.now) }
{
    let mut values = Vec::new(alloc);
    for alarm in alarms {
        values.push(alarm_value(alloc, alarm)?)?;
    }
    Ok(values)
}

fn alarm_value(alloc: Global, alarm: &Alarm) -> Result<Value, AllocError>
    ensures { IfOk result (λ v. view v ≡ data_of.alarm_data alarm.now) }
{
    let function = function_value(alloc, &alarm.function)?;
    let path = step_values(alloc, alarm.path.as_slice())?;
    let id = alarm.id.as_str();
    let package = alarm.package.as_str();
    let version = alarm.version.as_str();
    value_of!(in alloc; {
        "function": function,
        "id": id,
        "package": package,
        "path": path,
        "version": version
    })
}

fn step_values(alloc: Global, path: &[PathStep]) -> Result<Vec<Value>, AllocError>
    ensures { IfOk result (λ values. map view values.items ≡ map data_of.step_data path.now) }
{
    let mut values = Vec::new(alloc);
    for step in path {
        values.push(step_value(alloc, step)?)?;
    }
    Ok(values)
}

fn step_value(alloc: Global, step: &PathStep) -> Result<Value, AllocError>
    ensures { IfOk result (λ v. view v ≡ data_of.step_data step.now) }
{
    let callee = function_value(alloc, &step.callee)?;
    let path = step.path.as_str();
    value_of!(in alloc; {"callee": callee, "column": step.column, "line": step.line, "path": path})
}

fn function_value(alloc: Global, function: &Shown) -> Result<Value, AllocError>
    ensures { IfOk result (λ v. view v ≡ data_of.function_data function.now) }
{
    let name = function.name.as_str();
    let path = function.path.as_str();
    value_of!(in alloc; {
        "column": function.column,
        "line": function.line,
        "name": name,
        "path": path
    })
}

fn note_values(alloc: Global, notes: &[Note]) -> Result<Vec<Value>, AllocError>
    ensures { IfOk result (λ values. map view values.items ≡ map data_of.note_data notes.now) }
{
    let mut values = Vec::new(alloc);
    for note in notes {
        values.push(note_value(alloc, note)?)?;
    }
    Ok(values)
}

fn note_value(alloc: Global, note: &Note) -> Result<Value, AllocError>
    ensures { IfOk result (λ v. view v ≡ data_of.note_data note.now) }
{
    let path = note.path.as_str();
    let text = note.text.as_str();
    match note.place {
        Some(at) => {
            value_of!(in alloc; {"column": at.column, "line": at.line, "path": path, "text": text})
        }
        None => value_of!(in alloc; {"column": null, "line": null, "path": path, "text": text}),
    }
}

fn counts_value(alloc: Global, counts: &Counts) -> Result<Value, AllocError>
    ensures { IfOk result (λ v. view v ≡ data_of.counts_data counts.now) }
{
    value_of!(in alloc; {
        "alarms": counts.alarms,
        "edges": counts.edges,
        "functions": counts.functions,
        "modules": counts.modules,
        "notes": counts.notes,
        "reachable": counts.reachable
    })
}
