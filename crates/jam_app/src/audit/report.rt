//! The report of an application.
ghost use Rattle.std.specs.Prelude.{◌≡◌, ◌<◌, ◌≤◌, List, All, Contains, IfErr, IfOk, OnOk, length, map};
ghost use Rattle.jam_base.specs.Files.{Files};
ghost use Rattle.flow_rules.specs.Rules.{KeepsRules};
ghost use Rattle.composer.specs.declared.application.Link.{Link as AnyLink};
ghost use Rattle.composer.specs.Edges.{IsEdgeList};
ghost use Rattle.composer.specs.Graphs.{function_count};
ghost use Rattle.composer.specs.Parts.{AreLinks, lists_of};
ghost use Rattle.composer.specs.Sizes.{made_size, size_limit};
ghost use Rattle.lock_reader.specs.Lock.{IsAscending};
ghost use Rattle.jam_app.specs.AuditFiles.{HasAdvisories, HasLock};
ghost use Rattle.jam_app.specs.Audits.{IsReport, is_alarmed, written};
ghost use Rattle.jam_app.specs.Entries.{begun};
ghost use Rattle.jam_app.specs.Loading.{IsAnalysed, IsWhole, loaded_size};
ghost use Rattle.word_reader.specs.Requests.{Asked};
ghost use Rattle.jam_app.specs.Rounds.{Ascend};
ghost use Rattle.jam_app.specs.Showing.{IsGraphReport, function_counts};
ghost use Rattle.jam_app.specs.Stops.{StopsWide};

use crate::Stop;
use crate::answers::edges::printed_modules;
use crate::answers::printed::Printed;
use crate::audit::notes::notes_of;
use crate::audit::showing::{Sources, shown_alarms};
use crate::loading::links::{links_of, place_of_loaded};
use crate::loading::loaded::Application;
use crate::loading::parts::{composed, parts_of};
use advisory_reader::Advisory;
use alarms::alarms;
use composer::{Graph, Part};
use jam_base::{List, OutOfMemory, Text};
use lock_reader::Lock;
use reach_path::reach;
use report_text::{Counts, Note, Report, json, text};
use std::alloc::Global;

/// A report that is to be written, and whether it has an alarm.
#[derive(Debug, Drop)]
pub(crate) struct Output {
    pub(crate) text: Text,
    pub(crate) alarmed: bool,
}

/// The report of an application over its lockfile and the advisories.
pub(crate) fn report_of(
    alloc: Global,
    lock: &Lock,
    advisories: &[Advisory],
    application: Application,
) -> Result<Report, Stop>
    requires ascending { IsAscending lock.now.entries }
    requires sorted { Ascend (map (λ l. l.path) application.modules.items) }
    requires few { length application.modules.items ≤ 4294967295 }
    requires there { Contains (map (λ l. l.path) application.modules.items) application.entry }
    requires analysed { All IsAnalysed application.modules.items }
    ensures report { IfOk result (λ report. (asked : Asked) (files : Files) → HasLock files lock.now.entries → HasAdvisories files asked.operand advisories.now
        → IsWhole (begun asked.entry asked.skip_refused) files application.entry application.modules.items → IsReport asked files report) }
    ensures narrow { IfOk result (λ report. loaded_size application.modules.items < size_limit) }
    ensures wide { IfErr result (StopsWide (loaded_size application.modules.items)) }
{
    let Application { entry, modules } = application;
    let links = links_of(alloc, modules.as_slice())?;
    let printed = printed_modules(alloc, modules.as_slice())?;
    let notes = notes_of(
        alloc,
        lock,
        advisories,
        modules.as_slice(),
        printed.as_slice(),
    )?;
    let entry = place_of_loaded(modules.as_slice(), &entry);
    let parts = parts_of(alloc, modules)?;
    let graph = composed(alloc, parts.as_slice(), links.as_slice())?;
    Ok(graph_report(
        alloc,
        lock,
        advisories,
        printed.as_slice(),
        notes,
        parts.as_slice(),
        &graph,
        entry,
    )?)
}

// How many functions each part has.
fn functions_of(alloc: Global, parts: &[Part]) -> Result<Vec<u32>, OutOfMemory>
    ensures counts { IfOk result (λ counts. counts.items ≡ function_counts (lists_of parts.now)) }
    ensures rules { OnOk result (All KeepsRules (lists_of parts.now)) }
{
    let mut counts = Vec::new(alloc);
    for part in parts {
        counts.push(part.summary.functions().len() as u32)?;
    }
    Ok(counts)
}

// The report over the call graph of the parts.
fn graph_report(
    alloc: Global,
    lock: &Lock,
    advisories: &[Advisory],
    printed: &[Printed],
    notes: Vec<Note>,
    parts: &[Part],
    graph: &Graph,
    entry: u32,
) -> Result<Report, OutOfMemory>
    requires ascending { IsAscending lock.now.entries }
    requires links { (links : List AnyLink) × AreLinks (lists_of parts.now) links × IsEdgeList (lists_of parts.now) links graph.now.edges }
    requires counted { graph.now.functions ≡ function_count (lists_of parts.now) }
    requires narrow { made_size parts.now < size_limit }
    requires entry { entry < length parts.now }
    ensures { IfOk result (IsGraphReport lock.now.entries advisories.now printed.now parts.now graph.now.edges entry notes.items) }
{
    let functions = functions_of(alloc, parts)?;
    let edges = graph.edges();
    let reach = reach(alloc, functions.as_slice(), edges, entry)?;
    let found = alarms(alloc, lock, advisories, parts, &reach)?;
    let sources = Sources {
        lock,
        advisories,
        printed,
        edges,
        reach: &reach,
    };
    let alarms = shown_alarms(alloc, &sources, found.as_slice())?;
    let counts = Counts {
        modules: parts.len() as u64,
        functions: graph.functions() as u64,
        reachable: reach.count() as u64,
        edges: edges.len() as u64,
        alarms: alarms.len() as u64,
        notes: notes.len() as u64,
    };
    Ok(Report {
        alarms: List::of(alarms),
        notes: List::of(notes),
        counts,
    })
}

/// The report in its format.
pub(crate) fn written_report(
    alloc: Global,
    report: &Report,
    as_json: bool,
) -> Result<Output, OutOfMemory>
    ensures text { IfOk result (λ made. made.text ≡ written as_json report.now) }
    ensures alarmed { IfOk result (λ made. made.alarmed ≡ is_alarmed report.now.alarms) }
{
    let made = if as_json {
        json(alloc, report)?
    } else {
        text(alloc, report)?
    };
    Ok(Output {
        text: made,
        alarmed: !report.alarms.as_slice().is_empty(),
    })
}
