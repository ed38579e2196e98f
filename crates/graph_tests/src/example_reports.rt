//! Reports that the tests print, and their parts.
use jam_base::{List, Text};
use report_text::{Alarm, Counts, LineColumn, Note, PathStep, Report, Shown};
use std::alloc::Global;
use std::test::Fail;

// A report on `slow` of a package, which `index.js` reaches by `go`.
pub(crate) fn slow_report(alloc: Global, edges: u64) -> Result<Report, Fail> {
    let package = "node_modules/a/index.js";
    let mut path = Vec::new(alloc);
    path.push(step(
        alloc,
        "index.js",
        2,
        5,
        function(alloc, package, 2, 14, "go")?,
    )?)?;
    path.push(step(
        alloc,
        package,
        2,
        40,
        function(alloc, package, 1, 1, "slow")?,
    )?)?;
    let mut alarms = Vec::new(alloc);
    let slow = function(alloc, package, 1, 1, "slow")?;
    alarms.push(alarm(alloc, "X-1", "a", "1.1.0", slow, path)?)?;
    Ok(report_with(alarms, Vec::new(alloc), counts(2, 4, 4, edges, 1, 0)))
}

pub(crate) fn go_alarm(alloc: Global, id: &str) -> Result<Alarm, Fail> {
    let package = "node_modules/a/index.js";
    let mut path = Vec::new(alloc);
    path.push(step(
        alloc,
        "index.js",
        1,
        16,
        function(alloc, package, 1, 14, "go")?,
    )?)?;
    alarm(
        alloc,
        id,
        "a",
        "1.0.0",
        function(alloc, package, 1, 14, "go")?,
        path,
    )
}

// A report on a server with nested packages.
pub(crate) fn shop_report(alloc: Global) -> Result<Report, Fail> {
    let mut alarms = Vec::new(alloc);
    alarms.push(copy_alarm(alloc)?)?;
    alarms.push(module_alarm(alloc)?)?;
    alarms.push(merge_alarm(alloc)?)?;
    let mut notes = Vec::new(alloc);
    notes.push(note(
        alloc,
        "lib/server.js",
        Some((6, 21)),
        "not found: fast-path",
    )?)?;
    Ok(report_with(alarms, notes, counts(5, 16, 16, 16, 3, 1)))
}

fn copy_alarm(alloc: Global) -> Result<Alarm, Fail> {
    let deep = "node_modules/deep/lib/deep.js";
    let store = "node_modules/store/index.js";
    let mut path = Vec::new(alloc);
    path.push(handler_step(alloc)?)?;
    path.push(step(
        alloc,
        "lib/server.js",
        9,
        13,
        function(alloc, store, 4, 3, "Store")?,
    )?)?;
    path.push(step(alloc, store, 4, 33, function(alloc, deep, 5, 3, "copy")?)?)?;
    alarm(
        alloc,
        "A-1",
        "deep",
        "1.0.5",
        function(alloc, deep, 5, 3, "copy")?,
        path,
    )
}

fn module_alarm(alloc: Global) -> Result<Alarm, Fail> {
    let query = "node_modules/@acme/query/dist/q.js";
    let deep = "node_modules/@acme/query/node_modules/deep/index.js";
    let mut path = Vec::new(alloc);
    path.push(step(
        alloc,
        "lib/server.js",
        3,
        26,
        function(alloc, query, 1, 1, "<module>")?,
    )?)?;
    path.push(step(
        alloc,
        query,
        3,
        23,
        function(alloc, deep, 1, 1, "<module>")?,
    )?)?;
    alarm(
        alloc,
        "A-2",
        "deep",
        "2.0.1",
        function(alloc, deep, 1, 1, "<module>")?,
        path,
    )
}

fn merge_alarm(alloc: Global) -> Result<Alarm, Fail> {
    let query = "node_modules/@acme/query/dist/q.js";
    let deep = "node_modules/@acme/query/node_modules/deep/index.js";
    let mut path = Vec::new(alloc);
    path.push(handler_step(alloc)?)?;
    path.push(step(
        alloc,
        "lib/server.js",
        8,
        18,
        function(alloc, query, 4, 1, "parse")?,
    )?)?;
    path.push(step(alloc, query, 4, 43, function(alloc, deep, 1, 17, "merge")?)?)?;
    alarm(
        alloc,
        "A-2",
        "deep",
        "2.0.1",
        function(alloc, deep, 1, 17, "merge")?,
        path,
    )
}

fn handler_step(alloc: Global) -> Result<PathStep, Fail> {
    let handler = function(alloc, "lib/server.js", 7, 34, "<anonymous>")?;
    step(alloc, "lib/server.js", 7, 33, handler)
}

pub(crate) fn report_with(alarms: Vec<Alarm>, notes: Vec<Note>, counts: Counts) -> Report {
    Report {
        alarms: List::of(alarms),
        notes: List::of(notes),
        counts,
    }
}

pub(crate) fn counts(
    modules: u64,
    functions: u64,
    reachable: u64,
    edges: u64,
    alarms: u64,
    notes: u64,
) -> Counts {
    Counts {
        modules,
        functions,
        reachable,
        edges,
        alarms,
        notes,
    }
}

pub(crate) fn alarm(
    alloc: Global,
    id: &str,
    package: &str,
    version: &str,
    function: Shown,
    path: Vec<PathStep>,
) -> Result<Alarm, Fail> {
    Ok(Alarm {
        id: Text::of(alloc, id)?,
        package: Text::of(alloc, package)?,
        version: Text::of(alloc, version)?,
        function,
        path: List::of(path),
    })
}

pub(crate) fn note(
    alloc: Global,
    path: &str,
    place: Option<(u32, u32)>,
    said: &str,
) -> Result<Note, Fail> {
    let place = place.map(|(line, column)| LineColumn { line, column });
    Ok(Note {
        path: Text::of(alloc, path)?,
        place,
        text: Text::of(alloc, said)?,
    })
}

pub(crate) fn step(
    alloc: Global,
    path: &str,
    line: u32,
    column: u32,
    callee: Shown,
) -> Result<PathStep, Fail> {
    Ok(PathStep {
        path: Text::of(alloc, path)?,
        line,
        column,
        callee,
    })
}

pub(crate) fn function(
    alloc: Global,
    path: &str,
    line: u32,
    column: u32,
    name: &str,
) -> Result<Shown, Fail> {
    Ok(Shown {
        path: Text::of(alloc, path)?,
        line,
        column,
        name: Text::of(alloc, name)?,
    })
}
