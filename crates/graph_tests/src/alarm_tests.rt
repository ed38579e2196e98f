//! Alarms over a lockfile, advisories, parts and what can be reached.
use crate::reach_path_tests::{call, reach_of};
use advisory_reader::{Advisory, read_advisories};
use alarms::{Found, alarms, locations_without_version};
use composer::Part;
use flow_fold::fold;
use flow_rules::Constraints;
use jam_base::{List, ModulePath, Text};
use js_scopes::FunctionInfo;
use lock_reader::{Lock, read_lock};
use std::alloc::{AllocError, Global};
use std::process::Abort;
use std::test::Fail;

const LOCK: &str = r#"{"lockfileVersion":3,"packages":{
    "":{"name":"app","version":"1.0.0"},
    "node_modules/a":{"version":"1.1.0"},
    "node_modules/a/node_modules/b":{"version":"2.0.0"},
    "node_modules/c":{"name":"b","version":"2"},
    "node_modules/d":{}}}"#;

#[test]
fn an_alarm_needs_a_name_a_range_a_selector_and_a_walk(rt: HostRuntime) -> Result<(), Fail> {
    rows_hold(&rt, rt.alloc(), RowKind::Alarms, ALARMS)
}

// The advisories, and for each alarm the numbers of the advisory, the entry, the module and the function.
const ALARMS: &str = r#"
{"id":"X","package":"a","range":"<1.2.0","functions":[{"file":"index.js","name":"go"}]}
    0 1 1:1
    0 1 1:2
{"id":"X","package":"a","range":"<1.1.0","functions":[{"file":"index.js","name":"go"}]}
    none
{"id":"X","package":"a","range":"*","functions":[{"file":"index.js","name":"idle"}]}
    none
{"id":"X","package":"a","range":"*","functions":[{"file":"lib/index.js","name":"go"}]}
    none
{"id":"X","package":"a","range":"*","functions":[{"file":"node_modules/b/lib/x.js","name":"slow"}]}
    none
{"id":"X","package":"a","range":"1.1.0","functions":[{"file":"*","name":"*"}]}
    0 1 1:1
    0 1 1:2
# Alarms go by advisory, package and function.
{"id":"X","package":"b","range":"*","functions":[
{"file":"lib/x.js","name":"slow"},{"file":"*","name":"slow"}]},
{"id":"Y","package":"a","range":"*","functions":[{"file":"*","name":"go"}]},
{"id":"Z","package":"b","range":">1.0.0","functions":[{"file":"*","name":"*"}]},
{"id":"W","package":"app","range":"*","functions":[{"file":"index.js","name":"*"}]}
    0 2 2:1
    1 1 1:1
    1 1 1:2
    2 2 2:1
    3 0 0:0
"#;

#[test]
fn packages_without_a_version_are_told(rt: HostRuntime) -> Result<(), Fail> {
    rows_hold(&rt, rt.alloc(), RowKind::Locations, LOCATIONS)
}

// The advisories, and the locations of packages without a version.
const LOCATIONS: &str = r#"
{"id":"X","package":"a","range":"*","functions":[]},
{"id":"Y","package":"app","range":"*","functions":[]}
    none
{"id":"X","package":"d","range":"*","functions":[]},
{"id":"Y","package":"b","range":"*","functions":[]}
    node_modules/c
    node_modules/d
{"id":"X","package":"b","range":"*","functions":[]},
{"id":"Y","package":"b","range":"*","functions":[]}
    node_modules/c
{"id":"X","package":"node_modules/d","range":"*","functions":[]},
{"id":"Y","package":"c","range":"*","functions":[]}
    none
"#;

// What is compared for the advisories of a row.
#[derive(Clone, Copy, Drop)]
enum RowKind {
    Alarms,
    Locations,
}

// For the advisories of each row there is what stands on the lines behind them, which begin with four spaces.
fn rows_hold(rt: &impl Abort, alloc: Global, kind: RowKind, table: &str) -> Result<(), Fail> {
    let mut row = String::new(alloc);
    let mut want = String::new(alloc);
    for line in table.lines() {
        if line.is_empty() || line.starts_with("# ") {
            continue;
        }
        if let Some(more) = line.strip_prefix("    ") {
            push_line(&mut want, more)?;
            continue;
        }
        if !want.is_empty() {
            row_holds(rt, alloc, kind, row.as_str(), want.as_str())?;
            row = String::new(alloc);
            want = String::new(alloc);
        }
        row.push_str(line)?;
    }
    assert!(rt; !want.is_empty(), "no rows");
    row_holds(rt, alloc, kind, row.as_str(), want.as_str())
}

fn row_holds(
    rt: &impl Abort,
    alloc: Global,
    kind: RowKind,
    row: &str,
    want: &str,
) -> Result<(), Fail> {
    let text = format!(in alloc; "{{\"advisories\":[{row}]}}")?;
    let advisories = advisories_of(alloc, text.as_str())?;
    let found = match kind {
        RowKind::Alarms => alarms_text(alloc, advisories.as_slice())?,
        RowKind::Locations => locations_text(alloc, advisories.as_slice())?,
    };
    if found.is_empty() {
        assert_eq!(rt; want, "none\n", "{row}");
    } else {
        assert_eq!(rt; found.as_str(), want, "{row}");
    }
    Ok(())
}

fn push_line(want: &mut String, more: &str) -> Result<(), AllocError> {
    want.push_str(more)?;
    want.push('\n')
}

fn alarms_text(alloc: Global, advisories: &[Advisory]) -> Result<String, Fail> {
    let made = alarms_of(alloc, advisories)?;
    let mut text = String::new(alloc);
    for found in made.as_slice() {
        text.push_str(alarm_text(alloc, found)?.as_str())?;
    }
    Ok(text)
}

fn alarm_text(alloc: Global, found: &Found) -> Result<String, AllocError> {
    format!(in alloc;
        "{} {} {}:{}\n",
        found.advisory, found.entry, found.function.module, found.function.function
    )
}

fn alarms_of(alloc: Global, advisories: &[Advisory]) -> Result<Vec<Found>, Fail> {
    let Ok(lock) = read_lock(alloc, LOCK.as_bytes()) else {
        return Err("lockfile".into());
    };
    let parts = parts_of(alloc)?;
    let edges = [
        call(0, 0, 5, 1, 1),
        call(0, 0, 9, 1, 2),
        call(1, 1, 20, 2, 1),
        call(1, 2, 30, 3, 1),
    ];
    let reach = reach_of(alloc, &[1, 4, 2, 2], &edges, 0)?;
    Ok(alarms(alloc, &lock, advisories, parts.as_slice(), &reach)?)
}

fn locations_text(alloc: Global, advisories: &[Advisory]) -> Result<String, Fail> {
    let lock = lock_of(alloc)?;
    let made = locations_without_version(alloc, &lock, advisories)?;
    let mut text = String::new(alloc);
    for location in made.as_slice() {
        push_line(&mut text, location.as_str())?;
    }
    Ok(text)
}

// A part with functions of these names.
fn part_of(alloc: Global, path: &str, names: &[&str]) -> Result<Part, Fail> {
    let mut functions = Vec::new(alloc);
    let mut start: u32 = 0;
    for name in names {
        functions.push(FunctionInfo {
            start,
            params: 0,
            name: Text::of(alloc, name)?,
        })?;
        start = start.saturating_add(1);
    }
    let made = Constraints::of(
        List::of(functions),
        List::of(Vec::new(alloc)),
        List::of(Vec::new(alloc)),
        List::of(Vec::new(alloc)),
        List::of(Vec::new(alloc)),
    );
    Ok(Part {
        path: ModulePath::read(alloc, path)?.ok_or("path")?,
        summary: fold(alloc, made.ok_or("constraints")?)?,
    })
}

// The application `app`, whose body calls two functions of package `a`; that calls one of package `b`
// within it and one of the package at `node_modules/c`.
fn parts_of(alloc: Global) -> Result<Vec<Part>, Fail> {
    let mut parts = Vec::new(alloc);
    parts.push(part_of(alloc, "index.js", &["<module>"])?)?;
    parts.push(part_of(
        alloc,
        "node_modules/a/index.js",
        &["<module>", "go", "go", "idle"],
    )?)?;
    parts.push(part_of(
        alloc,
        "node_modules/a/node_modules/b/lib/x.js",
        &["<module>", "slow"],
    )?)?;
    parts.push(part_of(alloc, "node_modules/c/x.js", &["<module>", "slow"])?)?;
    Ok(parts)
}

fn lock_of(alloc: Global) -> Result<Lock, Fail> {
    match read_lock(alloc, LOCK.as_bytes()) {
        Ok(lock) => Ok(lock),
        Err(_) => Err("lockfile".into()),
    }
}

fn advisories_of(alloc: Global, text: &str) -> Result<List<Advisory>, Fail> {
    match read_advisories(alloc, text.as_bytes()) {
        Ok(list) => Ok(list),
        Err(_) => Err("advisories".into()),
    }
}
