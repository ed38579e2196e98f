//! Tables of runs. What is run stands on a line of its own, and what is written on the lines behind it,
//! which begin with four spaces: a refusal or a fault on the error output, all else on the output. `¶` and
//! `␍` stand for the two characters of a line end, and a line that begins with `# ` is a heading.
use crate::bench::{add, bench_over, check_run};
use std::alloc::{AllocError, Global};
use std::marker::Sync;
use std::process::Abort;
use std::test::Fail;
use std::thread::Threads;

const HELP: &str =
    "Tells which functions that advisories name an application can call. Run it in the application folder.\n\nUsage: jam <COMMAND>\n\nCommands:\n  audit  Report which functions that the advisories in a file name the application can call\n  graph  Print the calls that the application of an entry file can make\n\nReport which functions that the advisories in a file name the application can call\n\nUsage: jam audit [OPTIONS] <ADVISORIES>\n\nArguments:\n  <ADVISORIES>  The file of advisories, by its path from the application folder\n\nOptions:\n      --entry <PATH>     The file that the application begins with, as `require` would find it\n      --format <FORMAT>  How the report is written: text or json\n      --skip-refused     Pass over modules outside the profile, with a note, in place of refusing them\n\nExample: jam audit --format json advisories.json\n\nPrint the calls that the application of an entry file can make\n\nUsage: jam graph [OPTIONS] <FILE>\n\nArguments:\n  <FILE>  The file that the application begins with, as `require` would find it\n\nOptions:\n      --skip-refused  Pass over modules outside the profile, with a note, in place of refusing them\n\nExample: jam graph index.js\n";

// What is in a row: the text of `index.js`, over which `graph` is run; the words of a run over one file that
// isn't in the profile; or the path of an empty file, and the words of a run over it. `a.js`, which is empty,
// is beside them.
#[derive(Clone, Copy, Drop)]
pub(crate) enum RowKind {
    Text,
    Words,
    Files,
}

// Each row of the table is answered as it says.
pub(crate) fn rows_hold<R: Threads + Abort + Sync>(
    rt: &R,
    alloc: Global,
    kind: RowKind,
    table: &str,
) -> Result<(), Fail> {
    let mut row = String::new(alloc);
    let mut want = String::new(alloc);
    for line in table.lines() {
        if line.is_empty() || line.starts_with("# ") {
            continue;
        }
        if let Some(more) = line.strip_prefix("    ") {
            push_line(&mut want, more)?;
            continue;
        }
        row_holds(rt, alloc, kind, row.as_str(), want.as_str())?;
        row = with_line_ends(alloc, line)?;
        want = String::new(alloc);
    }
    assert!(rt; !row.is_empty(), "no rows");
    row_holds(rt, alloc, kind, row.as_str(), want.as_str())
}

fn row_holds<R: Threads + Abort + Sync>(
    rt: &R,
    alloc: Global,
    kind: RowKind,
    row: &str,
    want: &str,
) -> Result<(), Fail> {
    if row.is_empty() {
        return Ok(());
    }
    let (path, text, line) = match kind {
        RowKind::Text => ("index.js", row, "graph index.js"),
        RowKind::Words => ("a\\b.js", "?", row),
        RowKind::Files => {
            let (path, words) = row.split_once(" ").ok_or("words")?;
            (path, "", words)
        }
    };
    let mut bench = bench_over(alloc, path, text.as_bytes())?;
    add(alloc, &mut bench, "a.js", b"")?;
    if want == "help\n" {
        check_run(rt, alloc, &mut bench, line, 6, "", HELP)
    } else if want.starts_with("jam: ") {
        check_run(rt, alloc, &mut bench, line, 2, "", want)
    } else {
        check_run(rt, alloc, &mut bench, line, 0, want, "")
    }
}

fn push_line(want: &mut String, more: &str) -> Result<(), AllocError> {
    want.push_str(more)?;
    want.push('\n')
}

// The text of a line, where two marks stand for line ends.
pub(crate) fn with_line_ends(alloc: Global, line: &str) -> Result<String, AllocError> {
    let mut text = String::new(alloc);
    for c in line.chars() {
        text.push(line_end(c))?;
    }
    Ok(text)
}

fn line_end(c: char) -> char {
    match c {
        '¶' => '\n',
        '␍' => '\r',
        _ => c,
    }
}
