//! Tables of rows. A row is a line `TEXT ⇒ ANSWER`, and goes on on the lines behind it that begin with four
//! spaces, which don't count. `¶`, `␍`, `␉` and `␀` stand for the two characters of a line end, the tab and the
//! character NUL, and `∅` stands for nothing. A line that begins with `# ` is a heading.
use crate::advisory_reader_tests::{advisories_answer, advisory_answer};
use crate::jam_base_tests::{
    join_answer, package_answer, parent_answer, path_answer, place_answer,
};
use crate::lock_reader_tests::{lock_answer, owner_answer};
use crate::node_resolve_tests::{entry_answer, file_answer};
use crate::npm_range_tests::{range_answer, versions_answer};
use crate::package_tests::require_answer;
use std::alloc::{AllocError, Global};
use std::process::Abort;
use std::test::Fail;

// What the text of a row is.
#[derive(Clone, Copy, Drop)]
pub(crate) enum RowKind {
    // The text of an advisory file, or what stands between its brackets.
    Advisories,
    Advisory,
    // Two paths, a path, or a text and an offset in it.
    Join,
    Package,
    Parent,
    Path,
    Place,
    // The text of a lockfile, or a path in one.
    Lock,
    Owner,
    // Files, a module and a text; files and an entry; a module and a text.
    File,
    Entry,
    Require,
    // A range that is read, or that holds for versions.
    Range,
    Versions,
}

// Each row of the table has its answer.
pub(crate) fn rows_hold(
    rt: &impl Abort,
    alloc: Global,
    kind: RowKind,
    table: &str,
) -> Result<(), Fail> {
    let mut row = String::new(alloc);
    for line in table.lines() {
        if line.is_empty() || line.starts_with("# ") {
            continue;
        }
        if let Some(more) = line.strip_prefix("    ") {
            row.push_str(with_marks(alloc, more)?.as_str())?;
            continue;
        }
        row_holds(rt, alloc, kind, row.as_str())?;
        row = with_marks(alloc, line)?;
    }
    assert!(rt; !row.is_empty(), "no rows");
    row_holds(rt, alloc, kind, row.as_str())
}

fn row_holds(rt: &impl Abort, alloc: Global, kind: RowKind, row: &str) -> Result<(), Fail> {
    if row.is_empty() {
        return Ok(());
    }
    let (text, want) = row.split_once(" ⇒ ").ok_or("an answer")?;
    let answer = answer_of(alloc, kind, text, want)?;
    assert_eq!(rt; answer.as_str(), want, "{text}");
    Ok(())
}

fn answer_of(alloc: Global, kind: RowKind, text: &str, want: &str) -> Result<String, Fail> {
    match kind {
        RowKind::Advisories => advisories_answer(alloc, text),
        RowKind::Advisory => advisory_answer(alloc, text),
        RowKind::Join => join_answer(alloc, text),
        RowKind::Package => package_answer(alloc, text),
        RowKind::Parent => parent_answer(alloc, text),
        RowKind::Path => path_answer(alloc, text),
        RowKind::Place => place_answer(alloc, text),
        RowKind::Lock => lock_answer(alloc, text),
        RowKind::Owner => owner_answer(alloc, text),
        RowKind::File => file_answer(alloc, text),
        RowKind::Entry => entry_answer(alloc, text),
        RowKind::Require => require_answer(alloc, text),
        RowKind::Range => range_answer(alloc, text),
        RowKind::Versions => versions_answer(alloc, text, want),
    }
}

// The text of a line, where marks stand for characters.
pub(crate) fn with_marks(alloc: Global, line: &str) -> Result<String, AllocError> {
    let mut text = String::new(alloc);
    for c in line.chars() {
        if c != '∅' {
            text.push(character(c))?;
        }
    }
    Ok(text)
}

fn character(mark: char) -> char {
    match mark {
        '¶' => '\n',
        '␍' => '\r',
        '␉' => '\t',
        '␀' => '\0',
        _ => mark,
    }
}
