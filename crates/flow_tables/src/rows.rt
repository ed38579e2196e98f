//! Tables of texts. A text stands on a line of its own, and what is told of it on the lines behind it, which
//! begin with four spaces. `¶` stands for a line end in a text, and a line that begins with `# ` is a heading.
use crate::list_kind::{ListKind, list_text};
use std::alloc::{AllocError, Global};
use std::process::Abort;
use std::test::Fail;

// What is told of each text of the table is what stands behind it.
pub(crate) fn rows_hold(
    rt: &impl Abort,
    alloc: Global,
    list: ListKind,
    table: &str,
) -> Result<(), Fail> {
    let mut text = String::new(alloc);
    let mut want = String::new(alloc);
    for line in table.lines() {
        if line.is_empty() || line.starts_with("# ") {
            continue;
        }
        if let Some(more) = line.strip_prefix("    ") {
            push_more(&mut want, more)?;
            continue;
        }
        row_holds(rt, alloc, list, text.as_str(), want.as_str())?;
        text = with_line_ends(alloc, line)?;
        want = String::new(alloc);
    }
    assert!(rt; !text.is_empty(), "no rows");
    row_holds(rt, alloc, list, text.as_str(), want.as_str())
}

fn row_holds(
    rt: &impl Abort,
    alloc: Global,
    list: ListKind,
    text: &str,
    want: &str,
) -> Result<(), Fail> {
    if text.is_empty() {
        return Ok(());
    }
    let line = list_text(alloc, list, text, want)?;
    assert!(rt; line.as_str() == want, "{text}: {}", line.as_str());
    Ok(())
}

fn push_more(want: &mut String, more: &str) -> Result<(), AllocError> {
    if !want.is_empty() {
        want.push(' ')?;
    }
    want.push_str(more)
}

fn with_line_ends(alloc: Global, line: &str) -> Result<String, AllocError> {
    let mut text = String::new(alloc);
    for c in line.chars() {
        text.push(if c == '¶' { '\n' } else { c })?;
    }
    Ok(text)
}
