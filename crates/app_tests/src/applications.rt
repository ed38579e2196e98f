//! Tables of applications. A line `application` begins one with no files, and these are the others:
//!
//! - `file PATH TEXT` puts a file into it, in place of one that is there. What stands behind the path has no line
//!   end. More of the text may stand on the lines behind, each with its line end.
//! - `run NUMBER WORDS` runs the words over the files so far. The run ends with the number, and the lines behind
//!   are what it writes: a refusal on the error output, all else on the output.
//! - `calls COUNT NUMBER WORDS` runs them once for each of so many calls of the folder, which fails. Each of these
//!   runs ends as a failed read. A run whose next call would fail makes none: it is as a line `run` says.
//! - `bytes WORDS` runs them once for each byte of the lines behind, at which the output fails. Each of these runs
//!   ends as a failed write, and the output has what stands in front of the byte.
//!
//! Lines behind begin with four spaces. `¶` and `␍` stand for the two characters of a line end, and a line that
//! begins with `# ` is a heading.
use crate::bench::{Bench, add, check_run, empty_bench, status_of};
use crate::rows::with_line_ends;
use jam_base::List;
use std::alloc::{AllocError, Global};
use std::marker::Sync;
use std::process::Abort;
use std::test::Fail;
use std::thread::Threads;

// A file of an application.
#[derive(Drop)]
struct File {
    path: String,
    text: String,
}

// Each application of the table is as it says.
pub(crate) fn applications_hold<R: Threads + Abort + Sync>(
    rt: &R,
    alloc: Global,
    table: &str,
) -> Result<(), Fail> {
    let mut files = Vec::new(alloc);
    let mut entry = String::new(alloc);
    let mut behind = String::new(alloc);
    for line in table.lines() {
        if line.is_empty() || line.starts_with("# ") {
            continue;
        }
        if let Some(more) = line.strip_prefix("    ") {
            push_line(alloc, &mut behind, more)?;
            continue;
        }
        entry_holds(rt, alloc, &mut files, entry.as_str(), behind.as_str())?;
        entry = with_line_ends(alloc, line)?;
        behind = String::new(alloc);
    }
    assert!(rt; !entry.is_empty(), "no entries");
    entry_holds(rt, alloc, &mut files, entry.as_str(), behind.as_str())
}

fn push_line(alloc: Global, behind: &mut String, more: &str) -> Result<(), AllocError> {
    behind.push_str(with_line_ends(alloc, more)?.as_str())?;
    behind.push('\n')
}

// A line of the table, and the lines behind it.
fn entry_holds<R: Threads + Abort + Sync>(
    rt: &R,
    alloc: Global,
    files: &mut Vec<File>,
    entry: &str,
    behind: &str,
) -> Result<(), Fail> {
    if entry.is_empty() {
        return Ok(());
    }
    if entry == "application" {
        files.clear();
        return Ok(());
    }
    let (kind, rest) = entry.split_once(" ").ok_or("a line of one word")?;
    match kind {
        "file" => push_file(alloc, files, rest, behind),
        "run" => run_holds(rt, alloc, files.as_slice(), rest, behind),
        "calls" => calls_fail(rt, alloc, files.as_slice(), rest, behind),
        "bytes" => bytes_fail(rt, alloc, files.as_slice(), rest, behind),
        _ => Err(Fail::from("a line of no kind")),
    }
}

fn push_file(alloc: Global, files: &mut Vec<File>, rest: &str, behind: &str) -> Result<(), Fail> {
    let (path, front) = rest.split_once(" ").unwrap_or((rest, ""));
    let mut text = String::from_str(alloc, front)?;
    text.push_str(behind)?;
    files.push(File {
        path: String::from_str(alloc, path)?,
        text,
    })?;
    Ok(())
}

fn bench_of(alloc: Global, files: &[File]) -> Result<Bench, Fail> {
    let mut bench = empty_bench(alloc);
    for file in files {
        add(alloc, &mut bench, file.path.as_str(), file.text.as_bytes())?;
    }
    Ok(bench)
}

fn run_holds<R: Threads + Abort + Sync>(
    rt: &R,
    alloc: Global,
    files: &[File],
    rest: &str,
    want: &str,
) -> Result<(), Fail> {
    let mut bench = bench_of(alloc, files)?;
    bench_holds(rt, alloc, &mut bench, rest, want)
}

// The run ends with a number, and writes what is wanted.
fn bench_holds<R: Threads + Abort + Sync>(
    rt: &R,
    alloc: Global,
    bench: &mut Bench,
    rest: &str,
    want: &str,
) -> Result<(), Fail> {
    let (number, line) = rest.split_once(" ").ok_or("words")?;
    let number = number.parse::<u8>().ok().ok_or("a number")?;
    if want.starts_with("jam: ") {
        check_run(rt, alloc, bench, line, number, "", want)
    } else {
        check_run(rt, alloc, bench, line, number, want, "")
    }
}

fn calls_fail<R: Threads + Abort + Sync>(
    rt: &R,
    alloc: Global,
    files: &[File],
    rest: &str,
    want: &str,
) -> Result<(), Fail> {
    let (count, rest) = rest.split_once(" ").ok_or("a number and words")?;
    let count = count.parse::<u64>().ok().ok_or("a count")?;
    let (_, line) = rest.split_once(" ").ok_or("words")?;
    for call in 1..=count {
        let mut bench = failing_bench(alloc, files, call)?;
        check_run(rt, alloc, &mut bench, line, 3, "", "jam: read failed\n")?;
    }
    let mut bench = failing_bench(alloc, files, count.saturating_add(1))?;
    bench_holds(rt, alloc, &mut bench, rest, want)
}

// The files, with a call of the folder that fails.
fn failing_bench(alloc: Global, files: &[File], call: u64) -> Result<Bench, Fail> {
    let mut bench = bench_of(alloc, files)?;
    bench.folder.fail_at(List::of(vec![in alloc; call]?));
    Ok(bench)
}

fn bytes_fail<R: Threads + Abort + Sync>(
    rt: &R,
    alloc: Global,
    files: &[File],
    line: &str,
    want: &str,
) -> Result<(), Fail> {
    for room in 0..want.len() {
        let mut bench = bench_of(alloc, files)?;
        bench.out.fail_after(room as u64);
        let status = status_of(rt, alloc, &mut bench, line)?;
        assert_eq!(rt; status.number(), 4);
        assert_eq!(rt; bench.out.bytes(), &want.as_bytes()[..room]);
        assert_eq!(rt; bench.err.bytes(), b"jam: write failed\n".as_slice());
    }
    Ok(())
}
