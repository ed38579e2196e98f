//! What a run is over, and what it leaves.
ghost use Rattle.std.specs.Prelude.{◌≡◌, ◌<◌};

use jam_app::{Status, run};
use jam_base::{Gate, MemFolder, MemKeeper, MemSink, ModulePath, Steps, Text};
use std::alloc::Global;
use std::marker::{Brand, Sync};
use std::process::Abort;
use std::sync::ledger::{Blank, Ledger};
use std::test::Fail;
use std::thread::Threads;

// The files that a run is over, and its two outputs.
#[derive(Drop)]
pub(crate) struct Bench {
    pub(crate) folder: MemFolder,
    pub(crate) out: MemSink,
    pub(crate) err: MemSink,
}

// No files, and outputs that take all.
pub(crate) fn empty_bench(alloc: Global) -> Bench {
    Bench {
        folder: MemFolder::new(alloc),
        out: MemSink::new(alloc),
        err: MemSink::new(alloc),
    }
}

// Puts a file at a path, in place of one that is there.
pub(crate) fn add(alloc: Global, bench: &mut Bench, path: &str, text: &[u8]) -> Result<(), Fail> {
    let path = ModulePath::read(alloc, path)?.ok_or("path")?;
    bench.folder.add(path, text.to_vec(alloc)?)?;
    Ok(())
}

// One file.
pub(crate) fn bench_over(alloc: Global, path: &str, text: &[u8]) -> Result<Bench, Fail> {
    let mut bench = empty_bench(alloc);
    add(alloc, &mut bench, path, text)?;
    Ok(bench)
}

// Runs the words of a line, and compares the status, the output and the error output.
pub(crate) fn check_run<R: Threads + Abort + Sync>(
    rt: &R,
    alloc: Global,
    bench: &mut Bench,
    line: &str,
    number: u8,
    out: &str,
    err: &str,
) -> Result<(), Fail> {
    let status = status_of(rt, alloc, bench, line)?;
    assert_eq!(rt; status.number(), number, "{line}: {out}{err}");
    assert_eq!(rt; bench.out.bytes(), out.as_bytes(), "{line}: {out}");
    assert_eq!(rt; bench.err.bytes(), err.as_bytes(), "{line}: {err}");
    Ok(())
}

// How a run of the words of a line ends.
pub(crate) fn status_of<R: Threads + Abort + Sync>(
    rt: &R,
    alloc: Global,
    bench: &mut Bench,
    line: &str,
) -> Result<Status, Fail> {
    let words = words_of(alloc, line)?;
    Ok(ran::<R, Brand>(rt, alloc, bench, words.as_slice(), Blank::new(1)))
}

// The words of a line, which stand between spaces.
fn words_of(alloc: Global, line: &str) -> Result<Vec<Text>, Fail> {
    let mut words = Vec::new(alloc);
    for word in line.split(' ') {
        words.push(Text::of(alloc, word)?)?;
    }
    Ok(words)
}

fn ran<R: Threads + Abort + Sync, L: Ledger>(
    rt: &R,
    alloc: Global,
    bench: &mut Bench,
    words: &[Text],
    blank: Blank,
) -> Status
    requires name { blank.name ≡ L.name }
    requires parts { blank.parts ≡ L.parts }
    requires some { 0 < L.parts }
{
    let mut keeper = MemKeeper::new(alloc);
    let mut steps = Steps::<L>::new(blank);
    run(
        rt,
        alloc,
        words,
        &mut bench.folder,
        &mut keeper,
        &mut bench.out,
        &mut bench.err,
        &Closed(rt),
        &mut steps,
    )
}

// A gate that no run may pass.
#[derive(Drop)]
struct Closed<'a, R>(&'a R);

impl<'a, R: Abort + Sync> Gate for Closed<'a, R> {
    fn at(&self, package: u32) {
        assert!(self.0; false, "package {package}");
    }
}
