//! The program: the real folder, the real streams, and the status as a number.
#![tactic(auto)]

mod disk;
mod sink;

ghost use Rattle.std.specs.Prelude.{◌≡◌, ◌<◌};

use disk::DiskFolder;
use jam_app::{Status, ended_without_words, run};
use jam_base::{MemKeeper, NoGate, Sink, Steps, Text};
use sink::StdSink;
use std::alloc::Global;
use std::env;
use std::io::{ErrorKind, Stderr, Stdout};
use std::marker::{Brand, Sync};
use std::process::ExitCode;
use std::rt::{Env, Files};
use std::sync::ledger::{Blank, Ledger};
use std::thread::Threads;

// Why there are no words.
#[derive(Drop)]
enum NoWords {
    // One of them isn't UTF-8, and such words are not canonical.
    NotText,
    OutOfMemory,
}

// The words of the command line, without the program's name.
fn words_of(rt: &(impl Env + AllocGlobal)) -> Result<Vec<Text>, NoWords> {
    let alloc = rt.alloc();
    let args = match env::args(rt) {
        Ok(args) => args,
        Err(error) if error.kind() == ErrorKind::OutOfMemory => return Err(NoWords::OutOfMemory),
        Err(_) => return Err(NoWords::NotText),
    };
    let mut words = Vec::new(alloc);
    for word in args.skip(1) {
        let Ok(word) = Text::of(alloc, word.as_str()) else {
            return Err(NoWords::OutOfMemory);
        };
        if words.push(word).is_err() {
            return Err(NoWords::OutOfMemory);
        }
    }
    Ok(words)
}

// Runs over the current folder, with a keeper that holds nothing.
fn start<R: Threads + Sync + Files, O: Sink, E: Sink, L: Ledger>(
    rt: &R,
    alloc: Global,
    words: &[Text],
    out: &mut O,
    err: &mut E,
    blank: Blank,
) -> Status
    requires name { blank.name ≡ L.name }
    requires parts { blank.parts ≡ L.parts }
    requires some { 0 < L.parts }
{
    let mut folder = DiskFolder::new(rt);
    let mut keeper = MemKeeper::new(alloc);
    let mut steps = Steps::<L>::new(blank);
    run(
        rt,
        alloc,
        words,
        &mut folder,
        &mut keeper,
        out,
        err,
        &NoGate,
        &mut steps,
    )
}

fn main(rt: HostRuntime) -> ExitCode {
    let alloc = rt.alloc();
    let mut out = StdSink::new(rt.stdout());
    let mut err = StdSink::new(rt.stderr());
    let words = match words_of(&rt) {
        Ok(words) => words,
        // No words aren't canonical either.
        Err(NoWords::NotText) => Vec::new(alloc),
        Err(NoWords::OutOfMemory) => {
            return ExitCode::from(ended_without_words(&mut err).number());
        }
    };
    let status = start::<HostRuntime, StdSink<Stdout>, StdSink<Stderr>, Brand>(
        &rt,
        alloc,
        words.as_slice(),
        &mut out,
        &mut err,
        Blank::new(1),
    );
    ExitCode::from(status.number())
}

#[cfg(test)]
mod tests;
