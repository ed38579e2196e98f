//! The streams of the process.
ghost use Rattle.std.specs.Prelude.{None};

use jam_base::{Failed, Sink};
use std::io::{ErrorKind, Write};

/// A sink over a stream. It tells no bytes and counts the faults of the stream, a write that takes
/// nothing of a piece that isn't empty among them. A write that a signal interrupts is tried again.
#[derive(Drop)]
pub struct StdSink<W> {
    stream: W,
    faults: u64,
}

impl<W: Write> StdSink<W> {
    /// A sink over this stream.
    pub fn new(stream: W) -> StdSink<W> {
        StdSink { stream, faults: 0 }
    }
}

impl<W: Write> Sink for StdSink<W> {
    ghost taken = { λ _. None };

    ghost faults = { λ s. s.faults };

    fn write(&mut self, bytes: &[u8]) -> Result<usize, Failed> {
        for _ in 0..u64::MAX {
            match self.stream.write(bytes) {
                Ok(count) if 0 < count || bytes.is_empty() => return Ok(count),
                Err(error) if error.kind() == ErrorKind::Interrupted => {}
                _ => break,
            }
        }
        self.faults = self.faults.saturating_add(1);
        Err(Failed)
    }
}
