//! The line that a run writes on the error output.
ghost use Rattle.std.specs.Prelude.{◌≡◌, ◌≤◌, [], IfOk};
ghost use Rattle.jam_base.specs.Causes.{Rose};
ghost use Rattle.jam_app.specs.Lines.{TellsRefusal, IsRefusalText, text_of};
ghost use Rattle.jam_app.specs.Written.{TakesAll, TakesFront};
ghost use Rattle.jam_app.specs.declared.answers.refusal.Refusal.{Refusal as AnyRefusal};

use crate::answers::write::write_all;
use jam_base::{OutOfMemory, Sink, Text};

/// A line for the error output, ended by a line feed.
#[derive(Debug, Drop)]
pub(crate) enum Line {
    /// No line.
    Nothing,
    /// A line that is known beforehand, and takes no memory.
    Fixed(&'static str),
    /// A line that was made.
    Made(Text),
}

impl Line {
    /// The line that was made of a refusal, and none where there was no memory for it.
    pub(crate) fn of(made: Result<Text, OutOfMemory>) -> Line
        ensures { (refusal : AnyRefusal) → IfOk made (IsRefusalText refusal) → TellsRefusal refusal result }
    {
        match made {
            Ok(text) => Line::Made(text),
            Err(_) => Line::Nothing,
        }
    }

    fn text(&self) -> &str
        ensures { result.now ≡ text_of self.now }
    {
        match self {
            Line::Nothing => "",
            Line::Fixed(text) => text,
            Line::Made(text) => text.as_str(),
        }
    }

    /// Writes the line. Where there is none, the sink isn't called.
    pub(crate) fn write<E: Sink>(&self, err: &mut E)
        ensures nothing { text_of self.now ≡ [] → err.new ≡ err.old }
        ensures front { TakesFront (E.taken err.old) (E.taken err.new) (text_of self.now) }
        ensures all { (Rose (E.faults err.old) (E.faults err.new) → ⊥) → TakesAll (E.taken err.old) (E.taken err.new) (text_of self.now) }
        ensures later { E.faults err.old ≤ E.faults err.new }
    {
        let text = self.text();
        if text.is_empty() {
            return;
        }
        let _ = write_all(err, text.as_bytes());
    }
}
