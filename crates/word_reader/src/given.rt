//! What the words of a command line say, one after another.
ghost use Rattle.std.specs.Prelude.{◌≡◌};
ghost use Rattle.std.specs.Option.{option_map};
ghost use Rattle.word_reader.specs.Requests as requests;

use crate::table::{Choice, Command};
use lock_reader::after_front;
use std::marker::Model;

/// What the words up to here say.
#[derive(Debug, Drop)]
pub(crate) struct Given<'w> {
    pub(crate) command: Command,
    pub(crate) operand: Option<&'w str>,
    pub(crate) entry: Option<&'w str>,
    pub(crate) json: Option<bool>,
    pub(crate) skip_refused: bool,
    pub(crate) awaited: Option<Choice>,
}

impl<'w> Model for Given<'w> {
    ghost use Rattle.std.specs.Option.{option_map};
    ghost use Rattle.word_reader.specs.Requests.{Said};

    ghost Value = { Said };

    ghost view = { λ g. record {
      command = g.command;
      operand = option_map (λ t. t.now) g.operand;
      entry = option_map (λ t. t.now) g.entry;
      json = g.json;
      skip_refused = g.skip_refused;
      awaited = g.awaited;
    } };
}

/// What the first word says: the command.
pub(crate) fn said_first<'w>(word: &str) -> Option<Given<'w>>
    ensures { result ≡ requests.said_first word.now }
{
    let command = command_of(word)?;
    Some(Given {
        command,
        operand: None,
        entry: None,
        json: None,
        skip_refused: false,
        awaited: None,
    })
}

fn command_of(word: &str) -> Option<Command>
    ensures { result ≡ requests.command_of word.now }
{
    if word == Command::Audit.word() {
        Some(Command::Audit)
    } else if word == Command::Graph.word() {
        Some(Command::Graph)
    } else {
        None
    }
}

// Whether a word can be an operand, or the value of the option in the word before it.
fn is_operand(word: &str) -> bool
    ensures { result ≡ requests.is_operand word.now }
{
    match word.as_bytes() {
        [] => false,
        [first, ..] => *first != b'-',
    }
}

// The option whose word this is.
fn choice_of(word: &str) -> Option<Choice>
    ensures { result ≡ requests.choice_of word.now }
{
    if word == Choice::Entry.word() {
        Some(Choice::Entry)
    } else if word == Choice::Format.word() {
        Some(Choice::Format)
    } else if word == Choice::SkipRefused.word() {
        Some(Choice::SkipRefused)
    } else {
        None
    }
}

// The value of an option that stands behind `=` in its word.
fn value_behind<'w>(choice: Choice, word: &'w str) -> Option<&'w str>
    ensures { option_map (λ value. value.now) result ≡ requests.value_behind choice word.now }
{
    match after_front(choice.word(), word) {
        Some(rest) => after_front("=", rest),
        None => None,
    }
}

// Whether the format of this name is JSON, if there is such a format.
fn is_json(name: &str) -> Option<bool>
    ensures { result ≡ requests.is_json name.now }
{
    if name == "json" {
        Some(true)
    } else if name == "text" {
        Some(false)
    } else {
        None
    }
}

impl<'w> Given<'w> {
    /// The same with one more word. None where no canonical words begin so.
    pub(crate) fn with(self, word: &'w str) -> Option<Given<'w>>
        ensures { result ≡ requests.with_word self.entry word.now }
    {
        match self.awaited {
            Some(choice) => self.with_awaited(choice, word),
            None => self.with_free(word),
        }
    }

    // With the value that an option awaits.
    fn with_awaited(self, choice: Choice, word: &'w str) -> Option<Given<'w>>
        ensures { result ≡ requests.with_awaited choice self.entry word.now }
    {
        if !is_operand(word) {
            return None;
        }
        self.with_value(choice, word)
    }

    // With a word that no option awaits.
    fn with_free(self, word: &'w str) -> Option<Given<'w>>
        ensures { result ≡ requests.with_free self.entry word.now }
    {
        if is_operand(word) {
            return self.with_operand(word);
        }
        match choice_of(word) {
            Some(choice) => self.with_choice(choice),
            None => self.with_assigned(word),
        }
    }

    fn with_operand(self, word: &'w str) -> Option<Given<'w>>
        ensures { result ≡ requests.with_operand self.entry word.now }
    {
        match self.operand {
            Some(_) => None,
            None => Some(Given {
                operand: Some(word),
                ..self
            }),
        }
    }

    // With an option that stands alone in its word.
    fn with_choice(self, choice: Choice) -> Option<Given<'w>>
        ensures { result ≡ requests.with_choice choice self.entry }
    {
        if !self.command.has(choice) {
            return None;
        }
        match choice {
            Choice::Entry | Choice::Format => Some(Given {
                awaited: Some(choice),
                ..self
            }),
            Choice::SkipRefused => self.skipping(),
        }
    }

    fn skipping(self) -> Option<Given<'w>>
        ensures { result ≡ requests.skipping self.entry }
    {
        if self.skip_refused {
            return None;
        }
        Some(Given {
            skip_refused: true,
            ..self
        })
    }

    // With an option whose value stands in its word.
    fn with_assigned(self, word: &'w str) -> Option<Given<'w>>
        ensures { result ≡ requests.with_assigned self.entry word.now }
    {
        if let Some(value) = value_behind(Choice::Entry, word) {
            return self.with_written(Choice::Entry, value);
        }
        if let Some(value) = value_behind(Choice::Format, word) {
            return self.with_written(Choice::Format, value);
        }
        None
    }

    // With an option and the value that is written in its word.
    fn with_written(self, choice: Choice, value: &'w str) -> Option<Given<'w>>
        ensures { result ≡ requests.with_written choice self.entry value.now }
    {
        if value.is_empty() || !self.command.has(choice) {
            return None;
        }
        self.with_value(choice, value)
    }

    // With the value of an option, which was given none before.
    fn with_value(self, choice: Choice, value: &'w str) -> Option<Given<'w>>
        ensures { result ≡ requests.with_value choice self.entry value.now }
    {
        match choice {
            Choice::Entry => self.with_entry(value),
            Choice::Format => self.with_format(value),
            Choice::SkipRefused => None,
        }
    }

    fn with_entry(self, value: &'w str) -> Option<Given<'w>>
        ensures { result ≡ requests.with_entry self.entry value.now }
    {
        match self.entry {
            Some(_) => None,
            None => Some(Given {
                entry: Some(value),
                awaited: None,
                ..self
            }),
        }
    }

    fn with_format(self, value: &'w str) -> Option<Given<'w>>
        ensures { result ≡ requests.with_format self.entry value.now }
    {
        match (self.json, is_json(value)) {
            (None, Some(json)) => Some(Given {
                json: Some(json),
                awaited: None,
                ..self
            }),
            _ => None,
        }
    }
}
