//! What the words of the command line ask for.
ghost use Rattle.std.specs.Prelude.{◌≡◌};
ghost use Rattle.std.specs.Option.{option_map};
ghost use Rattle.word_reader.specs.Requests as requests;

use crate::given::{Given, said_first};
use crate::table::Command;
use jam_base::Text;
use std::marker::Model;

/// What canonical words ask for.
#[derive(Debug, Drop)]
pub struct Request<'w> {
    command: Command,
    operand: &'w str,
    entry: Option<&'w str>,
    json: bool,
    skip_refused: bool,
}

impl<'w> Model for Request<'w> {
    ghost use Rattle.std.specs.Option.{option_map};
    ghost use Rattle.word_reader.specs.Requests.{Asked};

    ghost Value = { Asked };

    ghost view = { λ r. record {
      command = r.command;
      operand = r.operand.now;
      entry = option_map (λ t. t.now) r.entry;
      json = r.json;
      skip_refused = r.skip_refused;
    } };
}

impl<'w> Request<'w> {
    /// What is to be done.
    pub fn command(&self) -> Command
        ensures { result ≡ self.now.command }
    {
        self.command
    }

    /// The file of advisories of `audit`, and the entry file of `graph`.
    pub fn operand(&self) -> &'w str
        ensures { result.now ≡ self.now.operand }
    {
        self.operand
    }

    /// The entry that the command begins with, where one is given: the operand of `graph`.
    pub fn start(&self) -> Option<&'w str>
        ensures { option_map (λ t. t.now) result ≡ requests.entry_asked self.now.command self.now.operand self.now.entry }
    {
        match self.command {
            Command::Audit => self.entry,
            Command::Graph => Some(self.operand),
        }
    }

    /// Whether the report is written as JSON.
    pub fn is_json(&self) -> bool
        ensures { result ≡ self.now.json }
    {
        self.json
    }

    /// Whether modules outside the profile are skipped.
    pub fn skips_refused(&self) -> bool
        ensures { result ≡ self.now.skip_refused }
    {
        self.skip_refused
    }
}

/// What canonical words ask for. None exactly where the words, without the program's name, aren't
/// canonical: a command, and behind it its options, each at most once, and one operand, in any order. An
/// operand isn't empty and doesn't begin with `-`. The value of an option is the next word, which is
/// like an operand, or stands behind `=` in the option's word and isn't empty. It takes no memory.
pub fn request_of(words: &[Text]) -> Option<Request<'_>>
    ensures { result ≡ requests.canonical_request words.now }
{
    let Some((first, rest)) = words.split_first() else {
        return None;
    };
    let given = said_first(first.as_str())?;
    asked(read(given, rest)?)
}

// What the words say behind what is given.
fn read<'w>(given: Given<'w>, words: &'w [Text]) -> Option<Given<'w>>
    ensures { result ≡ requests.read_words given.entry words.now }
{
    let mut given = given;
    for word in words {
        given = given.with(word.as_str())?;
    }
    Some(given)
}

// What all words ask for, if nothing is missing.
fn asked(given: Given<'_>) -> Option<Request<'_>>
    ensures { result ≡ requests.asked_by given.entry }
{
    if given.awaited.is_some() {
        return None;
    }
    let operand = given.operand?;
    Some(Request {
        command: given.command,
        operand,
        entry: given.entry,
        json: given.json == Some(true),
        skip_refused: given.skip_refused,
    })
}
