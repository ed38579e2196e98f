//! The commands and their options: what words are read by, and what the help text is made of.
ghost use Rattle.std.specs.Prelude.{◌≡◌};
ghost use Rattle.word_reader.specs.Requests as requests;

/// A command of the program.
#[derive(Clone, Copy, Debug, PartialEq, Eq, Drop)]
pub enum Command {
    /// Which functions that advisories name the application can call.
    Audit,
    /// Which calls it can make.
    Graph,
}

/// An option of a command.
#[derive(Clone, Copy, Debug, PartialEq, Eq, Drop)]
pub(crate) enum Choice {
    /// The entry of the application.
    Entry,
    /// The format of the report.
    Format,
    /// Whether modules outside the profile are skipped.
    SkipRefused,
}

impl Command {
    /// Its word.
    pub(crate) fn word(self) -> &'static str
        ensures { result.now ≡ requests.command_word self }
    {
        match self {
            Command::Audit => "audit",
            Command::Graph => "graph",
        }
    }

    /// Whether it has the option.
    pub(crate) fn has(self, choice: Choice) -> bool
        ensures { result ≡ requests.has_choice self choice }
    {
        match choice {
            Choice::SkipRefused => true,
            Choice::Entry | Choice::Format => self == Command::Audit,
        }
    }

    /// The program's name and its word.
    pub(crate) fn call(self) -> &'static str {
        match self {
            Command::Audit => "jam audit",
            Command::Graph => "jam graph",
        }
    }

    /// The name of its operand.
    pub(crate) fn operand(self) -> &'static str {
        match self {
            Command::Audit => "ADVISORIES",
            Command::Graph => "FILE",
        }
    }

    /// What its operand is.
    pub(crate) fn about_operand(self) -> &'static str {
        match self {
            Command::Audit => "The file of advisories, by its path from the application folder",
            Command::Graph =>
                "The file that the application begins with, as `require` would find it",
        }
    }

    /// What it does.
    pub(crate) fn about(self) -> &'static str {
        match self {
            Command::Audit => {
                "Report which functions that the advisories in a file name the application can call"
            }
            Command::Graph => "Print the calls that the application of an entry file can make",
        }
    }

    /// A command line with it.
    pub(crate) fn example(self) -> &'static str {
        match self {
            Command::Audit => "Example: jam audit --format json advisories.json",
            Command::Graph => "Example: jam graph index.js",
        }
    }
}

impl Choice {
    /// Its word.
    pub(crate) fn word(self) -> &'static str
        ensures { result.now ≡ requests.choice_word self }
    {
        match self {
            Choice::Entry => "--entry",
            Choice::Format => "--format",
            Choice::SkipRefused => "--skip-refused",
        }
    }

    /// Its word without the two dashes.
    pub(crate) fn name(self) -> &'static str {
        match self {
            Choice::Entry => "entry",
            Choice::Format => "format",
            Choice::SkipRefused => "skip-refused",
        }
    }

    /// The name of its value, if it takes one.
    pub(crate) fn value(self) -> Option<&'static str> {
        match self {
            Choice::Entry => Some("PATH"),
            Choice::Format => Some("FORMAT"),
            Choice::SkipRefused => None,
        }
    }

    /// What it does.
    pub(crate) fn about(self) -> &'static str {
        match self {
            Choice::Entry =>
                "The file that the application begins with, as `require` would find it",
            Choice::Format => "How the report is written: text or json",
            Choice::SkipRefused => {
                "Pass over modules outside the profile, with a note, in place of refusing them"
            }
        }
    }
}
