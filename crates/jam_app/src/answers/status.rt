//! How a run ended.
ghost use Rattle.std.specs.Prelude.{◌≡◌};

use crate::Refusal;

/// How a run ended.
#[derive(Debug, PartialEq, Eq, Drop)]
pub enum Status {
    /// Done, with no alarm.
    Clean,
    /// Done, with an alarm at least.
    Alarms,
    /// The request can't be met.
    Refused(Refusal),
    /// The folder failed.
    ReadFault,
    /// The output failed.
    WriteFault,
    /// There was no memory.
    NoMemory,
    /// The words aren't canonical.
    Usage,
}

impl Status {
    ghost use Rattle.jam_app.specs.Numbers.{number_of};

    /// The exit status of the program.
    pub fn number(&self) -> u8
        ensures { result ≡ number_of self.now }
    {
        match self {
            Status::Clean => 0,
            Status::Alarms => 1,
            Status::Refused(_) => 2,
            Status::ReadFault => 3,
            Status::WriteFault => 4,
            Status::NoMemory => 5,
            Status::Usage => 6,
        }
    }
}
