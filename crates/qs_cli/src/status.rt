//! The exit status of the program.

ghost use Rattle.std.specs.Prelude.{◌≡◌};
ghost use Rattle.qs_cli.specs.Runs.{exit_code};

/// How a run ended.
#[derive(Clone, Copy, Debug, PartialEq, Eq)]
pub enum Status {
    /// All went well.
    Success,
    /// A fault was found in what was given, and printed.
    FaultShown,
    /// The command line makes no sense, or its hex doesn't.
    BadUsage,
    /// Memory was refused. A run that answers so has written nothing.
    NoMemory,
    /// Reading or writing failed.
    Failed,
}

impl Status {
    /// The number that the process ends with, 0 to 3.
    pub fn code(self) -> u8
        ensures { result ≡ exit_code self }
    {
        match self {
            Status::Success => 0,
            Status::FaultShown => 1,
            Status::BadUsage => 2,
            Status::NoMemory | Status::Failed => 3,
        }
    }
}
