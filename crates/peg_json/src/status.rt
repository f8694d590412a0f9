//! The exit statuses of the program.
ghost use Rattle.std.specs.Prelude.{◌≡◌};

/// How the program ends.
#[derive(Clone, Copy, Debug, PartialEq, Eq)]
pub enum Status {
    /// Matched, accepted, a table or code printed, no warnings, all texts explained match, all is used, or help.
    Done,
    /// The parse failed, or matched only in part though the whole was asked for. Or there are warnings, a text
    /// explained doesn't match, or texts leave something unused.
    Failed,
    /// The grammar is rejected.
    Refused,
    /// The arguments are invalid, or no rule has the name of the start or a name in a list of rules.
    Usage,
    /// A file can't be opened or read, or the output can't be written.
    File,
    /// Out of memory.
    Memory,
    /// The answer, the text or the steps of the parse exceed a limit.
    Limit,
}

impl Status {
    ghost use Rattle.peg_json.specs.Statuses.{status_code};

    /// Returns the exit status as a number, 0 to 6.
    pub fn code(self) -> u8
        ensures { result ≡ status_code self }
    {
        match self {
            Status::Done => 0,
            Status::Failed => 1,
            Status::Refused => 2,
            Status::Usage => 3,
            Status::File => 4,
            Status::Memory => 5,
            Status::Limit => 6,
        }
    }
}
