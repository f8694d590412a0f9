//! What a request reports that ends without a fault.

/// The exit status of an explanation or a coverage, and its lines for standard error.
#[derive(Drop)]
pub(crate) struct Findings {
    pub(crate) status: u8,
    pub(crate) faults: String,
}

/// What a request reports that ends without a fault.
#[derive(Drop)]
pub(crate) enum Report {
    /// The exit status of a request that has no lines for standard error.
    Done(u8),
    /// The end of an explanation or a coverage.
    Found(Findings),
}

impl Report {
    ghost use Rattle.std.specs.Prelude.{◌≡◌};
    ghost use Rattle.peg_tool.specs.CommandOutcome.{report_status};

    /// Returns the exit status.
    pub(crate) fn status(&self) -> u8
        ensures { result ≡ report_status self.now }
    {
        match self {
            Report::Done(status) => *status,
            Report::Found(findings) => findings.status,
        }
    }
}
