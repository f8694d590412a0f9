//! How an explanation ends.
ghost use Rattle.std.specs.Prelude.{◌≡◌, ◌++◌, OnOk, string_bytes};
ghost use Rattle.peg_explain_files.specs.Entries.{entry_fault};
ghost use Rattle.peg_explain_files.specs.Printings.{printed_by};

use crate::entry::Entry;
use crate::printing::Printing;
use std::alloc::{AllocError, Global};
use thiserror::Error;

/// How texts differ from what they should be, from the least to the greatest severity.
#[derive(Clone, Copy, Debug, PartialEq, Eq)]
pub enum Verdict {
    /// All texts match as a whole.
    Matches,
    /// A text doesn't match as a whole.
    Differs,
    /// A text or its parse is over a limit.
    OverLimit,
    /// A file can't be opened or read, or a name isn't UTF-8.
    Unreadable,
    /// No rule has the name of the start.
    NoSuchStart,
    /// The grammar file is refused.
    Refused,
}

impl Verdict {
    ghost use Rattle.std.specs.Prelude.{◌≡◌};
    ghost use Rattle.peg_explain_files.specs.Verdicts.{severity, worse};

    // A greater number for a worse verdict.
    fn severity(self) -> u8
        ensures { result ≡ severity self }
    {
        match self {
            Verdict::Matches => 0,
            Verdict::Differs => 1,
            Verdict::OverLimit => 2,
            Verdict::Unreadable => 3,
            Verdict::NoSuchStart => 4,
            Verdict::Refused => 5,
        }
    }

    /// Returns the verdict that is worse.
    pub fn worse(self, other: Verdict) -> Verdict
        ensures { result ≡ worse self other }
    {
        if self.severity() < other.severity() {
            other
        } else {
            self
        }
    }
}

/// How an explanation ends that is written as a whole.
#[derive(Debug, PartialEq, Eq, Drop)]
pub struct Ended {
    /// A line for each file that can't be opened or read, and for each name that isn't UTF-8, for standard error.
    pub faults: String,
    pub verdict: Verdict,
}

impl Ended {
    ghost use Rattle.std.specs.Prelude.{◌≡◌, ◌++◌, OnOk, string_bytes};
    ghost use Rattle.peg_explain_files.specs.Entries.{entry_fault, entry_verdict};
    ghost use Rattle.peg_explain_files.specs.Printings.{printed_by};
    ghost use Rattle.peg_explain_files.specs.Verdicts.{worse};

    /// Adds what is reported of a text.
    pub(crate) fn add(
        &mut self,
        alloc: Global,
        entry: &Entry<'_>,
        printing: Printing,
    ) -> Result<(), AllocError>
        ensures faults { OnOk result (string_bytes self.new.faults
            ≡ string_bytes self.old.faults ++ printed_by printing (entry_fault entry.now)) }
        ensures verdict { OnOk result (self.new.verdict ≡ worse self.old.verdict (entry_verdict entry.now)) }
    {
        self.verdict = self.verdict.worse(entry.verdict());
        push_fault(alloc, &mut self.faults, entry, printing)
    }
}

// Appends the line of a text for standard error, if it is printed.
fn push_fault(
    alloc: Global,
    faults: &mut String,
    entry: &Entry<'_>,
    printing: Printing,
) -> Result<(), AllocError>
    ensures { OnOk result (string_bytes faults.new
        ≡ string_bytes faults.old ++ printed_by printing (entry_fault entry.now)) }
{
    match printing {
        Printing::All => entry.write_fault(alloc, faults),
        Printing::Nothing => Ok(()),
    }
}

/// Why an explanation ends before all texts are explained.
#[derive(Clone, Copy, Debug, PartialEq, Eq, Error)]
pub enum ExplainFault {
    /// The output can't be written.
    #[error("the output can't be written")]
    Write,
    /// Out of memory.
    #[error("out of memory")]
    Memory,
}

impl From<AllocError> for ExplainFault {
    ghost use Rattle.std.specs.Prelude.{◌≡◌};
    ghost use Rattle.peg_explain_files.specs.declared.ended.ExplainFault.TheVariants.{Memory};

    ghost from_gives = { λ _ fault. fault ≡ Memory };

    fn from(_error: AllocError) -> ExplainFault {
        ExplainFault::Memory
    }
}
