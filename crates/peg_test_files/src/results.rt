//! The results of a test so far.
ghost use Rattle.std.specs.Prelude.{◌≡◌, ◌++◌, OnOk, string_bytes};
ghost use Rattle.peg_explain_files.specs.Printings.{has_write_failed};
ghost use Rattle.std.specs.Prelude.{false};
ghost use Rattle.peg_test_files.specs.TestResults.{WritesResults};

use crate::counts::write_counts;
use crate::ends::TestEnd;
use crate::trial::Trial;
use peg_explain_files::{Ended, ExplainFault, Printing, Verdict, write_printed};
use peg_io::Sink;
use std::alloc::{AllocError, Global};

/// The messages, the lines for standard error with the verdict, and how each test ends.
#[derive(Drop)]
pub(crate) struct Results {
    lines: Vec<u8>,
    ended: Ended,
    ends: Vec<TestEnd>,
}

impl Results {
    ghost use Rattle.std.specs.Prelude.{◌∷◌, []};
    ghost use Rattle.peg_test_files.specs.TestResults.{AddsTrials, AreNoResults};

    /// Returns the results of no test.
    pub(crate) fn new(alloc: Global) -> Results
        ensures { AreNoResults result }
    {
        Results {
            lines: Vec::new(alloc),
            ended: Ended {
                faults: String::new(alloc),
                verdict: Verdict::Matches,
            },
            ends: Vec::new(alloc),
        }
    }

    /// Adds what is found of a file or a folder. The only error is a failed allocation.
    pub(crate) fn add(&mut self, alloc: Global, trial: &Trial<'_>) -> Result<(), AllocError>
        ensures { OnOk result (AddsTrials (trial.now ∷ []) self.old self.new) }
    {
        trial.write_message(alloc, &mut self.lines)?;
        trial.write_fault(alloc, &mut self.ended.faults)?;
        self.ended.verdict = self.ended.verdict.worse(trial.verdict());
        self.ends.push(trial.end())?;
        Ok(())
    }
}

/// Writes the messages and a line with the counts, and returns how the test ends.
pub(crate) fn write_results<W: Sink>(
    output: &mut W,
    results: Results,
) -> Result<Ended, ExplainFault>
    requires { W.failed output.old ≡ false }
    ensures writes { WritesResults results (W.written output.old) (W.written output.new) result }
    ensures failed { W.failed output.new ≡ has_write_failed result }
{
    let Results {
        mut lines,
        ended,
        ends,
    } = results;
    write_counts(&ends, &mut lines)?;
    write_printed(output, &lines, Printing::All)?;
    Ok(ended)
}
