//! What is found of a file in a folder, and what is printed of it.
ghost use Rattle.std.specs.Prelude.{◌≡◌, ◌++◌, OnOk, string_bytes};
ghost use Rattle.peg_test_files.specs.Trials.{end_of, tried_message, tried_verdict, unmatched_message, unmatched_verdict};

use crate::ends::TestEnd;
use crate::wanted::Wanted;
use peg_explain_files::{Entry, TextReport, Verdict, write_line, write_program_line};
use std::alloc::{AllocError, Global};

/// What is found of a file in a folder, or of a folder.
#[derive(Drop)]
pub(crate) enum Trial<'a> {
    /// The name of the file asks for nothing.
    Ignored,
    /// The folder with this name can't be listed.
    Unlisted { folder: &'a [u8] },
    /// What the name of a text asks for, and what is reported of the text.
    Tried { wanted: Wanted, entry: Entry<'a> },
}

impl Trial<'_> {
    ghost use Rattle.peg_test_files.specs.Trials.{trial_end, trial_fault, trial_message, trial_verdict};

    /// Appends what is printed on the output. Appends nothing, or a part of it, if an allocation fails.
    pub(crate) fn write_message(&self, alloc: Global, out: &mut Vec<u8>) -> Result<(), AllocError>
        ensures { OnOk result (out.new.items ≡ out.old.items ++ trial_message self.now) }
    {
        match self {
            Trial::Tried { wanted, entry } => write_tried(alloc, *wanted, entry, out),
            _ => Ok(()),
        }
    }

    /// Appends what is printed on standard error. Appends nothing, or a part of it, if an allocation fails.
    pub(crate) fn write_fault(&self, alloc: Global, out: &mut String) -> Result<(), AllocError>
        ensures { OnOk result (string_bytes out.new ≡ string_bytes out.old ++ trial_fault self.now) }
    {
        match self {
            Trial::Ignored => Ok(()),
            Trial::Unlisted { folder } => {
                write_program_line(alloc, folder, ": can't be read\n", out)
            }
            Trial::Tried { entry, .. } => entry.write_fault(alloc, out),
        }
    }

    /// Returns the verdict of this file or folder alone.
    pub(crate) fn verdict(&self) -> Verdict
        ensures { result ≡ trial_verdict self.now }
    {
        match self {
            Trial::Ignored => Verdict::Matches,
            Trial::Unlisted { .. } => Verdict::Unreadable,
            Trial::Tried { wanted, entry } => tried_verdict(*wanted, entry),
        }
    }

    /// Returns how the test ends. A folder that can't be listed is a test that fails.
    pub(crate) fn end(&self) -> TestEnd
        ensures { result ≡ trial_end self.now }
    {
        match self {
            Trial::Ignored => TestEnd::Ignored,
            Trial::Unlisted { .. } => TestEnd::Failed,
            Trial::Tried { wanted, entry } => end_of(tried_verdict(*wanted, entry)),
        }
    }
}

// Appends the message of a text whose name asks for this.
fn write_tried(
    alloc: Global,
    wanted: Wanted,
    entry: &Entry<'_>,
    out: &mut Vec<u8>,
) -> Result<(), AllocError>
    ensures { OnOk result (out.new.items ≡ out.old.items ++ tried_message wanted entry.now) }
{
    match wanted {
        Wanted::Match => entry.write_message(alloc, out),
        Wanted::NoMatch => write_unmatched(alloc, entry, out),
    }
}

// Appends the message of a text that shouldn't match.
fn write_unmatched(alloc: Global, entry: &Entry<'_>, out: &mut Vec<u8>) -> Result<(), AllocError>
    ensures { OnOk result (out.new.items ≡ out.old.items ++ unmatched_message entry.now.name.now entry.now.report) }
{
    match entry.report {
        TextReport::Matches => write_line(
            alloc,
            entry.name,
            ": the text matches, and its name says that it doesn't\n",
            out,
        ),
        TextReport::Differs(_) => Ok(()),
        _ => entry.write_message(alloc, out),
    }
}

// The verdict of a text whose name asks for this.
fn tried_verdict(wanted: Wanted, entry: &Entry<'_>) -> Verdict
    ensures { result ≡ tried_verdict wanted entry.now }
{
    match wanted {
        Wanted::Match => entry.verdict(),
        Wanted::NoMatch => unmatched_verdict(entry),
    }
}

// The verdict of a text that shouldn't match.
fn unmatched_verdict(entry: &Entry<'_>) -> Verdict
    ensures { result ≡ unmatched_verdict entry.now.report }
{
    match entry.report {
        TextReport::Matches => Verdict::Differs,
        TextReport::Differs(_) => Verdict::Matches,
        _ => entry.verdict(),
    }
}

// How the test of a text with this verdict ends.
fn end_of(verdict: Verdict) -> TestEnd
    ensures { result ≡ end_of verdict }
{
    match verdict {
        Verdict::Matches => TestEnd::Passed,
        _ => TestEnd::Failed,
    }
}
