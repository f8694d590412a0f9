//! How the parses of texts end, and their counts.
ghost use Rattle.std.specs.Prelude.{◌≡◌, ◌+◌, ◌<◌, ◌++◌, [], ℕ, All, IfOk, OnOk};

use std::alloc::{AllocError, Global};

/// How the parse of a text ends.
#[derive(Clone, Copy)]
pub(crate) enum TextEnd {
    /// The text matches as required.
    Matched,
    /// The text doesn't match as required.
    Failed,
    /// The parse takes more steps than the limit allows.
    Stopped,
}

/// The counts of texts by how their parses end.
#[derive(Drop)]
pub(crate) struct TextCounts {
    /// How many texts there are.
    pub(crate) texts: u64,
    /// How many texts match as required.
    pub(crate) matched: u64,
    /// The numbers of the stopped texts from 0 on, in ascending order.
    pub(crate) stopped: Vec<usize>,
    ghost among: { All (λ (number : ℕ). number < texts) stopped.items },
}

impl TextCounts {
    ghost use Rattle.peg_coverage_files.specs.TextEnds.{matches_of, stops_of};

    /// Returns the counts of no text.
    pub(crate) fn new(alloc: Global) -> TextCounts
        ensures texts { result.texts ≡ 0 }
        ensures matched { result.matched ≡ 0 }
        ensures stopped { result.stopped.items ≡ [] }
    {
        TextCounts {
            texts: 0,
            matched: 0,
            stopped: Vec::new(alloc),
        }
    }

    /// Counts a text. The only errors are a failed allocation, and 2^64 - 1 texts before this one.
    pub(crate) fn count(&mut self, end: TextEnd) -> Result<(), AllocError>
        ensures texts { OnOk result (self.new.texts ≡ self.old.texts + 1) }
        ensures matched { OnOk result (self.new.matched ≡ self.old.matched + matches_of end) }
        ensures stopped { OnOk result
            (self.new.stopped.items ≡ self.old.stopped.items ++ stops_of self.old.texts end) }
    {
        let texts = next_count(self.texts)?;
        match end {
            TextEnd::Matched => self.matched = next_count(self.matched)?,
            TextEnd::Failed => {}
            TextEnd::Stopped => self.stopped.push(self.texts as usize)?,
        }
        self.texts = texts;
        Ok(())
    }
}

// The count after this one.
fn next_count(count: u64) -> Result<u64, AllocError>
    ensures { IfOk result (λ next. next ≡ count + 1) }
{
    match count.checked_add(1) {
        Some(next) => Ok(next),
        None => Err(AllocError),
    }
}
