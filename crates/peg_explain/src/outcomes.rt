//! What a message says of an outcome.
ghost use Rattle.std.specs.Prelude.{◌≡◌, ◌≤◌, ℕ, List, length};
ghost use Rattle.peg_blame.specs.InText.{IsInText};
ghost use Rattle.peg_explain.specs.Reports.{are_items_expected, is_end_expected, is_whole_match, named_position};

use peg_tree::{Outcome, Parsed};

/// Returns whether a text with this many bytes matched as a whole.
pub(crate) fn is_whole_match(outcome: &Outcome, bytes: usize) -> bool
    ensures { result ≡ is_whole_match outcome.now.result bytes }
{
    match &outcome.result {
        Parsed::Failed => false,
        Parsed::Matched { end, .. } => *end as usize == bytes,
    }
}

/// Returns the position that a message names, which is in the text.
pub(crate) fn named_position(outcome: &Outcome) -> u32
    ensures named { result ≡ named_position outcome.now.result outcome.now.far }
    ensures in_text { (text : List ℕ) → IsInText text outcome.now → result ≤ length text }
{
    match &outcome.result {
        Parsed::Failed => outcome.far,
        Parsed::Matched { end, .. } => (*end).max(outcome.far),
    }
}

/// Returns whether the items of the furthest failure are expected there.
pub(crate) fn are_items_expected(outcome: &Outcome) -> bool
    ensures { result ≡ are_items_expected outcome.now.result outcome.now.far }
{
    match &outcome.result {
        Parsed::Failed => true,
        Parsed::Matched { end, .. } => *end <= outcome.far,
    }
}

/// Returns whether the end of the text is expected there.
pub(crate) fn is_end_expected(outcome: &Outcome) -> bool
    ensures { result ≡ is_end_expected outcome.now.result outcome.now.far }
{
    match &outcome.result {
        Parsed::Failed => false,
        Parsed::Matched { end, .. } => outcome.far <= *end,
    }
}
