//! The cost of running a rule again.
ghost use Rattle.std.specs.Prelude.{◌≡◌};

use peg_bytes::ByteSet;

/// The cost of a rule whose results aren't stored.
#[derive(Clone, Copy, Debug, PartialEq, Eq)]
pub struct RerunCost {
    /// The rule, with all that it calls, takes a few instructions on any text. A memo lookup isn't worth it.
    pub trivial: bool,
    /// If the rule succeeds, the number of its own instructions is bounded by its calls and by the bytes that it
    /// consumes.
    pub linear_on_success: bool,
    /// If the rule fails, the number of its own instructions is bounded by its calls.
    pub linear_on_failure: bool,
    /// The next bytes on which the rule may take more than a few instructions, for a rule that isn't `linear_on_failure`.
    pub slow_next: ByteSet,
    /// Whether the rule may take more than a few instructions at the end of the text.
    pub slow_at_end: bool,
}

impl RerunCost {
    ghost use Rattle.peg_memo_policy.specs.RerunCost.{is_cheap_failure};

    /// Returns whether a failure costs little by itself, where `next` is the next byte, or `None` at the end of the
    /// text. Takes constant time.
    pub fn is_cheap_failure(&self, next: Option<u8>) -> bool
        ensures { result ≡ is_cheap_failure self.now next }
    {
        match next {
            Some(byte) => self.linear_on_failure || !self.slow_next.contains(byte),
            None => self.linear_on_failure || !self.slow_at_end,
        }
    }
}
