//! How much of a text matches.
ghost use Rattle.std.specs.Prelude.{◌≡◌};

/// How much of a text matches.
#[derive(Clone, Copy, Debug, PartialEq, Eq)]
pub enum TextMatch {
    /// The whole text matches.
    Whole,
    /// A prefix of the text matches, and bytes follow it.
    Prefix,
    /// The text doesn't match.
    Failed,
}

/// How much of a text has to match.
#[derive(Clone, Copy, Debug, PartialEq, Eq)]
pub enum RequiredMatch {
    /// The whole text.
    Whole,
    /// A prefix of the text.
    Prefix,
}

impl RequiredMatch {
    ghost use Rattle.peg_coverage.specs.Covered.{is_enough};

    /// Returns whether a match is as required.
    pub fn allows(self, found: TextMatch) -> bool
        ensures { result ≡ is_enough self found }
    {
        match (self, found) {
            (RequiredMatch::Whole, TextMatch::Whole) => true,
            (RequiredMatch::Whole, TextMatch::Prefix) => false,
            (RequiredMatch::Whole, TextMatch::Failed) => false,
            (RequiredMatch::Prefix, TextMatch::Whole) => true,
            (RequiredMatch::Prefix, TextMatch::Prefix) => true,
            (RequiredMatch::Prefix, TextMatch::Failed) => false,
        }
    }
}
