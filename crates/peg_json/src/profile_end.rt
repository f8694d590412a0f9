//! How a profiled parse has ended.
ghost use Rattle.std.specs.Prelude.{◌≡◌};
ghost use Rattle.peg_json.specs.Statuses.{status_code};

use crate::status::Status;
use peg_profile::Profile;
use peg_tree::Parsed;

/// How a profiled parse has ended.
#[derive(Clone, Copy, Debug)]
pub(crate) enum ProfileEnd {
    /// It matched up to a position.
    Matched(u32),
    Failed,
    /// The step limit stopped it.
    Stopped,
}

impl ProfileEnd {
    ghost use Rattle.peg_json.specs.ProfileText.{end_of, end_word, parsed_end, status_of_end};

    pub(crate) fn of(profile: &Profile) -> ProfileEnd
        ensures { result ≡ end_of profile.now.answer }
    {
        match &profile.answer {
            Some(answer) => ProfileEnd::of_parsed(&answer.outcome.result),
            None => ProfileEnd::Stopped,
        }
    }

    fn of_parsed(parsed: &Parsed) -> ProfileEnd
        ensures { result ≡ parsed_end parsed.now }
    {
        match parsed {
            Parsed::Matched { end, .. } => ProfileEnd::Matched(*end),
            Parsed::Failed => ProfileEnd::Failed,
        }
    }

    /// Returns the printed result.
    pub(crate) fn word(self) -> &'static str
        ensures { result.now ≡ end_word self }
    {
        match self {
            ProfileEnd::Matched(_) => "matched",
            ProfileEnd::Failed => "failed",
            ProfileEnd::Stopped => "stopped",
        }
    }

    /// Returns the exit status.
    pub(crate) fn status(self) -> Status
        ensures { status_code result ≡ status_of_end self }
    {
        match self {
            ProfileEnd::Matched(_) => Status::Done,
            ProfileEnd::Failed => Status::Failed,
            ProfileEnd::Stopped => Status::Limit,
        }
    }
}
