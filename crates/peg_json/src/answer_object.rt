//! The JSON objects of answers, for a serializer.
ghost use Rattle.std.specs.Prelude.{◌≡◌, Bool, OnOk};
ghost use Rattle.serde_json.specs.Data.{no_members};
ghost use Rattle.serde_json.specs.Events.{SendsValue};
ghost use Rattle.peg_json.specs.Reply.{failed_data, match_word, matched_data};
ghost use Rattle.peg_json.specs.Sending.{SendsMatch, spans_of};

use crate::expected_spans::ExpectedSpans;
use peg_tree::serialize_member;
use serde::{Described, Serialize, Serializer};

// A parse that failed, with its furthest failure.
#[derive(Drop)]
pub(crate) struct Failure<'a> {
    pub far: u32,
    pub expected: ExpectedSpans<'a>,
}

impl Described for Failure<'_> {
    ghost writes = { λ failure. SendsValue (failed_data failure.far (spans_of failure.expected)) };
}

impl Serialize for Failure<'_> {
    fn serialize<S: Serializer>(&self, out: &mut S) -> Result<(), S::Error> {
        out.begin_map(Some(3))?;
        serialize_member("expected", &self.expected, out)?;
        serialize_member("far", &self.far, out)?;
        serialize_member("result", &"failed", out)?;
        out.end_map()
    }
}

// The members of a match without its tree, and the match itself if the tree isn't printed. `partial` marks a match of
// less than the whole text where the whole was asked for.
#[derive(Drop)]
pub(crate) struct Summary<'a> {
    pub partial: bool,
    pub end: u32,
    pub far: u32,
    pub expected: ExpectedSpans<'a>,
}

impl Described for Summary<'_> {
    ghost writes = { λ summary. SendsValue (matched_data summary.partial summary.end summary.far
        (spans_of summary.expected) no_members) };
}

impl Serialize for Summary<'_> {
    fn serialize<S: Serializer>(&self, out: &mut S) -> Result<(), S::Error> {
        out.begin_map(Some(4))?;
        serialize_member("consumed", &self.end, out)?;
        serialize_member("expected", &self.expected, out)?;
        serialize_member("far", &self.far, out)?;
        serialize_member("result", &match_word(self.partial), out)?;
        out.end_map()
    }
}

// A match with its tree, which is the member `key`.
#[derive(Drop)]
pub(crate) struct Match<'a, T> {
    pub summary: Summary<'a>,
    pub key: &'static str,
    pub tree: T,
}

impl<T: Described> Described for Match<'_, T> {
    ghost writes = { λ value. SendsMatch value.summary.partial value.summary.end value.summary.far
        (spans_of value.summary.expected) value.key.now (T.writes value.tree) };
}

impl<T: Serialize> Serialize for Match<'_, T> {
    fn serialize<S: Serializer>(&self, out: &mut S) -> Result<(), S::Error> {
        out.begin_map(Some(5))?;
        serialize_member("consumed", &self.summary.end, out)?;
        serialize_member("expected", &self.summary.expected, out)?;
        serialize_member("far", &self.summary.far, out)?;
        serialize_member("result", &match_word(self.summary.partial), out)?;
        serialize_member(self.key, &self.tree, out)?;
        out.end_map()
    }
}

// The `result` member of a match.
pub(crate) fn match_word(partial: bool) -> &'static str
    ensures { result.now ≡ match_word partial }
{
    if partial { "partial" } else { "matched" }
}
