//! The faults that are reported instead of an answer.
use peg_parser::Refusal;

/// What `refusal_json` reports: why a grammar file, the name of a rule or a text is rejected, or why an answer isn't
/// printed.
#[derive(Clone, Copy, Debug)]
pub enum Fault<'a> {
    /// The grammar file is rejected.
    Refused(&'a Refusal),
    /// No rule has the name of the start.
    NoSuchStart(&'a str),
    /// No rule has this name, which is in a list of rules.
    NoSuchRule(&'a str),
    /// The parse takes more steps than the limit allows.
    StepLimit,
    /// The tree has more levels than the nested form may have.
    TooDeep,
    /// The text has more than 67,108,864 bytes.
    TextTooLong,
}
