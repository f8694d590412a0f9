//! The message for a refused grammar file.
ghost use Rattle.std.specs.Prelude.{◌≡◌, ◌≤◌, ◌++◌, IfOk, IfSome, OnErr, OnOk, length};
ghost use Rattle.peg_bytes.specs.Place.{max_offset};
ghost use Rattle.peg_messages.specs.SyntaxCauses.{syntax_cause};
ghost use Rattle.peg_messages.specs.Rejections.{cause_offset, given_offset, head_text, named_offset, tail_text};

use crate::causes::SyntaxCause;
use crate::lines::TextLines;
use crate::numbers::write_place;
use crate::reason::Reason;
use crate::sentences::write_sentence;
use crate::source::write_source;
use crate::syntax::syntax_cause;
use std::alloc::{AllocError, Global};

/// A refused grammar file, and why it is refused.
#[derive(Clone, Copy, Debug)]
pub struct Rejection<'a> {
    /// The name of the file, which begins the message.
    pub name: &'a [u8],
    pub file: &'a [u8],
    pub reason: Reason<'a>,
}

impl Rejection<'_> {
    ghost use Rattle.peg_messages.specs.Rejections.{rejection_message};

    /// Appends the message for a refused file: `NAME:LINE:COLUMN: SENTENCE`, then the line of the offset and a caret
    /// below it. The message is `NAME: SENTENCE` if the reason has no offset. Each line ends with LF.
    ///
    /// For a syntax error the sentence names the cause that `syntax_cause` finds in the bytes at the offset. A
    /// backslash that begins no escape is shown at its own offset.
    ///
    /// The only error is a failed allocation, which leaves `out` as it was. Takes time linear in the file and in what
    /// is written.
    ///
    /// # Example
    ///
    /// ```
    /// let reason = Reason::Syntax { at: 2 };
    /// let rejection = Rejection { name: b"ab.peg", file: b"S = 'a'", reason };
    /// rejection.write(alloc, &mut out)?;
    /// // ab.peg:1:3: a definition is written NAME <- EXPRESSION
    /// // S = 'a'
    /// //   ^
    /// ```
    pub fn write(&self, alloc: Global, out: &mut Vec<u8>) -> Result<(), AllocError>
        requires in_file { IfSome (given_offset self.now.reason) (λ at. at ≤ length self.now.file.now) }
        requires small { length self.now.file.now ≤ max_offset }
        ensures message { OnOk result (out.new.items ≡ out.old.items ++ rejection_message self.now) }
        ensures unchanged { OnErr result (out.new.items ≡ out.old.items) }
    {
        let message = self.message(alloc)?;
        out.extend_from_slice(&message)
    }

    // Returns the message.
    fn message(&self, alloc: Global) -> Result<Vec<u8>, AllocError>
        requires in_file { IfSome (given_offset self.now.reason) (λ at. at ≤ length self.now.file.now) }
        requires small { length self.now.file.now ≤ max_offset }
        ensures { IfOk result (λ message. message.items ≡ rejection_message self.now) }
    {
        let at = named_offset(self.file, &self.reason);
        let mut message = Vec::new(alloc);
        write_head(self.name, self.file, at, &mut message)?;
        write_sentence(self.file, &self.reason, &mut message)?;
        message.extend_from_slice(b"\n")?;
        write_tail(self.file, at, &mut message)?;
        Ok(message)
    }
}

// Returns the offset that the message names, if it names one.
fn named_offset(file: &[u8], reason: &Reason<'_>) -> Option<u32>
    requires in_file { IfSome (given_offset reason.now) (λ at. at ≤ length file.now) }
    requires small { length file.now ≤ max_offset }
    ensures value { result ≡ named_offset file.now reason.now }
    ensures in_file { IfSome result (λ at. at ≤ length file.now) }
{
    match *reason {
        Reason::Syntax { at } => Some(cause_offset(file, at)),
        Reason::TooNested { at }
        | Reason::BadCount { at }
        | Reason::Duplicate { at, .. }
        | Reason::Undefined { at, .. }
        | Reason::EmptyLoop { at, .. }
        | Reason::LeftRecursion { at, .. } => Some(at),
        Reason::FileTooLong | Reason::NoRule | Reason::TooManyParts | Reason::CodeTooLarge => None,
    }
}

// Returns the offset of the cause of a syntax error.
fn cause_offset(file: &[u8], at: u32) -> u32
    requires in_file { at ≤ length file.now }
    requires small { length file.now ≤ max_offset }
    ensures value { result ≡ cause_offset at (syntax_cause file.now at) }
    ensures in_file { result ≤ length file.now }
{
    match syntax_cause(file, at) {
        SyntaxCause::BadEscape { at } => at,
        SyntaxCause::EndsEarly
        | SyntaxCause::ByteOrderMark
        | SyntaxCause::OpenComment
        | SyntaxCause::OpenLiteral
        | SyntaxCause::OpenClass
        | SyntaxCause::OtherComment
        | SyntaxCause::Label
        | SyntaxCause::BareEscape
        | SyntaxCause::OpenCount
        | SyntaxCause::Braces
        | SyntaxCause::NamedClass
        | SyntaxCause::Capture
        | SyntaxCause::NoBreakSpace
        | SyntaxCause::NoArrow
        | SyntaxCause::Bar
        | SyntaxCause::Semicolon
        | SyntaxCause::Unexpected => at,
    }
}

// Writes what precedes the sentence.
fn write_head(
    name: &[u8],
    file: &[u8],
    at: Option<u32>,
    out: &mut Vec<u8>,
) -> Result<(), AllocError>
    requires in_file { IfSome at (λ at. at ≤ length file.now) }
    requires small { length file.now ≤ max_offset }
    ensures { OnOk result (out.new.items ≡ out.old.items ++ head_text name.now file.now at) }
{
    match at {
        Some(at) => write_place(name, TextLines::File, file, at, out),
        None => {
            out.extend_from_slice(name)?;
            out.extend_from_slice(b": ")
        }
    }
}

// Writes what follows the line of the sentence.
fn write_tail(file: &[u8], at: Option<u32>, out: &mut Vec<u8>) -> Result<(), AllocError>
    requires in_file { IfSome at (λ at. at ≤ length file.now) }
    requires small { length file.now ≤ max_offset }
    ensures { OnOk result (out.new.items ≡ out.old.items ++ tail_text file.now at) }
{
    match at {
        Some(at) => write_source(TextLines::File, file, at, out),
        None => Ok(()),
    }
}
