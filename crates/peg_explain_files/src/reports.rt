//! What is reported of a text.
ghost use Rattle.std.specs.Prelude.{◌≡◌, ◌<◌, ℕ, List, IfOk, Some, length};
ghost use Rattle.peg_explain.specs.Explainers.{IsExplainerOf};
ghost use Rattle.peg_grammar.specs.Limits.{max_text_bytes};
ghost use Rattle.peg_messages.specs.FileNames.{shown_name};
ghost use Rattle.peg_parser.specs.Parser.{start_named};
ghost use Rattle.peg_semantics.specs.Rules.{Rule};
ghost use Rattle.peg_semantics.specs.Starts.{start_name};
ghost use Rattle.peg_explain_files.specs.TextReports.{IsReport, IsReportIn, IsReportOf, IsReportOfName};

use crate::content::{Content, content_of};
use peg_explain::Explainer;
use peg_grammar::MAX_TEXT_BYTES;
use peg_io::Opener;
use peg_messages::{TextLines, shown_name};
use peg_parser::{ParseFault, ParseOptions};
use std::alloc::{AllocError, Global};

/// What is reported of a text.
#[derive(Drop)]
pub enum TextReport {
    /// The text matches as a whole.
    Matches,
    /// The text doesn't match as a whole; the message says where.
    Differs(Vec<u8>),
    /// The text is over its limit.
    TooLong,
    /// The parse takes more steps than its limit.
    TooManySteps,
    /// The name isn't UTF-8, so no file can be opened by it.
    NotUtf8,
    /// The file can't be opened.
    Unopened,
    /// The file can't be read.
    Unreadable,
}

/// Returns what is reported of the text with this name, which may be any bytes. The only error is a failed allocation.
pub fn report_of_name<O: Opener>(
    alloc: Global,
    files: &O,
    explainer: &Explainer<'_>,
    name: &[u8],
    options: &ParseOptions<'_>,
) -> Result<TextReport, AllocError>
    ensures { (file : List ℕ) (rules : List Rule) → IsExplainerOf file rules explainer.now
        → (from : List ℕ) → start_name rules (start_named options.now) ≡ Some from → IfOk result
        (IsReportOfName (IsReport file rules explainer.now.style (start_named options.now) options.now.memo
        options.now.steps (shown_name name.now)) (O.file_at files.now) name.now) }
{
    match str::from_utf8(name) {
        Ok(name) => report_of(alloc, files, explainer, name, options),
        Err(_) => Ok(TextReport::NotUtf8),
    }
}

// Returns what is reported of the text with this name. The only error is a failed allocation.
fn report_of<O: Opener>(
    alloc: Global,
    files: &O,
    explainer: &Explainer<'_>,
    name: &str,
    options: &ParseOptions<'_>,
) -> Result<TextReport, AllocError>
    ensures { (file : List ℕ) (rules : List Rule) → IsExplainerOf file rules explainer.now
        → (from : List ℕ) → start_name rules (start_named options.now) ≡ Some from → IfOk result
        (IsReportOf (IsReport file rules explainer.now.style (start_named options.now) options.now.memo options.now.steps
        (shown_name name.now)) (O.file_at files.now name.now)) }
{
    match content_of(alloc, files, name, MAX_TEXT_BYTES + 1)? {
        Content::Bytes(text) => {
            let called = shown_name(alloc, name.as_bytes())?;
            report_of_text(
                alloc,
                explainer,
                called.as_bytes(),
                TextLines::File,
                &text,
                options,
            )
        }
        Content::Unopened => Ok(TextReport::Unopened),
        Content::Unreadable => Ok(TextReport::Unreadable),
    }
}

/// Returns what is reported of this text, whose name messages show like this. The only error is a failed allocation.
///
/// # Example
///
/// ```
/// let lines = TextLines::Part { line_feeds: 2 };
/// let report = report_of_text(alloc, &explainer, b"a.log", lines, third_line, &options)?;
/// ```
pub fn report_of_text(
    alloc: Global,
    explainer: &Explainer<'_>,
    called: &[u8],
    lines: TextLines,
    text: &[u8],
    options: &ParseOptions<'_>,
) -> Result<TextReport, AllocError>
    ensures report { (file : List ℕ) (rules : List Rule) → IsExplainerOf file rules explainer.now
        → (from : List ℕ) → start_name rules (start_named options.now) ≡ Some from → IfOk result
        (IsReportIn file rules explainer.now.style (start_named options.now) options.now.memo options.now.steps lines
        called.now text.now) }
    ensures long { (file : List ℕ) (rules : List Rule) → IsExplainerOf file rules explainer.now
        → (from : List ℕ) → start_name rules (start_named options.now) ≡ Some from → max_text_bytes < length text.now
        → IfOk result (λ report. report ≡ TextReport.TooLong) }
{
    match explainer.explain_in(alloc, called, lines, text, options) {
        Ok(None) => Ok(TextReport::Matches),
        Ok(Some(message)) => Ok(TextReport::Differs(message)),
        Err(ParseFault::TextTooLong) => Ok(TextReport::TooLong),
        Err(ParseFault::StepLimit) => Ok(TextReport::TooManySteps),
        // The start is a rule of the grammar.
        Err(ParseFault::NoSuchStart) => Ok(TextReport::Unreadable),
        Err(ParseFault::Memory) => Err(AllocError),
    }
}
