//! The line of a position in a text, and a caret below the position.
ghost use Rattle.std.specs.Prelude.{◌≡◌, ◌≤◌, ◌<◌, ◌^◌, ◌++◌, OnOk, length, slice_range};
ghost use Rattle.peg_bytes.specs.Place.{max_offset};
ghost use Rattle.peg_messages.specs.Source.{source_lines, unsplit};
ghost use Rattle.peg_messages.specs.Source.{back, caret_line, continues, is_in_line, line_from, shown_line};

use crate::lines::TextLines;
use crate::shown::{Style, write_shown};
use std::alloc::AllocError;

/// Returns the part of some bytes between two offsets, as far as there are bytes.
pub(crate) fn part_of(bytes: &[u8], start: usize, end: usize) -> &[u8]
    ensures { result.now ≡ slice_range bytes.now start end }
{
    let end = end.min(bytes.len());
    &bytes[start.min(end)..end]
}

// Returns the line that begins at an offset, without its line end.
fn line_from(lines: TextLines, text: &[u8], start: usize) -> &[u8]
    requires { start ≤ length text.now }
    ensures { result.now ≡ line_from lines text.now start }
{
    let rest = &text[start..];
    'line: for length in 0..rest.len() {
        if !is_in_line(lines, rest[length]) {
            return &rest[..length];
        }
    }
    rest
}

// Returns whether a byte ends no line.
fn is_in_line(lines: TextLines, byte: u8) -> bool
    ensures { result ≡ is_in_line lines byte }
{
    match lines {
        TextLines::File => byte != b'\n' && byte != b'\r',
        TextLines::Part { .. } => byte != b'\n',
    }
}

/// Writes the line of a position of a text, and a caret below the position. Takes time linear in the text up to the end
/// of that line.
pub(crate) fn write_source(
    lines: TextLines,
    text: &[u8],
    at: u32,
    out: &mut Vec<u8>,
) -> Result<(), AllocError>
    requires in_text { at ≤ length text.now }
    requires small { at ≤ max_offset }
    ensures { OnOk result (out.new.items ≡ out.old.items ++ source_lines lines text.now at) }
{
    let column = lines.column(text, at) - 1;
    write_lines(line_from(lines, text, (at - column) as usize), column, out)
}

// Writes a line and a caret below it, where the position is at offset `at` of the line.
fn write_lines(line: &[u8], at: u32, out: &mut Vec<u8>) -> Result<(), AllocError>
    ensures { OnOk result (out.new.items ≡ out.old.items ++ (shown_line line.now at ++ caret_line line.now at)) }
{
    let at = at as usize;
    let start = unsplit(line, at.saturating_sub(80));
    let before = part_of(line, start, at);
    let after = part_of(line, at, unsplit(line, start + 120));
    write_shown(Style::Line, before, out)?;
    write_shown(Style::Line, after, out)?;
    out.extend_from_slice(b"\n")?;
    write_shown(Style::Blanks, before, out)?;
    out.extend_from_slice(b"^\n")
}

/// Returns an offset of a line, or up to three bytes before it, where a UTF-8 sequence isn't split.
pub(crate) fn unsplit(line: &[u8], at: usize) -> usize
    ensures value { result ≡ unsplit line.now at }
    ensures below { result ≤ at }
{
    back(line, back(line, back(line, at)))
}

// Moves an offset one byte back if the byte there continues a UTF-8 sequence.
#[tactic(auto, unfolding(crate::specs::Source::back))]
fn back(line: &[u8], at: usize) -> usize
    ensures value { result ≡ back line.now at }
    ensures below { result ≤ at }
{
    if continues(line, at) {
        at.saturating_sub(1)
    } else {
        at
    }
}

// Returns whether the byte at an offset continues a UTF-8 sequence.
fn continues(line: &[u8], at: usize) -> bool
    ensures { result ≡ continues line.now at }
{
    match line.get(at) {
        Some(byte) => 128 <= *byte && *byte < 192,
        None => false,
    }
}
