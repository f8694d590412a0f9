//! Warnings about the texts of classes and literals.
ghost use Rattle.std.specs.Prelude.{◌≡◌, ◌<◌, ◌≤◌, ◌↔◌, ◌+◌, ℕ, IsTrue, List, length, IfNone, IfSome, OnOk};
ghost use Rattle.peg_bytes.specs.ByteSet.{Bytes, bytes_of};
ghost use Rattle.peg_bytes.specs.Extent.{Extent, extent};
ghost use Rattle.peg_metagrammar.specs.Ranges.{Range};
ghost use Rattle.peg_metagrammar.specs.RangesCode.{range_of};
ghost use Rattle.peg_semantics.specs.Form.{Class, Literal};
ghost use Rattle.peg_semantics.specs.Rules.{Rule};
ghost use Rattle.peg_lint.specs.FileWarnings.{SaysOfFile};
ghost use Rattle.peg_lint.specs.Habits.{IsWithin, text_in};
ghost use Rattle.peg_lint.specs.Linting.{AddsIn, AreSeen, FindsClass, FindsIf, FindsLineEnd, FindsRepeat};
ghost use Rattle.peg_lint.specs.Linting.{FindsRange, FindsRanges, FindsWhole, HaveCommonByte};
ghost use Rattle.peg_lint.specs.Spelling.{IsRangeAt, IsRangeOfClass};
ghost use Rattle.peg_lint.specs.Warnings.{IsPartOfRule};

use crate::habits::{
    begins_with_caret, ends_in_bracket, goes_over_signs, has_blanks_around, holds_high_byte,
    holds_line_end, text_in,
};
use crate::{Warning, WarningKind};
use peg_bytes::{ByteSet, Span};
use peg_lexer::classed_range;
use peg_metagrammar::ByteRange;
use std::alloc::AllocError;

// A range of a class at an offset of the file: its bytes, and the length of its text.
#[derive(Clone, Copy, Debug)]
struct Placed {
    bytes: ByteRange,
    length: u32,
}

// Returns the range of a class at an offset of the file, if its text ends at `end` or before.
fn range_within(file: &[u8], at: u32, end: u32) -> Option<Placed>
    ensures read { IfSome result (λ range. IsRangeAt file.now at range.length (range_of range.bytes)) }
    ensures some { IfSome result (λ range. 0 < range.length) }
    ensures within { IfSome result (λ range. at + range.length ≤ end) }
    ensures last { IfNone result (at ≤ length file.now
        → (long : ℕ) (bytes : Range) → IsRangeAt file.now at long bytes → end < at + long) }
{
    let rest = file.get(at as usize..)?;
    let found = classed_range(rest)?;
    if end < at || ((end - at) as usize) < found.length {
        return None;
    }
    Some(Placed {
        bytes: found.bytes,
        length: found.length as u32,
    })
}

// Adds a warning if what it says holds.
fn add_if(
    holds: bool,
    kind: WarningKind,
    rule: u32,
    span: Span,
    found: &mut Vec<Warning>,
) -> Result<(), AllocError>
    ensures { OnOk result ((file : List ℕ) (rules : List Rule)
        → (IsTrue holds → SaysOfFile kind file rules rule (extent span))
        → AddsIn file rules (FindsIf holds kind rule (extent span)) found.old.items found.new.items) }
{
    if holds {
        found.push(Warning {
            kind,
            rule,
            span,
            by: None,
        })?;
    }
    Ok(())
}

// Adds the warnings about a range of a class. Takes time linear in its text.
fn add_of_range(
    file: &[u8],
    rule: u32,
    span: Span,
    bytes: ByteRange,
    found: &mut Vec<Warning>,
) -> Result<(), AllocError>
    ensures { OnOk result ((rules : List Rule) (set : Bytes) (class : Extent)
        → IsPartOfRule rules rule (Class set class)
        → IsWithin file.now class → IsRangeOfClass file.now class (extent span) (range_of bytes)
        → AddsIn file.now rules (FindsRange file.now rule (extent span) (range_of bytes))
        found.old.items found.new.items) }
{
    let Some(text) = text_in(file, span) else {
        return Ok(());
    };
    let is_reversed = bytes.high < bytes.low;
    let to_bracket = ends_in_bracket(text);
    let over_signs = goes_over_signs(text);
    add_if(is_reversed, WarningKind::ReversedRange, rule, span, found)?;
    add_if(to_bracket, WarningKind::ClassEndsInRange, rule, span, found)?;
    add_if(over_signs, WarningKind::RangeOverSigns, rule, span, found)
}

// Returns whether a set and a range have a byte in common. Takes time linear in the bytes of the range before such a
// byte.
fn have_common_byte(set: &ByteSet, bytes: ByteRange) -> bool
    ensures { IsTrue result ↔ HaveCommonByte (bytes_of set.now) (range_of bytes) }
{
    for byte in bytes.low..=bytes.high {
        if set.contains(byte) {
            return true;
        }
    }
    false
}

// Adds a warning if a range of a class has a byte of the ranges before it. `seen` has their bytes.
fn add_of_repeat(
    seen: &ByteSet,
    rule: u32,
    span: Span,
    bytes: ByteRange,
    found: &mut Vec<Warning>,
) -> Result<(), AllocError>
    ensures { OnOk result ((file : List ℕ) (rules : List Rule) (set : Bytes) (class : Extent)
        → IsPartOfRule rules rule (Class set class)
        → IsWithin file class → IsRangeOfClass file class (extent span) (range_of bytes) → span.start < span.end
        → AreSeen file class span.start (bytes_of seen.now)
        → AddsIn file rules (FindsRepeat file rule class (extent span)) found.old.items found.new.items) }
{
    let is_repeated = have_common_byte(seen, bytes);
    add_if(is_repeated, WarningKind::RepeatedByte, rule, span, found)
}

// Adds the warnings about the ranges of a class. Takes time linear in the class.
fn add_of_ranges(
    file: &[u8],
    rule: u32,
    class: Span,
    found: &mut Vec<Warning>,
) -> Result<(), AllocError>
    ensures { OnOk result ((rules : List Rule) (set : Bytes) → IsPartOfRule rules rule (Class set (extent class))
        → IsWithin file.now (extent class)
        → AddsIn file.now rules (FindsRanges file.now rule (extent class)) found.old.items found.new.items) }
{
    if class.end <= class.start {
        return Ok(());
    }
    let mut at = class.start + 1;
    let mut seen = ByteSet::empty();
    'spelled: while let Some(range) = range_within(file, at, class.end) {
        let span = Span::new(at, at + range.length);
        add_of_range(file, rule, span, range.bytes, found)?;
        add_of_repeat(&seen, rule, span, range.bytes, found)?;
        seen = seen.union(&ByteSet::range(range.bytes.low, range.bytes.high));
        at = span.end;
    }
    Ok(())
}

// Adds the warnings about a class as a whole. Takes time linear in the class.
fn add_of_whole(
    text: &[u8],
    rule: u32,
    span: Span,
    found: &mut Vec<Warning>,
) -> Result<(), AllocError>
    ensures { OnOk result ((file : List ℕ) (rules : List Rule) (set : Bytes)
        → IsPartOfRule rules rule (Class set (extent span)) → IsWithin file (extent span)
        → text.now ≡ text_in file (extent span)
        → AddsIn file rules (FindsWhole text.now rule (extent span)) found.old.items found.new.items) }
{
    let (caret, high) = (
        WarningKind::ClassBeginsWithCaret,
        WarningKind::HighBytesInClass,
    );
    add_if(begins_with_caret(text), caret, rule, span, found)?;
    add_if(
        holds_line_end(text),
        WarningKind::HoldsLineEnd,
        rule,
        span,
        found,
    )?;
    add_if(holds_high_byte(text), high, rule, span, found)?;
    add_if(
        has_blanks_around(text),
        WarningKind::BlanksInClass,
        rule,
        span,
        found,
    )
}

/// Adds the warnings about the text of a class. Takes time linear in it.
pub(crate) fn add_of_class(
    file: &[u8],
    rule: u32,
    span: Span,
    found: &mut Vec<Warning>,
) -> Result<(), AllocError>
    ensures { OnOk result ((rules : List Rule) (set : Bytes) → IsPartOfRule rules rule (Class set (extent span))
        → AddsIn file.now rules (FindsClass file.now rule (extent span)) found.old.items found.new.items) }
{
    let Some(text) = text_in(file, span) else {
        return Ok(());
    };
    add_of_whole(text, rule, span, found)?;
    add_of_ranges(file, rule, span, found)
}

/// Adds a warning if the text of a literal goes over the end of a line. Takes time linear in it.
pub(crate) fn add_of_literal(
    file: &[u8],
    rule: u32,
    span: Span,
    found: &mut Vec<Warning>,
) -> Result<(), AllocError>
    ensures { OnOk result ((rules : List Rule) (bytes : List ℕ) → IsPartOfRule rules rule (Literal bytes (extent span))
        → AddsIn file.now rules (FindsLineEnd file.now rule (extent span)) found.old.items found.new.items) }
{
    let Some(text) = text_in(file, span) else {
        return Ok(());
    };
    add_if(
        holds_line_end(text),
        WarningKind::HoldsLineEnd,
        rule,
        span,
        found,
    )
}
