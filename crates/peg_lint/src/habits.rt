//! Habits of other notations in the texts of classes, ranges and literals.
ghost use Rattle.std.specs.Prelude.{◌≡◌, false, IfNone, IfSome};
ghost use Rattle.peg_bytes.specs.Extent.{extent};
ghost use Rattle.peg_lint.specs.Habits.{are_of_two_kinds, are_signs_around_dash, begins_with_caret, ends_in_bracket};
ghost use Rattle.peg_lint.specs.Habits.{goes_over_signs, has_blanks_around, holds_high_byte};
ghost use Rattle.peg_lint.specs.Habits.{IsWithin, has_closing, holds_line_end, text_in};

use peg_bytes::Span;

/// Returns the text of a file in a span, if the file is long enough.
pub(crate) fn text_in(file: &[u8], span: Span) -> Option<&[u8]>
    ensures text { IfSome result (λ text. text.now ≡ text_in file.now (extent span)) }
    ensures within { IfSome result (λ text. IsWithin file.now (extent span)) }
    ensures outside { IfNone result (¬ IsWithin file.now (extent span)) }
{
    file.get(span.start as usize..span.end as usize)
}

/// Returns whether the text of a class begins with a caret.
pub(crate) fn begins_with_caret(text: &[u8]) -> bool
    ensures { result ≡ begins_with_caret text.now }
{
    text.starts_with(b"[^")
}

/// Returns whether the last character of the text of a range is a bracket without a backslash.
pub(crate) fn ends_in_bracket(text: &[u8]) -> bool
    ensures { result ≡ ends_in_bracket text.now }
{
    text.ends_with(b"-]")
}

// Returns whether one byte is a digit and the other a letter, or one a capital letter and the other a small one.
fn are_of_two_kinds(low: u8, high: u8) -> bool
    ensures { result ≡ are_of_two_kinds low high }
{
    match (low, high) {
        (b'0'..=b'9', b'A'..=b'Z' | b'a'..=b'z') | (b'A'..=b'Z', b'a'..=b'z') => true,
        _ => false,
    }
}

// Returns whether one byte is a sign between `!` and the dash, and the other one between the dash and the digits.
fn are_signs_around_dash(low: u8, high: u8) -> bool
    ensures { result ≡ are_signs_around_dash low high }
{
    b'!' < low && low < b'-' && b'-' < high && high < b'0'
}

/// Returns whether the text of a range has three characters, and the range goes over signs.
pub(crate) fn goes_over_signs(text: &[u8]) -> bool
    ensures { result ≡ goes_over_signs text.now }
{
    match text {
        [low, _, high] => are_of_two_kinds(*low, *high) || are_signs_around_dash(*low, *high),
        _ => false,
    }
}

/// Returns whether a text goes over the end of a line.
pub(crate) fn holds_line_end(text: &[u8]) -> bool
    ensures { result ≡ holds_line_end text.now }
{
    text.contains(&b'\n') || text.contains(&b'\r')
}

/// Returns whether a text has a byte that isn't ASCII.
pub(crate) fn holds_high_byte(text: &[u8]) -> bool
    ensures { result ≡ holds_high_byte text.now }
{
    text.iter().any(|byte| *byte >= 128)
}

/// Returns whether the text of a class has a space at both ends, and something between them.
pub(crate) fn has_blanks_around(text: &[u8]) -> bool
    ensures { result ≡ has_blanks_around text.now }
{
    text.starts_with(b"[ ") && text.ends_with(b" ]") && text.len() >= 5
}

/// Returns whether a text has a closing parenthesis outside comments.
pub(crate) fn has_closing(text: &[u8]) -> bool
    ensures { result ≡ has_closing false text.now }
{
    let mut is_comment = false;
    'bytes: for byte in text {
        if is_comment {
            is_comment = *byte != b'\n' && *byte != b'\r';
        } else if *byte == b')' {
            return true;
        } else {
            is_comment = *byte == b'#';
        }
    }
    false
}
