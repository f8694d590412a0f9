//! Finding why a grammar file isn't in the notation.
ghost use Rattle.std.specs.Prelude.{◌≡◌, ◌+◌, ◌<◌, ◌≤◌, length};
ghost use Rattle.std.specs.List.{prefix_len};
ghost use Rattle.peg_bytes.specs.Place.{max_offset};
ghost use Rattle.peg_messages.specs.SyntaxCauses.{byte_before, can_be_labelled, cause_from, inside_length, is_at_mark};
ghost use Rattle.peg_messages.specs.SyntaxCauses.{is_label, is_name_byte, is_no_break_space, is_other_arrow};
ghost use Rattle.peg_messages.specs.SyntaxCauses.{has_arrow, is_capture, is_digit, is_named_class, is_open_count};
ghost use Rattle.peg_messages.specs.SyntaxCauses.{is_open_range, line_before};
ghost use Rattle.peg_messages.specs.SyntaxCauses.{is_other_brace, is_other_comment, open_cause, opened_cause};
ghost use Rattle.peg_messages.specs.SyntaxCauses.{syntax_cause, token_cause};
ghost use Rattle.peg_messages.specs.SyntaxCausesCode.{IsBelow};

use crate::bytes::{byte_at, bytes_after};
use crate::causes::SyntaxCause;
use crate::source::part_of;
use peg_bytes::place;
use peg_lexer::{chars_before, count_bounds, ranges_before_bracket};

/// Returns why a grammar file isn't in the notation, given the offset at which it is refused. Takes time linear in the
/// literal or class that begins there.
pub fn syntax_cause(file: &[u8], at: u32) -> SyntaxCause
    requires { length file.now ≤ max_offset }
    ensures cause { result ≡ syntax_cause file.now at }
    ensures within { IsBelow (length file.now) result }
{
    if file.len() <= at as usize {
        return SyntaxCause::EndsEarly;
    }
    if is_at_mark(file, at) {
        return SyntaxCause::ByteOrderMark;
    }
    if is_other_comment(file, at) {
        return SyntaxCause::OtherComment;
    }
    if is_label(file, at) {
        return SyntaxCause::Label;
    }
    if is_capture(file, at) {
        return SyntaxCause::Capture;
    }
    cause_from(at, &file[at as usize..])
}

// Returns whether a file begins with a byte order mark, at the offset.
fn is_at_mark(file: &[u8], at: u32) -> bool
    ensures { result ≡ is_at_mark file.now at }
{
    at == 0 && file.starts_with(b"\xEF\xBB\xBF")
}

// Returns whether `/*` or `//` is at an offset, or a star after a slash.
fn is_other_comment(file: &[u8], at: u32) -> bool
    ensures { result ≡ is_other_comment file.now at }
{
    let (here, next) = (byte_at(file, at as usize), byte_at(file, at as usize + 1));
    (here == b'/' && (next == b'*' || next == b'/'))
        || (here == b'*' && byte_before(file, at) == b'/')
}

// Returns whether a colon is at an offset, between a name and an expression without a blank.
fn is_label(file: &[u8], at: u32) -> bool
    ensures { result ≡ is_label file.now at }
{
    byte_at(file, at as usize) == b':'
        && is_name_byte(byte_before(file, at))
        && can_be_labelled(byte_at(file, at as usize + 1))
}

// Returns whether `<` is at an offset, in a line that has an arrow before it.
fn is_capture(file: &[u8], at: u32) -> bool
    requires in_file { at ≤ length file.now }
    requires small { at ≤ max_offset }
    ensures { result ≡ is_capture file.now at }
{
    byte_at(file, at as usize) == b'<'
        && byte_at(file, at as usize + 1) != b'-'
        && has_arrow(line_before(file, at))
}

// Returns the bytes of a line before an offset.
fn line_before(file: &[u8], at: u32) -> &[u8]
    requires in_file { at ≤ length file.now }
    requires small { at ≤ max_offset }
    ensures { result.now ≡ line_before file.now at }
{
    let column = place(file, at).column - 1;
    part_of(file, (at - column) as usize, at as usize)
}

// Returns whether some bytes have an arrow.
fn has_arrow(bytes: &[u8]) -> bool
    ensures { result ≡ has_arrow bytes.now }
{
    let mut rest = bytes;
    'bytes: while let [byte, others @ ..] = rest {
        if *byte == b'<' && byte_at(others, 0) == b'-' {
            return true;
        }
        rest = others;
    }
    false
}

/// Returns the byte before an offset, or 0 at the start.
pub(crate) fn byte_before(file: &[u8], at: u32) -> u8
    ensures { result ≡ byte_before file.now at }
{
    if at == 0 {
        return 0;
    }
    byte_at(file, at as usize - 1)
}

// Returns whether a label before this byte would be one of other notations.
fn can_be_labelled(byte: u8) -> bool
    ensures { result ≡ can_be_labelled byte }
{
    33 <= byte && byte != b':' && byte != b'='
}

/// Returns whether a name may have this byte.
pub(crate) fn is_name_byte(byte: u8) -> bool
    ensures { result ≡ is_name_byte byte }
{
    (97 <= byte && byte <= 122)
        || (65 <= byte && byte <= 90)
        || (48 <= byte && byte <= 57)
        || byte == b'_'
}

// Returns the cause at an offset, from which on the file has these bytes.
#[tactic(auto, unfolding(crate::specs::SyntaxCauses::cause_from))]
fn cause_from(at: u32, rest: &[u8]) -> SyntaxCause
    requires { at + length rest.now ≤ max_offset }
    ensures cause { result ≡ cause_from at rest.now }
    ensures within { IsBelow (at + length rest.now) result }
{
    let first = byte_at(rest, 0);
    if first == b'\'' || first == b'"' {
        opened_cause(false, first, at, bytes_after(rest, 1))
    } else if first == b'[' {
        opened_cause(true, b']', at, bytes_after(rest, 1))
    } else {
        token_cause(rest)
    }
}

// Returns the cause where a literal or class begins, given what follows its first byte.
#[tactic(auto, unfolding(crate::specs::SyntaxCauses::opened_cause))]
fn opened_cause(is_class: bool, close: u8, at: u32, inside: &[u8]) -> SyntaxCause
    requires { at + 1 + length inside.now ≤ max_offset }
    ensures cause { result ≡ opened_cause is_class close at inside.now }
    ensures within { IsBelow (at + 1 + length inside.now) result }
{
    let end = inside_length(is_class, close, inside);
    if inside.len() <= end {
        open_cause(is_class)
    } else if byte_at(inside, end) == close {
        SyntaxCause::Unexpected
    } else {
        SyntaxCause::BadEscape {
            at: at + 1 + end as u32,
        }
    }
}

// Returns how many bytes of a literal or class the lexer can read, given what follows its first byte.
fn inside_length(is_class: bool, close: u8, inside: &[u8]) -> usize
    ensures value { result ≡ inside_length is_class close inside.now }
    ensures within { result ≤ length inside.now }
{
    if is_class {
        ranges_before_bracket(inside)
    } else {
        chars_before(close, inside)
    }
}

// Returns the cause of a literal or class without a closing byte.
fn open_cause(is_class: bool) -> SyntaxCause
    ensures { result ≡ open_cause is_class }
{
    if is_class {
        SyntaxCause::OpenClass
    } else {
        SyntaxCause::OpenLiteral
    }
}

// Returns the cause where no literal or class begins.
fn token_cause(rest: &[u8]) -> SyntaxCause
    ensures cause { result ≡ token_cause rest.now }
    ensures within { IsBelow 0 result }
{
    match byte_at(rest, 0) {
        b'#' => SyntaxCause::OpenComment,
        b'\\' => SyntaxCause::BareEscape,
        _ if is_open_count(rest) => SyntaxCause::OpenCount,
        _ if is_other_brace(rest) => SyntaxCause::Braces,
        _ if is_named_class(rest) => SyntaxCause::NamedClass,
        _ if is_no_break_space(rest) => SyntaxCause::NoBreakSpace,
        _ if is_other_arrow(rest) => SyntaxCause::NoArrow,
        b'|' => SyntaxCause::Bar,
        b';' => SyntaxCause::Semicolon,
        _ => SyntaxCause::Unexpected,
    }
}

// Returns whether some bytes begin with a brace, and with no count.
fn is_other_brace(rest: &[u8]) -> bool
    ensures { result ≡ is_other_brace rest.now }
{
    byte_at(rest, 0) == b'{' && count_bounds(rest).is_none()
}

// Returns whether some bytes begin with a count that has no second number.
fn is_open_count(rest: &[u8]) -> bool
    ensures { result ≡ is_open_count rest.now }
{
    byte_at(rest, 0) == b'{' && is_open_range(bytes_after(rest, 1))
}

// Returns whether some bytes begin with digits, a comma and a closing brace.
fn is_open_range(inside: &[u8]) -> bool
    ensures { result ≡ is_open_range inside.now }
{
    let digits = digit_count(inside);
    let after = bytes_after(inside, digits);
    0 < digits && byte_at(after, 0) == b',' && byte_at(after, 1) == b'}'
}

// Returns the number of digits with which some bytes begin.
fn digit_count(bytes: &[u8]) -> usize
    ensures { result ≡ prefix_len is_digit bytes.now }
{
    'digits: for count in 0..bytes.len() {
        if !is_digit(bytes[count]) {
            return count;
        }
    }
    bytes.len()
}

fn is_digit(byte: u8) -> bool
    ensures { result ≡ is_digit byte }
{
    48 <= byte && byte <= 57
}

// Returns whether some bytes begin with a percent sign and a name.
fn is_named_class(rest: &[u8]) -> bool
    ensures { result ≡ is_named_class rest.now }
{
    byte_at(rest, 0) == b'%' && is_name_byte(byte_at(rest, 1))
}

// Returns whether some bytes begin with a no-break space.
fn is_no_break_space(rest: &[u8]) -> bool
    ensures { result ≡ is_no_break_space rest.now }
{
    byte_at(rest, 0) == 0xC2 && byte_at(rest, 1) == 0xA0
}

// Returns whether some bytes begin with another sign for the arrow of a definition.
fn is_other_arrow(rest: &[u8]) -> bool
    ensures { result ≡ is_other_arrow rest.now }
{
    let (first, second) = (byte_at(rest, 0), byte_at(rest, 1));
    first == b'='
        || first == b':'
        || (first == b'-' && second == b'>')
        || (first == b'<' && second != b'-')
}
