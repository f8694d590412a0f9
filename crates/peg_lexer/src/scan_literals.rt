//! The texts of names, literals and classes (Ford 2004, section 2.1).
ghost use Rattle.std.specs.Prelude.{◌≡◌, ◌<◌, ◌≤◌, ◌+◌, length, option_map, IfSome, IsTrue, is_some};
ghost use Rattle.peg_lexer.specs.Lexical.{begins_name, is_digit, in_name, identifier, is_leading_octal, is_hexadecimal};
ghost use Rattle.peg_lexer.specs.Lexical.{escape};
ghost use Rattle.peg_lexer.specs.Lexical.{backslash, char, is_quote, quoted_char, up_to_quote, quoted, literal, range_matcher};
ghost use Rattle.peg_lexer.specs.Lexical.{classed_range, class};
ghost use Rattle.peg_lexer.specs.LexicalCode.{char_piece, range_piece, escaped_char};
ghost use Rattle.peg_lexer.specs.Matchers.{match_length, satisfy, seq_matcher, many};
ghost use Rattle.peg_metagrammar.specs.Denotation.{is_octal, hexadecimal_value};
ghost use Rattle.peg_metagrammar.specs.SimpleEscapes.{is_simple_escape, simple_escape};

use peg_metagrammar::{ByteRange, unescape};

/// A character: the byte that it denotes, and the length of its text.
#[derive(Clone, Copy, Debug)]
pub(crate) struct Char {
    pub(crate) byte: u8,
    pub(crate) length: usize,
}

/// A range of a class as a grammar file spells it: its bytes, and the length of its text in bytes.
#[derive(Clone, Copy, Debug)]
pub struct SpelledRange {
    pub bytes: ByteRange,
    pub length: usize,
}

/// Returns the length of the name at the start of `rest`. Linear in that length.
#[tactic(auto, unfolding(crate::specs::Lexical::identifier))]
pub(crate) fn identifier(rest: &[u8]) -> Option<usize>
    ensures value { result ≡ match_length (identifier rest.now) }
    ensures some { IfSome result (λ n. 0 < n) }
    ensures fits { IfSome result (λ n. n ≤ length rest.now) }
{
    match rest {
        [first, ..] if begins_name(*first) => Some(1 + name_tail(&rest[1..])),
        _ => None,
    }
}

// The number of name bytes at the start of `rest`.
fn name_tail(rest: &[u8]) -> usize
    ensures value { result ≡ (many in_name rest.now).length }
    ensures fits { result ≤ length rest.now }
{
    let mut at = 0;
    'bytes: while let Some(length) = byte_of_name(&rest[at..]) {
        at += length;
    }
    at
}

// One byte, if it can continue a name.
fn byte_of_name(rest: &[u8]) -> Option<usize>
    ensures value { result ≡ match_length (in_name rest.now) }
    ensures some { IfSome result (λ n. 0 < n) }
    ensures fits { IfSome result (λ n. n ≤ length rest.now) }
{
    match rest {
        [first, ..] if begins_name(*first) || is_digit(*first) => Some(1),
        _ => None,
    }
}

// Whether a name can begin with the byte.
pub(crate) fn begins_name(byte: u8) -> bool
    ensures { result ≡ begins_name byte }
{
    matches!(byte, b'a'..=b'z' | b'A'..=b'Z' | b'_')
}

pub(crate) fn is_digit(byte: u8) -> bool
    ensures { result ≡ is_digit byte }
{
    matches!(byte, b'0'..=b'9')
}

/// Returns the length of the literal at the start of `rest`, including its quotes. Linear in that length.
#[tactic(auto, unfolding(crate::specs::Lexical::literal))]
pub(crate) fn literal(rest: &[u8]) -> Option<usize>
    ensures value { result ≡ match_length (literal rest.now) }
    ensures some { IfSome result (λ n. 0 < n) }
    ensures fits { IfSome result (λ n. n ≤ length rest.now) }
{
    match quoted(b'\'', rest) {
        Some(length) => Some(length),
        None => quoted(b'"', rest),
    }
}

// The length of a literal in the given quotes.
#[tactic(auto, unfolding(crate::specs::Lexical::quoted))]
fn quoted(quote: u8, rest: &[u8]) -> Option<usize>
    ensures value { result ≡ match_length (quoted quote rest.now) }
    ensures some { IfSome result (λ n. 0 < n) }
    ensures fits { IfSome result (λ n. n ≤ length rest.now) }
{
    let open = byte_at_start(quote, rest)?;
    let inside = up_to_quote(quote, &rest[open..])?;
    Some(open + inside)
}

// The length of the characters up to and including the closing quote.
fn up_to_quote(quote: u8, rest: &[u8]) -> Option<usize>
    ensures value { result ≡ match_length (up_to_quote quote rest.now) }
    ensures some { IfSome result (λ n. 0 < n) }
    ensures fits { IfSome result (λ n. n ≤ length rest.now) }
{
    let length = chars_before(quote, rest);
    let close = byte_at_start(quote, &rest[length..])?;
    Some(length + close)
}

// One given byte.
fn byte_at_start(byte: u8, rest: &[u8]) -> Option<usize>
    ensures value { result ≡ match_length (satisfy (is_quote byte) rest.now) }
    ensures some { IfSome result (λ n. 0 < n) }
    ensures fits { IfSome result (λ n. n ≤ length rest.now) }
{
    match rest {
        [first, ..] if *first == byte => Some(1),
        _ => None,
    }
}

/// Returns the length of the characters of a literal up to its closing quote, or up to an invalid character: a backslash
/// that begins no escape. Linear in that length.
pub fn chars_before(quote: u8, rest: &[u8]) -> usize
    ensures value { result ≡ (many (quoted_char quote) rest.now).length }
    ensures fits { result ≤ length rest.now }
{
    let mut at = 0;
    'chars: while let Some(char) = quoted_char(quote, &rest[at..]) {
        at += char.length;
    }
    at
}

/// Returns the character at the start of `rest`, unless it is the quote.
pub(crate) fn quoted_char(quote: u8, rest: &[u8]) -> Option<Char>
    ensures value { option_map char_piece result ≡ quoted_char quote rest.now }
    ensures some { IfSome result (λ char. 0 < char.length) }
    ensures fits { IfSome result (λ char. char.length ≤ length rest.now) }
{
    match byte_at_start(quote, rest) {
        Some(_) => None,
        None => char_at(rest),
    }
}

/// Returns the length of the class at the start of `rest`, including its brackets. Linear in that length.
#[tactic(auto, unfolding(crate::specs::Lexical::class))]
pub(crate) fn class(rest: &[u8]) -> Option<usize>
    ensures value { result ≡ match_length (class rest.now) }
    ensures some { IfSome result (λ n. 0 < n) }
    ensures fits { IfSome result (λ n. n ≤ length rest.now) }
{
    if !rest.starts_with(b"[") {
        return None;
    }
    let inside = &rest[1..];
    let length = ranges_before_bracket(inside);
    if !inside[length..].starts_with(b"]") {
        return None;
    }
    Some(length + 2)
}

/// Returns the length of the ranges of a class up to its closing bracket, or up to an invalid range. Linear in that
/// length.
pub fn ranges_before_bracket(rest: &[u8]) -> usize
    ensures value { result ≡ (many classed_range rest.now).length }
    ensures fits { result ≤ length rest.now }
{
    let mut at = 0;
    'items: while let Some(item) = classed_range(&rest[at..]) {
        at += item.length;
    }
    at
}

/// Returns the range of a class at the start of `rest`, unless the closing bracket comes next. Constant time.
pub fn classed_range(rest: &[u8]) -> Option<SpelledRange>
    ensures value { option_map range_piece result ≡ classed_range rest.now }
    ensures some { IfSome result (λ item. 0 < item.length) }
    ensures fits { IfSome result (λ item. item.length ≤ length rest.now) }
{
    if rest.starts_with(b"]") {
        return None;
    }
    range_at(rest)
}

// A range: two characters separated by a dash, or one character.
#[tactic(auto, unfolding(crate::specs::Lexical::range_matcher))]
fn range_at(rest: &[u8]) -> Option<SpelledRange>
    ensures value { option_map range_piece result ≡ range_matcher rest.now }
    ensures some { IfSome result (λ item. 0 < item.length) }
    ensures fits { IfSome result (λ item. item.length ≤ length rest.now) }
{
    let low = char_at(rest)?;
    let alone = SpelledRange {
        bytes: ByteRange {
            low: low.byte,
            high: low.byte,
        },
        length: low.length,
    };
    let rest_after = &rest[low.length..];
    if !rest_after.starts_with(b"-") {
        return Some(alone);
    }
    match char_at(&rest_after[1..]) {
        Some(high) => Some(SpelledRange {
            bytes: ByteRange {
                low: low.byte,
                high: high.byte,
            },
            length: low.length + 1 + high.length,
        }),
        None => Some(alone),
    }
}

// A character: a single byte, or a backslash and an escape.
#[tactic(auto, unfolding(crate::specs::Lexical::char))]
fn char_at(rest: &[u8]) -> Option<Char>
    ensures value { option_map char_piece result ≡ char rest.now }
    ensures some { IfSome result (λ char. 0 < char.length) }
    ensures fits { IfSome result (λ char. char.length ≤ length rest.now) }
{
    match rest {
        [b'\\', ..] => escape(&rest[1..]),
        [byte, ..] => Some(Char {
            byte: *byte,
            length: 1,
        }),
        [] => None,
    }
}

// The escape after a backslash. It is x and two hexadecimal digits, an escape letter, or one to three octal digits.
// Three octal digits are read only if the first is at most 2.
fn escape(rest: &[u8]) -> Option<Char>
    ensures value { option_map char_piece result ≡ escaped_char rest.now }
    ensures some { IfSome result (λ char. 0 < char.length) }
    ensures fits { IfSome result (λ char. char.length ≤ length rest.now + 1) }
{
    match rest {
        [b'x', high, low, ..] if is_hexadecimal(*high) && is_hexadecimal(*low) => Some(Char {
            byte: 16 * hexadecimal_digit(*high) + hexadecimal_digit(*low),
            length: 4,
        }),
        [sign, ..] if is_simple_escape(*sign) => Some(Char {
            byte: unescape_simple(*sign),
            length: 2,
        }),
        [first, second, third, ..]
            if is_leading_octal(*first) && is_octal(*second) && is_octal(*third) => Some(Char {
            byte: 64 * (*first - b'0') + 8 * (*second - b'0') + (*third - b'0'),
            length: 4,
        }),
        [first, second, ..] if is_octal(*first) && is_octal(*second) => Some(Char {
            byte: 8 * (*first - b'0') + (*second - b'0'),
            length: 3,
        }),
        [digit, ..] if is_octal(*digit) => Some(Char {
            byte: *digit - b'0',
            length: 2,
        }),
        _ => None,
    }
}

fn hexadecimal_digit(digit: u8) -> u8
    requires { IsTrue (is_hexadecimal digit) }
    ensures value { result ≡ hexadecimal_value digit }
    ensures small { result < 16 }
{
    match digit {
        b'0'..=b'9' => digit - b'0',
        b'A'..=b'F' => digit - b'A' + 10,
        _ => digit - b'a' + 10,
    }
}

// The byte that a simple escape denotes.
fn unescape_simple(sign: u8) -> u8
    ensures { result ≡ simple_escape sign }
{
    unescape(sign).unwrap_or(sign)
}

// Whether the byte can be escaped by a backslash alone.
fn is_simple_escape(byte: u8) -> bool
    ensures { result ≡ is_simple_escape byte }
{
    unescape(byte).is_some()
}

// Whether the byte can be the first of three octal digits.
fn is_leading_octal(byte: u8) -> bool
    ensures { result ≡ is_leading_octal byte }
{
    matches!(byte, b'0'..=b'2')
}

fn is_octal(byte: u8) -> bool
    ensures { result ≡ is_octal byte }
{
    matches!(byte, b'0'..=b'7')
}

// Whether the byte is a hexadecimal digit, upper or lower case.
fn is_hexadecimal(byte: u8) -> bool
    ensures { result ≡ is_hexadecimal byte }
{
    matches!(byte, b'0'..=b'9' | b'a'..=b'f' | b'A'..=b'F')
}
