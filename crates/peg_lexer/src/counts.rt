//! Counts: one or two numbers in braces.
ghost use Rattle.std.specs.Prelude.{◌≡◌, ◌<◌, ◌≤◌, length, option_map, IfSome};
ghost use Rattle.peg_metagrammar.specs.Denotation.{decimal};
ghost use Rattle.peg_lexer.specs.Lexical.{digit, number, second_number, count};
ghost use Rattle.peg_lexer.specs.LexicalCode.{saturated_number, number_view, numbers_found, count_view, count_found};
ghost use Rattle.peg_lexer.specs.LexicalCode.{bounds_in_code, count_in_range};
ghost use Rattle.peg_lexer.specs.Matchers.{match_length, many};

use crate::scan_literals::is_digit;

/// The bounds of a count that is in range: the least and greatest number of repetitions.
#[derive(Clone, Copy, Debug, PartialEq, Eq)]
pub struct Bounds {
    pub min: u8,
    pub max: u8,
}

// A number: its value, saturated at `OVERFLOW`, and the length of its text.
#[derive(Clone, Copy, Debug)]
struct NumberText {
    value: u16,
    length: usize,
}

// A count: its bounds, saturated at `OVERFLOW`, and the length of its text.
#[derive(Clone, Copy, Debug)]
struct CountText {
    min: u16,
    max: u16,
    length: usize,
}

// The value of every number over 255; none of them is in range.
const OVERFLOW: u16 = 256;

/// Returns the bounds of the count at the start of `rest`, if they are in range: `min` at most `max`, and `max` from 1
/// to 255. Linear in the length of the count's text, with numbers of any length.
pub fn count_bounds(rest: &[u8]) -> Option<Bounds>
    ensures { option_map bounds_in_code result ≡ count_in_range rest.now }
{
    let count = count_at(rest)?;
    if count.min <= count.max && 1 <= count.max && count.max < OVERFLOW {
        Some(Bounds {
            min: count.min as u8,
            max: count.max as u8,
        })
    } else {
        None
    }
}

/// Returns the length of the count at the start of `rest`. Linear in that length.
pub(crate) fn count(rest: &[u8]) -> Option<usize>
    ensures value { result ≡ match_length (count rest.now) }
    ensures some { IfSome result (λ n. 0 < n) }
    ensures fits { IfSome result (λ n. n ≤ length rest.now) }
{
    let count = count_at(rest)?;
    Some(count.length)
}

fn count_at(rest: &[u8]) -> Option<CountText>
    ensures value { option_map count_view result ≡ option_map count_found (count rest.now) }
    ensures some { IfSome result (λ count. 0 < count.length) }
    ensures fits { IfSome result (λ count. count.length ≤ length rest.now) }
{
    if !rest.starts_with(b"{") {
        return None;
    }
    let first = number(&rest[1..])?;
    let after = 1 + first.length;
    let (max, end) = match second_number(&rest[after..]) {
        Some(second) => (second.value, after + second.length),
        None => (first.value, after),
    };
    if !rest[end..].starts_with(b"}") {
        return None;
    }
    Some(CountText {
        min: first.value,
        max,
        length: end + 1,
    })
}

// A comma and the number after it.
fn second_number(rest: &[u8]) -> Option<NumberText>
    ensures value { option_map number_view result ≡ option_map numbers_found (second_number rest.now) }
    ensures fits { IfSome result (λ number. number.length ≤ length rest.now) }
{
    if !rest.starts_with(b",") {
        return None;
    }
    let number = number(&rest[1..])?;
    Some(NumberText {
        value: number.value,
        length: 1 + number.length,
    })
}

fn number(rest: &[u8]) -> Option<NumberText>
    ensures value { option_map number_view result ≡ option_map numbers_found (number rest.now) }
    ensures fits { IfSome result (λ number. number.length ≤ length rest.now) }
{
    let length = digits(rest);
    if length == 0 {
        return None;
    }
    let value = value_of(&rest[..length]);
    Some(NumberText { value, length })
}

// The number of digits at the start of `rest`.
fn digits(rest: &[u8]) -> usize
    ensures value { result ≡ (many digit rest.now).length }
    ensures fits { result ≤ length rest.now }
{
    let mut at = 0;
    'digits: while let Some(length) = digit_at(&rest[at..]) {
        at += length;
    }
    at
}

// The length of one digit, which is 1.
fn digit_at(rest: &[u8]) -> Option<usize>
    ensures value { result ≡ match_length (digit rest.now) }
    ensures some { IfSome result (λ n. 0 < n) }
    ensures fits { IfSome result (λ n. n ≤ length rest.now) }
{
    match rest {
        [first, ..] if is_digit(*first) => Some(1),
        _ => None,
    }
}

// The value of decimal digits, saturated at `OVERFLOW`.
fn value_of(digits: &[u8]) -> u16
    ensures value { result ≡ saturated_number (decimal digits.now) }
    ensures small { result ≤ 256 }
{
    let mut value = 0;
    for digit in digits {
        value = (10 * value + (digit.saturating_sub(b'0') as u16)).min(OVERFLOW);
    }
    value
}
