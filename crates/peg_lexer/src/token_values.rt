//! The values that the texts of tokens denote (Ford 2004, section 2.1).
ghost use Rattle.std.specs.Prelude.{◌≡◌, IsTrue, is_some, IfOk, map, string_bytes};
ghost use Rattle.std.specs.Str.{IsUtf8};
ghost use Rattle.peg_bytes.specs.ByteSet.{bytes_of};
ghost use Rattle.peg_lexer.specs.Lexical.{literal, class, quoted_char, classed_range};
ghost use Rattle.peg_lexer.specs.LexicalCode.{spells_of};
ghost use Rattle.peg_lexer.specs.Matchers.{many};
ghost use Rattle.peg_metagrammar.specs.Ranges.{class_of};
ghost use Rattle.peg_metagrammar.specs.RangesCode.{range_of};
ghost use Rattle.peg_metagrammar.specs.Denotation.{bytes_in, ranges_in};

use crate::scan_literals::{classed_range, quoted_char};
use peg_bytes::ByteSet;
use peg_metagrammar::{ByteRange, set_of_ranges};
use std::alloc::{AllocError, Global};

/// Returns the text of a name as a string.
pub fn name_text(alloc: Global, name: &[u8]) -> Result<String, AllocError>
    requires { IsUtf8 name.now }
    ensures { IfOk result (λ text. string_bytes text ≡ name.now) }
{
    let text = str::from_utf8(name).unwrap();
    String::from_str(alloc, text)
}

/// Returns the bytes that the literal at the start of `rest` denotes. Linear in the length of the literal's text.
pub fn literal_bytes(alloc: Global, rest: &[u8]) -> Result<Vec<u8>, AllocError>
    requires { IsTrue (is_some (literal rest.now)) }
    ensures { IfOk result (λ bytes. bytes.items ≡ bytes_in (spells_of (literal rest.now))) }
{
    match rest {
        [quote, ..] => bytes_before(alloc, *quote, &rest[1..]),
        [] => Ok(Vec::new(alloc)),
    }
}

// The bytes denoted by the characters before the closing quote.
fn bytes_before(alloc: Global, quote: u8, rest: &[u8]) -> Result<Vec<u8>, AllocError>
    ensures { IfOk result (λ bytes. bytes.items ≡ bytes_in (many (quoted_char quote) rest.now).spells) }
{
    let mut bytes = Vec::new(alloc);
    let mut at = 0;
    'chars: while let Some(char) = quoted_char(quote, &rest[at..]) {
        bytes.push(char.byte)?;
        at += char.length;
    }
    Ok(bytes)
}

/// Returns the set that the class at the start of `rest` denotes. Linear in the length of the class's text.
pub fn class_of_token(alloc: Global, rest: &[u8]) -> Result<ByteSet, AllocError>
    requires { IsTrue (is_some (class rest.now)) }
    ensures { IfOk result (λ set. bytes_of set ≡ class_of (ranges_in (spells_of (class rest.now)))) }
{
    match rest {
        [_, ..] => {
            let ranges = ranges_before(alloc, &rest[1..])?;
            Ok(set_of_ranges(&ranges))
        }
        [] => Ok(ByteSet::empty()),
    }
}

// The ranges before the closing bracket.
fn ranges_before(alloc: Global, rest: &[u8]) -> Result<Vec<ByteRange>, AllocError>
    ensures { IfOk result (λ ranges. map range_of ranges.items ≡ ranges_in (many classed_range rest.now).spells) }
{
    let mut ranges = Vec::new(alloc);
    let mut at = 0;
    'items: while let Some(item) = classed_range(&rest[at..]) {
        ranges.push(item.bytes)?;
        at += item.length;
    }
    Ok(ranges)
}
