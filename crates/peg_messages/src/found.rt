//! What is found at a position of a text.
ghost use Rattle.std.specs.Prelude.{◌≡◌, ◌==◌, ◌||◌, ◌<◌, ◌≤◌, ◌++◌, OnOk, codes, length};
ghost use Rattle.std.specs.List.{flat_map, prefix_len};
ghost use Rattle.peg_messages.specs.Found.{begins_like, character_text, found_len, found_text, is_in_word};
ghost use Rattle.peg_messages.specs.Found.{item_length, literal_length, longest_literal, name_text, part_text};
ghost use Rattle.peg_messages.specs.Found.{word_len};
ghost use Rattle.peg_messages.specs.Shown.{escape_text, shown};
ghost use Rattle.peg_messages.specs.declared.shown.Style.TheVariants.{Quoted};

use crate::blanks::is_blank;
use crate::character_names::{invisible_name, lookalike_name};
use crate::characters::character_len;
use crate::items::{Item, span_bytes};
use crate::shown::{Style, write_character, write_escape, write_shown};
use crate::source::{part_of, unsplit};
use peg_lexer::chars_before;
use std::alloc::AllocError;

/// Writes what is found at a position of a text: the word there, if it is longer than one character, of at most `most`
/// bytes; otherwise the character, or that the text ends there. Takes time linear in what is written.
pub(crate) fn write_found(
    text: &[u8],
    at: u32,
    most: usize,
    out: &mut Vec<u8>,
) -> Result<(), AllocError>
    ensures { OnOk result (out.new.items ≡ out.old.items ++ found_text text.now at most) }
{
    let at = at as usize;
    if at >= text.len() {
        return out.extend_from_slice(b"the end");
    }
    write_part(&text[at..], most, out)
}

// Writes the word or the character at the start of a text.
fn write_part(rest: &[u8], most: usize, out: &mut Vec<u8>) -> Result<(), AllocError>
    requires { 0 < length rest.now }
    ensures { OnOk result (out.new.items ≡ out.old.items ++ part_text rest.now most) }
{
    let word = word_len(rest, most);
    if character_len(rest) < word {
        return write_word(&rest[..word], out);
    }
    let character = &rest[..found_len(rest)];
    write_found_character(character, invisible_name(character), out)
}

// Writes a word in quotes.
fn write_word(word: &[u8], out: &mut Vec<u8>) -> Result<(), AllocError>
    ensures { OnOk result (out.new.items ≡ out.old.items ++ codes "'" ++ shown Quoted word.now ++ codes "'") }
{
    out.extend_from_slice(b"'")?;
    write_shown(Style::Quoted, word, out)?;
    out.extend_from_slice(b"'")
}

// Writes a character in quotes, and its name if it has one.
fn write_found_character(
    character: &[u8],
    invisible: &[u8],
    out: &mut Vec<u8>,
) -> Result<(), AllocError>
    ensures { OnOk result (out.new.items ≡ out.old.items ++ character_text character.now invisible.now) }
{
    out.extend_from_slice(b"'")?;
    if invisible.is_empty() {
        write_character(Style::Quoted, character, out)?;
        out.extend_from_slice(b"'")?;
        write_name(lookalike_name(character), out)
    } else {
        write_escapes(character, out)?;
        out.extend_from_slice(b"'")?;
        write_name(invisible, out)
    }
}

// Writes a name in parentheses, if there is one.
fn write_name(name: &[u8], out: &mut Vec<u8>) -> Result<(), AllocError>
    ensures { OnOk result (out.new.items ≡ out.old.items ++ name_text name.now) }
{
    if name.is_empty() {
        return Ok(());
    }
    out.extend_from_slice(b" (")?;
    out.extend_from_slice(name)?;
    out.extend_from_slice(b")")
}

// Writes the escape of each byte.
fn write_escapes(bytes: &[u8], out: &mut Vec<u8>) -> Result<(), AllocError>
    ensures { OnOk result (out.new.items ≡ out.old.items ++ flat_map escape_text bytes.now) }
{
    'bytes: for byte in bytes {
        write_escape(*byte, out)?;
    }
    Ok(())
}

// Returns the length of the first character of a text. A line end of two bytes is one character.
fn found_len(rest: &[u8]) -> usize
    requires { 0 < length rest.now }
    ensures value { result ≡ found_len rest.now }
    ensures within { result ≤ length rest.now }
{
    if part_of(rest, 0, 2) == b"\r\n".as_slice() {
        2
    } else {
        character_len(rest)
    }
}

// Returns the length of the word at the start of a text, in at most `most` bytes.
fn word_len(rest: &[u8], most: usize) -> usize
    ensures value { result ≡ word_len rest.now most }
    ensures within { result ≤ length rest.now }
{
    unsplit(rest, bytes_of_word(part_of(rest, 0, most)))
}

// Returns the number of bytes before the first blank.
fn bytes_of_word(bytes: &[u8]) -> usize
    ensures value { result ≡ prefix_len is_in_word bytes.now }
    ensures within { result ≤ length bytes.now }
{
    'word: for length in 0..bytes.len() {
        if is_blank(bytes[length]) {
            return length;
        }
    }
    bytes.len()
}

/// Returns the number of bytes of the longest literal among the items that begins like the text. Takes time linear in
/// the spans of the items.
pub(crate) fn longest_literal(grammar: &[u8], first: u8, items: &[Item<'_>]) -> usize
    ensures { result ≡ longest_literal grammar.now first items.now }
{
    let mut longest = 0;
    'items: for item in items {
        longest = longest.max(item_length(grammar, first, item));
    }
    longest
}

// Returns the number of bytes of an item, if it is written as a literal that begins with this byte, otherwise 0.
fn item_length(grammar: &[u8], first: u8, item: &Item<'_>) -> usize
    ensures { result ≡ item_length grammar.now first item.now }
{
    match item.name {
        Some(_) => 0,
        None => literal_length(first, span_bytes(grammar, item.span)),
    }
}

// Returns the number of bytes in the quotes of a literal that begins with this byte, otherwise 0.
fn literal_length(first: u8, spelling: &[u8]) -> usize
    ensures { result ≡ literal_length first spelling.now }
{
    match spelling {
        [quote, inside @ ..] if is_quote(*quote) && begins_like(first, inside) => {
            chars_before(*quote, inside)
        }
        _ => 0,
    }
}

// Returns whether a byte is a quote of a literal.
fn is_quote(byte: u8) -> bool
    ensures { result ≡ (byte == 39 || byte == 34) }
{
    byte == b'\'' || byte == b'"'
}

// Returns whether the bytes in the quotes of a literal begin with this letter, in either case, or with this byte.
fn begins_like(first: u8, inside: &[u8]) -> bool
    ensures { result ≡ begins_like first inside.now }
{
    match inside {
        [byte, ..] => byte.to_ascii_lowercase() == first.to_ascii_lowercase(),
        [] => false,
    }
}
