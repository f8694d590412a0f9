//! Bytes as they are shown in a message.
ghost use Rattle.std.specs.Prelude.{◌≡◌, ◌≤◌, ◌<◌, ◌++◌, OnOk, length, replicate};
ghost use Rattle.peg_messages.specs.Shown.{escape_text, is_printable, printable_text, shown, shown_byte};
ghost use Rattle.peg_messages.specs.Shown.{shown_character, upper_hex_digit};

use crate::characters::character_len;
use std::alloc::AllocError;

/// Where bytes are shown.
#[derive(Clone, Copy, PartialEq, Eq)]
pub(crate) enum Style {
    /// In a line of a file.
    Line,
    /// In the spelling of an expression.
    Spelling,
    /// Between single quotes.
    Quoted,
    /// Below a line, as blanks of the same width.
    Blanks,
}

/// Writes bytes, character by character. Takes time linear in the bytes.
pub(crate) fn write_shown(style: Style, bytes: &[u8], out: &mut Vec<u8>) -> Result<(), AllocError>
    ensures { OnOk result (out.new.items ≡ out.old.items ++ shown style bytes.now) }
{
    let mut rest = bytes;
    'characters: while !rest.is_empty() {
        let length = character_len(rest);
        write_character(style, &rest[..length], out)?;
        rest = &rest[length..];
    }
    Ok(())
}

/// Writes a character.
pub(crate) fn write_character(
    style: Style,
    character: &[u8],
    out: &mut Vec<u8>,
) -> Result<(), AllocError>
    ensures { OnOk result (out.new.items ≡ out.old.items ++ shown_character style character.now) }
{
    if character.len() == 1 {
        write_byte(style, character[0], out)
    } else if style == Style::Blanks {
        out.extend_from_slice(b" ")
    } else {
        out.extend_from_slice(character)
    }
}

// Writes a byte that is a character of its own.
fn write_byte(style: Style, byte: u8, out: &mut Vec<u8>) -> Result<(), AllocError>
    ensures { OnOk result (out.new.items ≡ out.old.items ++ shown_byte style byte) }
{
    match style {
        Style::Line => write_in_line(byte, out),
        Style::Spelling => write_printed(byte, out),
        Style::Quoted => write_quoted(byte, out),
        Style::Blanks => write_blanks(byte, out),
    }
}

fn write_in_line(byte: u8, out: &mut Vec<u8>) -> Result<(), AllocError>
    ensures { OnOk result (out.new.items ≡ out.old.items ++ shown_byte Style.Line byte) }
{
    if byte == b'\t' {
        return out.extend_from_slice(b"\t");
    }
    write_printed(byte, out)
}

fn write_quoted(byte: u8, out: &mut Vec<u8>) -> Result<(), AllocError>
    ensures { OnOk result (out.new.items ≡ out.old.items ++ shown_byte Style.Quoted byte) }
{
    if byte == b'\'' || byte == b'\\' {
        return out.extend_from_slice(&[b'\\', byte]);
    }
    write_printed(byte, out)
}

fn write_blanks(byte: u8, out: &mut Vec<u8>) -> Result<(), AllocError>
    ensures { OnOk result (out.new.items ≡ out.old.items ++ shown_byte Style.Blanks byte) }
{
    if byte == b'\t' {
        return out.extend_from_slice(b"\t");
    }
    out.extend_from_slice(blanks_below(byte))
}

// Returns the blanks below a byte: as many as its escape has bytes, or one.
#[tactic(auto, unfolding(crate::specs::Shown::printable_text))]
fn blanks_below(byte: u8) -> &'static [u8]
    ensures { result.now ≡ replicate (length (printable_text byte)) 32 }
{
    if is_printable(byte) {
        b" "
    } else if byte == b'\n' || byte == b'\r' || byte == b'\t' {
        b"  "
    } else {
        b"    "
    }
}

// Writes a byte as it is if it is printable, otherwise its escape.
#[tactic(auto, unfolding(crate::specs::Shown::printable_text))]
fn write_printed(byte: u8, out: &mut Vec<u8>) -> Result<(), AllocError>
    ensures { OnOk result (out.new.items ≡ out.old.items ++ printable_text byte) }
{
    if is_printable(byte) {
        return out.extend_from_slice(&[byte]);
    }
    write_escape(byte, out)
}

/// Writes the escape of a byte.
pub(crate) fn write_escape(byte: u8, out: &mut Vec<u8>) -> Result<(), AllocError>
    ensures { OnOk result (out.new.items ≡ out.old.items ++ escape_text byte) }
{
    match byte {
        b'\n' => out.extend_from_slice(b"\\n"),
        b'\r' => out.extend_from_slice(b"\\r"),
        b'\t' => out.extend_from_slice(b"\\t"),
        _ => out.extend_from_slice(&[
            b'\\',
            b'x',
            upper_hex_digit(byte / 16),
            upper_hex_digit(byte % 16),
        ]),
    }
}

// Returns whether a byte is a space or a visible ASCII character.
fn is_printable(byte: u8) -> bool
    ensures { result ≡ is_printable byte }
{
    (32..=126).contains(&byte)
}

// Returns a hexadecimal digit.
fn upper_hex_digit(digit: u8) -> u8
    requires { digit < 16 }
    ensures { result ≡ upper_hex_digit digit }
{
    if digit < 10 { 48 + digit } else { 55 + digit }
}
