//! Sentences that say why a grammar file is refused.
ghost use Rattle.std.specs.Prelude.{◌≡◌, ◌≤◌, ◌<◌, ◌+◌, ◌++◌, OnOk, codes, drop, length, map, option_map};
ghost use Rattle.std.specs.List.{flat_map};
ghost use Rattle.peg_bytes.specs.Place.{max_offset};
ghost use Rattle.peg_messages.specs.Sentences.{arrow_hint, arrowed, backslash_text, cause_sentence, dash_hint};
ghost use Rattle.peg_messages.specs.Sentences.{escape_sentence};
ghost use Rattle.peg_messages.specs.Sentences.{foreign_sentence, name_from, path_text, reason_sentence};
ghost use Rattle.peg_messages.specs.Sentences.{is_case_flag, meant_question, rule_sentence, token_text, undefined_sentence};

use crate::bytes::{byte_at, bytes_after};
use crate::causes::SyntaxCause;
use crate::characters::character_len;
use crate::found::write_found;
use crate::reason::Reason;
use crate::shown::{Style, write_character};
use crate::source::part_of;
use crate::syntax::{byte_before, is_name_byte, syntax_cause};
use std::alloc::AllocError;

/// Writes why a grammar file is refused.
pub(crate) fn write_sentence(
    file: &[u8],
    reason: &Reason<'_>,
    out: &mut Vec<u8>,
) -> Result<(), AllocError>
    requires { length file.now ≤ max_offset }
    ensures { OnOk result (out.new.items ≡ out.old.items ++ reason_sentence file.now reason.now) }
{
    match *reason {
        Reason::FileTooLong => out.extend_from_slice(
            b"the grammar file is longer than 1048576 bytes",
        ),
        Reason::Syntax { at } => write_cause(file, at, syntax_cause(file, at), out),
        Reason::TooNested { .. } => out.extend_from_slice(b"parentheses nest deeper than 200"),
        Reason::BadCount { .. } => out.extend_from_slice(
            b"a count ends at 1 to 255, and its first number is at most its second",
        ),
        Reason::NoRule => out.extend_from_slice(b"the file has no rule"),
        Reason::Duplicate { name, .. } => write_rule(name, b" is defined twice", out),
        Reason::Undefined { name, meant, at } => write_undefined(file, name, meant, at, out),
        Reason::TooManyParts => out.extend_from_slice(b"the grammar has more than 4194304 parts"),
        Reason::EmptyLoop { rule, .. } => write_two(
            b"this repetition matches the empty text again and again, in ",
            rule.as_bytes(),
            out,
        ),
        Reason::LeftRecursion { path, .. } => write_cycle(path, out),
        Reason::CodeTooLarge => {
            out.extend_from_slice(b"the code would have more than 1000000 instructions")
        }
    }
}

// Writes the cause of a syntax error at an offset.
fn write_cause(
    file: &[u8],
    at: u32,
    cause: SyntaxCause,
    out: &mut Vec<u8>,
) -> Result<(), AllocError>
    ensures { OnOk result (out.new.items ≡ out.old.items ++ cause_sentence file.now at cause) }
{
    match cause {
        SyntaxCause::EndsEarly => out.extend_from_slice(b"the file ends too early"),
        SyntaxCause::ByteOrderMark => {
            out.extend_from_slice(b"the notation has no byte order mark: remove it")
        }
        SyntaxCause::OpenComment => out.extend_from_slice(b"this comment has no line end"),
        SyntaxCause::OpenLiteral => out.extend_from_slice(b"this literal isn't closed"),
        SyntaxCause::OpenClass => out.extend_from_slice(
            b"this class isn't closed: a bracket after a dash, as in [a-], ends a range",
        ),
        SyntaxCause::BadEscape { at } => write_escape_fault(
            bytes_after(file, at as usize + 1),
            out,
        ),
        SyntaxCause::Unexpected => write_unexpected(file, at, out),
        SyntaxCause::NoArrow => write_arrow_fault(bytes_after(file, at as usize), out),
        SyntaxCause::OtherComment
        | SyntaxCause::Label
        | SyntaxCause::BareEscape
        | SyntaxCause::OpenCount
        | SyntaxCause::Braces
        | SyntaxCause::NamedClass
        | SyntaxCause::Capture
        | SyntaxCause::NoBreakSpace
        | SyntaxCause::Bar
        | SyntaxCause::Semicolon => out.extend_from_slice(foreign_sentence(cause)),
    }
}

// Returns what is written in place of a form of other notations, or nothing for other causes.
fn foreign_sentence<'a>(cause: SyntaxCause) -> &'a [u8]
    ensures { result.now ≡ foreign_sentence cause }
{
    match cause {
        SyntaxCause::OtherComment => b"a comment begins with #",
        SyntaxCause::Label => b"there are no labels: give the part a rule of its own",
        SyntaxCause::BareEscape => b"an escape is written in a literal or a class, as in [\\t]",
        SyntaxCause::OpenCount => b"a count needs both numbers: write e e+ for two or more",
        SyntaxCause::Braces => b"a count is written {2} or {2,4}",
        SyntaxCause::NamedClass => {
            b"there are no named classes: write a class in brackets, as in [a-zA-Z0-9]"
        }
        SyntaxCause::Capture => b"there are no captures: give the part a rule of its own",
        SyntaxCause::NoBreakSpace => b"unexpected '\\xC2\\xA0' (no-break space): write a blank",
        SyntaxCause::Bar => b"alternatives are separated by /, not by |",
        SyntaxCause::Semicolon => b"a definition doesn't end in a semicolon",
        SyntaxCause::EndsEarly
        | SyntaxCause::ByteOrderMark
        | SyntaxCause::OpenComment
        | SyntaxCause::OpenLiteral
        | SyntaxCause::OpenClass
        | SyntaxCause::BadEscape { .. }
        | SyntaxCause::NoArrow
        | SyntaxCause::Unexpected => b"",
    }
}

// Writes how a definition is written, where it has another arrow.
fn write_arrow_fault(rest: &[u8], out: &mut Vec<u8>) -> Result<(), AllocError>
    ensures { OnOk result (out.new.items
        ≡ out.old.items ++ (codes "a definition is written NAME <- EXPRESSION" ++ arrow_hint rest.now)) }
{
    write_two(
        b"a definition is written NAME <- EXPRESSION",
        arrow_hint(rest),
        out,
    )
}

// Returns what to write in place of an arrow, if the bytes begin with one of other notations.
fn arrow_hint(rest: &[u8]) -> &'static [u8]
    ensures { result.now ≡ arrow_hint rest.now }
{
    if byte_at(rest, 1) != b'>' {
        b""
    } else if byte_at(rest, 0) == b'-' {
        b": write <- in place of ->"
    } else if byte_at(rest, 0) == b'=' {
        b": write <- in place of =>"
    } else {
        b""
    }
}

// Writes what is at an offset and isn't expected there.
fn write_unexpected(file: &[u8], at: u32, out: &mut Vec<u8>) -> Result<(), AllocError>
    ensures { OnOk result (out.new.items ≡ out.old.items ++ cause_sentence file.now at SyntaxCause.Unexpected) }
{
    out.extend_from_slice(b"unexpected ")?;
    write_token(file, at, out)
}

// Writes the name at an offset, or the character.
fn write_token(file: &[u8], at: u32, out: &mut Vec<u8>) -> Result<(), AllocError>
    ensures { OnOk result (out.new.items ≡ out.old.items ++ token_text file.now at) }
{
    let name = name_from(bytes_after(file, at as usize));
    if name.is_empty() {
        return write_found(file, at, 0, out);
    }
    out.extend_from_slice(name)
}

// Returns the name with which some bytes begin.
fn name_from(rest: &[u8]) -> &[u8]
    ensures { result.now ≡ name_from rest.now }
{
    'name: for length in 0..rest.len() {
        if !is_name_byte(rest[length]) {
            return &rest[..length];
        }
    }
    rest
}

// Writes that the bytes after a backslash begin no escape.
fn write_escape_fault(rest: &[u8], out: &mut Vec<u8>) -> Result<(), AllocError>
    ensures { OnOk result (out.new.items ≡ out.old.items ++ escape_sentence rest.now) }
{
    write_backslash(rest, out)?;
    out.extend_from_slice(b" isn't an escape")?;
    write_dash_hint(rest, out)
}

// Writes a backslash and the character after it.
fn write_backslash(rest: &[u8], out: &mut Vec<u8>) -> Result<(), AllocError>
    ensures { OnOk result (out.new.items ≡ out.old.items ++ backslash_text rest.now) }
{
    out.extend_from_slice(b"\\")?;
    write_character(Style::Spelling, part_of(rest, 0, character_len(rest)), out)
}

// Writes what to write in place of an escaped dash.
fn write_dash_hint(rest: &[u8], out: &mut Vec<u8>) -> Result<(), AllocError>
    ensures { OnOk result (out.new.items ≡ out.old.items ++ dash_hint rest.now) }
{
    if byte_at(rest, 0) == b'-' {
        return out.extend_from_slice(b": write a dash first in its class, as in [-a]");
    }
    Ok(())
}

// Writes that no rule has a name, or that a literal can't ignore case.
fn write_undefined(
    file: &[u8],
    name: &str,
    meant: Option<&str>,
    at: u32,
    out: &mut Vec<u8>,
) -> Result<(), AllocError>
    ensures { OnOk result (out.new.items
        ≡ out.old.items ++ undefined_sentence file.now name.now (option_map (λ rule. rule.now) meant.entry) at) }
{
    if is_case_flag(file, name, at) {
        return out.extend_from_slice(
            b"a literal can't ignore case: write a class for each letter, as in [sS] [eE]",
        );
    }
    write_missing(name, meant, out)
}

// Writes that no rule has a name, and asks whether a rule is meant, if one is known.
fn write_missing(name: &str, meant: Option<&str>, out: &mut Vec<u8>) -> Result<(), AllocError>
    ensures { OnOk result (out.new.items ≡ out.old.items ++ (rule_sentence name.now (codes " is not defined")
        ++ meant_question (option_map (λ rule. rule.now) meant.entry))) }
{
    write_rule(name, b" is not defined", out)?;
    match meant {
        None => Ok(()),
        Some(rule) => write_question(rule, out),
    }
}

// Asks whether a rule is meant.
fn write_question(rule: &str, out: &mut Vec<u8>) -> Result<(), AllocError>
    ensures { OnOk result (out.new.items ≡ out.old.items ++ (codes ": did you mean " ++ (rule.now ++ codes "?"))) }
{
    out.extend_from_slice(b": did you mean ")?;
    write_two(rule.as_bytes(), b"?", out)
}

// Returns whether a name is `i`, right after a quote.
fn is_case_flag(file: &[u8], name: &str, at: u32) -> bool
    ensures { result ≡ is_case_flag file.now name.now at }
{
    let before = byte_before(file, at);
    name.len() == 1 && byte_at(name.as_bytes(), 0) == b'i' && (before == b'\'' || before == b'"')
}

// Writes what is wrong with a rule.
fn write_rule(name: &str, what: &[u8], out: &mut Vec<u8>) -> Result<(), AllocError>
    ensures { OnOk result (out.new.items ≡ out.old.items ++ rule_sentence name.now what.now) }
{
    out.extend_from_slice(b"the rule ")?;
    out.extend_from_slice(name.as_bytes())?;
    out.extend_from_slice(what)
}

// Writes bytes, and then others.
fn write_two(first: &[u8], second: &[u8], out: &mut Vec<u8>) -> Result<(), AllocError>
    ensures { OnOk result (out.new.items ≡ out.old.items ++ (first.now ++ second.now)) }
{
    out.extend_from_slice(first)?;
    out.extend_from_slice(second)
}

// Writes that rules call each other without a byte between.
fn write_cycle(path: &[&str], out: &mut Vec<u8>) -> Result<(), AllocError>
    ensures { OnOk result (out.new.items
        ≡ out.old.items ++ (codes "left recursion: " ++ path_text (map (λ name. name.now) path.now))) }
{
    out.extend_from_slice(b"left recursion: ")?;
    write_path(path, out)
}

// Writes the names of rules of which each calls the next, and the last the first.
fn write_path(path: &[&str], out: &mut Vec<u8>) -> Result<(), AllocError>
    ensures { OnOk result (out.new.items ≡ out.old.items ++ path_text (map (λ name. name.now) path.now)) }
{
    match path {
        [] => Ok(()),
        [first, rest @ ..] => {
            out.extend_from_slice(first.as_bytes())?;
            write_arrowed(rest, out)?;
            write_arrow(first, out)
        }
    }
}

// Writes names, each after an arrow.
fn write_arrowed(names: &[&str], out: &mut Vec<u8>) -> Result<(), AllocError>
    ensures { OnOk result (out.new.items ≡ out.old.items ++ flat_map arrowed (map (λ name. name.now) names.now)) }
{
    let mut rest = names;
    'names: while let [name, others @ ..] = rest {
        write_arrow(name, out)?;
        rest = others;
    }
    Ok(())
}

// Writes a name after an arrow.
fn write_arrow(name: &str, out: &mut Vec<u8>) -> Result<(), AllocError>
    ensures { OnOk result (out.new.items ≡ out.old.items ++ arrowed name.now) }
{
    out.extend_from_slice(b" -> ")?;
    out.extend_from_slice(name.as_bytes())
}
