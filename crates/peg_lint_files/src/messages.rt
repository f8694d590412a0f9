//! The messages for warnings about a grammar file.
ghost use Rattle.std.specs.Prelude.{◌≡◌, ◌≤◌, ◌++◌, IfOk, OnOk, drop, length, take};
ghost use Rattle.std.specs.List.{flat_map};
ghost use Rattle.peg_bytes.specs.Place.{max_offset};
ghost use Rattle.peg_grammar.specs.GrammarRules.{rules_in};
ghost use Rattle.peg_lint_files.specs.WarningMessages.{cause_message, left_out_note, lint_message, max_messages, warning_message};
ghost use Rattle.peg_messages.specs.Remarks.{remark_text};

use crate::sentences::{cause_sentence, kind_sentence};
use crate::spacing::write_spacing;
use peg_bytes::Span;
use peg_grammar::Grammar;
use peg_lint::{Warning, WarningKind};
use peg_messages::Remark;
use std::alloc::{AllocError, Global};

// The greatest number of warnings with a message, since a place is found from the start of the file.
const MAX_MESSAGES: usize = 1000;

/// Returns the messages for the first 1,000 warnings about a grammar, in order, a note if there are more, and a note of
/// the rules that are spacing, if there are some. `file` is the grammar file, which the spans of the warnings refer to.
/// The only error is a failed allocation.
///
/// Linear in the names, in the file for each of these warnings, and in what is written.
pub(crate) fn lint_message(
    alloc: Global,
    name: &[u8],
    file: &[u8],
    grammar: &Grammar,
    warnings: &[Warning],
) -> Result<Vec<u8>, AllocError>
    requires { length file.now ≤ max_offset }
    ensures { IfOk result (λ message. message.items
        ≡ lint_message name.now file.now (rules_in grammar.now) warnings.now) }
{
    let mut message = Vec::new(alloc);
    let (shown, left_out) = split_first(warnings);
    write_all(name, file, shown, &mut message)?;
    write_left_out(name, left_out, &mut message)?;
    write_spacing(alloc, name, grammar, &mut message)?;
    Ok(message)
}

// The warnings that have a message, and the others.
fn split_first(warnings: &[Warning]) -> (&[Warning], &[Warning])
    ensures shown { result.0.now ≡ take max_messages warnings.now }
    ensures left_out { result.1.now ≡ drop max_messages warnings.now }
{
    if warnings.len() <= MAX_MESSAGES {
        (warnings, &[])
    } else {
        warnings.split_at(MAX_MESSAGES)
    }
}

// Writes a note that these warnings are left out, if there are some.
fn write_left_out(name: &[u8], left_out: &[Warning], out: &mut Vec<u8>) -> Result<(), AllocError>
    ensures { OnOk result (out.new.items ≡ out.old.items ++ left_out_note name.now left_out.now) }
{
    match left_out {
        [] => Ok(()),
        [_, ..] => {
            out.extend_from_slice(name)?;
            out.extend_from_slice(b": note: there are more warnings\n")
        }
    }
}

// Writes the messages for warnings, in order.
fn write_all(
    name: &[u8],
    file: &[u8],
    warnings: &[Warning],
    out: &mut Vec<u8>,
) -> Result<(), AllocError>
    requires { length file.now ≤ max_offset }
    ensures { OnOk result
        (out.new.items ≡ out.old.items ++ flat_map (warning_message name.now file.now) warnings.now) }
{
    let mut rest = warnings;
    'warnings: while let [warning, others @ ..] = rest {
        write_warning(name, file, warning, out)?;
        rest = others;
    }
    Ok(())
}

// Writes the message for a warning, and a note for its cause.
fn write_warning(
    name: &[u8],
    file: &[u8],
    warning: &Warning,
    out: &mut Vec<u8>,
) -> Result<(), AllocError>
    requires { length file.now ≤ max_offset }
    ensures { OnOk result (out.new.items ≡ out.old.items ++ warning_message name.now file.now warning.now) }
{
    let sentence = kind_sentence(warning.kind);
    write_remark(name, file, warning.span, b"warning", sentence, out)?;
    write_cause(name, file, warning.kind, warning.by, out)
}

// Writes a note for the cause of a warning of this kind, if it has one.
fn write_cause(
    name: &[u8],
    file: &[u8],
    kind: WarningKind,
    by: Option<Span>,
    out: &mut Vec<u8>,
) -> Result<(), AllocError>
    requires { length file.now ≤ max_offset }
    ensures { OnOk result (out.new.items ≡ out.old.items ++ cause_message name.now file.now kind by) }
{
    match by {
        None => Ok(()),
        Some(span) => write_remark(name, file, span, b"note", cause_sentence(kind), out),
    }
}

// Writes a remark about the start of a span.
fn write_remark(
    name: &[u8],
    file: &[u8],
    span: Span,
    label: &[u8],
    sentence: &[u8],
    out: &mut Vec<u8>,
) -> Result<(), AllocError>
    requires { length file.now ≤ max_offset }
    ensures { OnOk result
        (out.new.items ≡ out.old.items ++ remark_text name.now file.now span.start label.now sentence.now) }
{
    let remark = Remark {
        name,
        file,
        at: span.start,
        label,
        sentence,
    };
    remark.write(out)
}
