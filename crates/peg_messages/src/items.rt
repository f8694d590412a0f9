//! What is expected at a position.
ghost use Rattle.std.specs.Prelude.{◌≡◌, ◌++◌, IfOk, OnOk};
ghost use Rattle.std.specs.Option.{option_map};
ghost use Rattle.peg_bytes.specs.Extent.{extent};
ghost use Rattle.peg_messages.specs.Items.{is_group, is_in_group, item_text, named_text, negated_group};
ghost use Rattle.peg_messages.specs.Items.{negated_text, plain_text, rule_text, span_bytes, spelling_group};
ghost use Rattle.peg_messages.specs.Items.{spelling_text};
ghost use Rattle.peg_messages.specs.Shown.{shown};
ghost use Rattle.peg_messages.specs.declared.shown.Style.TheVariants.{Spelling};

use crate::blanks::after_blanks;
use crate::shown::{Style, write_shown};
use crate::source::part_of;
use peg_bytes::Span;
use std::alloc::{AllocError, Global};

/// An expression of a grammar file that is expected at a position.
#[derive(Clone, Copy, Debug)]
pub struct Item<'a> {
    /// The bytes of the expression in the grammar file.
    pub span: Span,
    /// The rule that the message says the expression is in.
    pub rule: Option<&'a str>,
    /// A name that is written in place of the expression.
    pub name: Option<&'a str>,
    /// Whether the message leaves the item out. It still counts for how much of the text is shown as found.
    pub is_left_out: bool,
}

/// What an item expects. The items of a group are written together.
#[derive(Clone, Copy, Debug, PartialEq, Eq)]
pub(crate) enum ItemGroup {
    /// The predicate `!.` expects the end.
    End,
    /// A terminal, or a predicate `&e`, expects itself.
    Plain,
    /// A predicate `!e` expects something other than e.
    Other,
}

/// Returns whether an item is written among those of a group. Takes time linear in its span.
pub(crate) fn is_in_group(grammar: &[u8], item: &Item<'_>, group: ItemGroup) -> bool
    ensures { result ≡ is_in_group grammar.now group item.now }
{
    !item.is_left_out && is_group(spelling_group(span_bytes(grammar, item.span)), group)
}

// Returns whether two groups are the same.
fn is_group(a: ItemGroup, b: ItemGroup) -> bool
    ensures { result ≡ is_group a b }
{
    matches!(
        (a, b),
        (ItemGroup::End, ItemGroup::End)
            | (ItemGroup::Plain, ItemGroup::Plain)
            | (ItemGroup::Other, ItemGroup::Other)
    )
}

// Returns what an expression expects, by its bytes.
fn spelling_group(bytes: &[u8]) -> ItemGroup
    ensures { result ≡ spelling_group bytes.now }
{
    match bytes {
        [b'!', rest @ ..] => negated_group(after_blanks(rest)),
        _ => ItemGroup::Plain,
    }
}

// Returns what a predicate expects, by the bytes of its operand.
fn negated_group(operand: &[u8]) -> ItemGroup
    ensures { result ≡ negated_group operand.now }
{
    if operand == b".".as_slice() {
        ItemGroup::End
    } else {
        ItemGroup::Other
    }
}

/// Returns an item as it is written in a message. Takes time linear in its span.
#[tactic(auto, unfolding(crate::specs::Items::item_text))]
pub(crate) fn item_text(
    alloc: Global,
    grammar: &[u8],
    item: &Item<'_>,
) -> Result<Vec<u8>, AllocError>
    ensures { IfOk result (λ text. text.items ≡ item_text grammar.now item.now) }
{
    let mut text = Vec::new(alloc);
    write_named(span_bytes(grammar, item.span), item.name, &mut text)?;
    write_rule(item.rule, &mut text)?;
    Ok(text)
}

// Writes the name, or else the expression by its bytes.
fn write_named(spelling: &[u8], name: Option<&str>, out: &mut Vec<u8>) -> Result<(), AllocError>
    ensures { OnOk result (out.new.items
        ≡ out.old.items ++ named_text spelling.now (option_map (λ name. name.now) name.entry)) }
{
    match name {
        Some(name) => out.extend_from_slice(name.as_bytes()),
        None => write_spelling(spelling, out),
    }
}

// Writes the rule, if it is given.
fn write_rule(rule: Option<&str>, out: &mut Vec<u8>) -> Result<(), AllocError>
    ensures { OnOk result (out.new.items ≡ out.old.items ++ rule_text (option_map (λ rule. rule.now) rule.entry)) }
{
    match rule {
        Some(rule) => {
            out.extend_from_slice(b" in ")?;
            out.extend_from_slice(rule.as_bytes())
        }
        None => Ok(()),
    }
}

/// Returns the bytes of a file in a span, as far as the file has them.
pub(crate) fn span_bytes(file: &[u8], span: Span) -> &[u8]
    ensures { result.now ≡ span_bytes file.now (extent span) }
{
    part_of(file, span.start as usize, span.end as usize)
}

// Writes an expression by its bytes.
fn write_spelling(bytes: &[u8], out: &mut Vec<u8>) -> Result<(), AllocError>
    ensures { OnOk result (out.new.items ≡ out.old.items ++ spelling_text bytes.now) }
{
    match bytes {
        [b'!', rest @ ..] => write_negated(after_blanks(rest), out),
        _ => write_plain(bytes, out),
    }
}

// Writes an expression that isn't such a predicate. A dot is any byte.
fn write_plain(bytes: &[u8], out: &mut Vec<u8>) -> Result<(), AllocError>
    ensures { OnOk result (out.new.items ≡ out.old.items ++ plain_text bytes.now) }
{
    if bytes == b".".as_slice() {
        return out.extend_from_slice(b"any byte");
    }
    write_shown(Style::Spelling, bytes, out)
}

// Writes what a predicate expects, by the bytes of its operand.
fn write_negated(operand: &[u8], out: &mut Vec<u8>) -> Result<(), AllocError>
    ensures { OnOk result (out.new.items ≡ out.old.items ++ negated_text operand.now) }
{
    if operand == b".".as_slice() {
        return out.extend_from_slice(b"the end");
    }
    write_after(b"something other than ", operand, out)
}

// Writes words and an expression after them.
fn write_after(words: &[u8], expression: &[u8], out: &mut Vec<u8>) -> Result<(), AllocError>
    ensures { OnOk result (out.new.items ≡ out.old.items ++ (words.now ++ shown Spelling expression.now)) }
{
    out.extend_from_slice(words)?;
    write_shown(Style::Spelling, expression, out)
}
