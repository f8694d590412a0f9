//! What rules begin with, as far as it can be a blank or a comment.
ghost use Rattle.std.specs.Prelude.{◌≡◌, ◌||◌, Some, map, not};
ghost use Rattle.peg_bytes.specs.ByteSet.{bytes_of, has};
ghost use Rattle.peg_grammar.specs.GrammarRules.{rules_in};
ghost use Rattle.peg_grammar.specs.Written.{form_of};
ghost use Rattle.peg_semantics.specs.Form.{forms};
ghost use Rattle.peg_spacing.specs.Gaps.{are_spaces, either_gap, gap_at, gap_of, gap_of_alternatives, gap_of_bytes, gap_of_first};
ghost use Rattle.peg_spacing.specs.Gaps.{gap_of_set, gap_of_start, has_only, is_sign, is_space};

use peg_bytes::ByteSet;
use peg_grammar::{Expr, Grammar};

/// What an expression can match at its start, where texts have blanks and comments.
#[derive(Clone, Copy, Debug, PartialEq, Eq)]
pub(crate) enum Gap {
    /// Blanks. Other alternatives may begin with signs.
    Blanks,
    /// What begins with a sign, as a comment does, or with a blank.
    Comment,
    /// Anything else.
    Other,
}

// Returns whether a byte is a space, or from tab to carriage return.
fn is_space(byte: u8) -> bool
    ensures { result ≡ is_space byte }
{
    byte == b' ' || (9 <= byte && byte <= 13)
}

// Returns whether an ASCII byte is neither a letter nor a digit nor an underscore.
fn is_sign(byte: u8) -> bool
    ensures { result ≡ is_sign byte }
{
    byte < 128 && !byte.is_ascii_alphanumeric() && byte != b'_'
}

// Returns whether all bytes are spaces.
fn are_spaces(bytes: &[u8]) -> bool
    ensures { result ≡ are_spaces bytes.now }
{
    bytes.iter().all(|byte| is_space(*byte))
}

// Returns what the bytes of a literal are.
fn gap_of_bytes(bytes: &[u8]) -> Gap
    ensures { result ≡ gap_of_bytes bytes.now }
{
    match bytes {
        [] => Gap::Other,
        [first, ..] => {
            if are_spaces(bytes) {
                Gap::Blanks
            } else if is_sign(*first) {
                Gap::Comment
            } else {
                Gap::Other
            }
        }
    }
}

// Returns whether a byte is a space, if the set has it.
fn may_be_space(set: &ByteSet, byte: u8) -> bool
    ensures { result ≡ (not (has (bytes_of set.now) byte) || is_space byte) }
{
    !set.contains(byte) || is_space(byte)
}

// Returns whether a byte is a sign, if the set has it.
fn may_be_sign(set: &ByteSet, byte: u8) -> bool
    ensures { result ≡ (not (has (bytes_of set.now) byte) || is_sign byte) }
{
    !set.contains(byte) || is_sign(byte)
}

// Returns whether all bytes of a set are spaces.
fn has_only_spaces(set: &ByteSet) -> bool
    ensures { result ≡ has_only is_space (bytes_of set.now) }
{
    'bytes: for byte in 0..256u16 {
        if !may_be_space(set, byte as u8) {
            return false;
        }
    }
    true
}

// Returns whether all bytes of a set are signs.
fn has_only_signs(set: &ByteSet) -> bool
    ensures { result ≡ has_only is_sign (bytes_of set.now) }
{
    'bytes: for byte in 0..256u16 {
        if !may_be_sign(set, byte as u8) {
            return false;
        }
    }
    true
}

// Returns what the bytes of a class are.
fn gap_of_set(set: &ByteSet) -> Gap
    ensures { result ≡ gap_of_set (bytes_of set.now) }
{
    if has_only_spaces(set) {
        Gap::Blanks
    } else if has_only_signs(set) {
        Gap::Comment
    } else {
        Gap::Other
    }
}

// Returns the gap of a rule, if there is one.
fn gap_at(gaps: &[Gap], rule: Option<u32>) -> Gap
    ensures { result ≡ gap_at gaps.now rule }
{
    match rule {
        Some(number) => gap_numbered(gaps, number),
        None => Gap::Other,
    }
}

// Returns the gap of the rule with a number.
fn gap_numbered(gaps: &[Gap], rule: u32) -> Gap
    ensures { result ≡ gap_at gaps.now (Some rule) }
{
    match gaps.get(rule as usize) {
        Some(gap) => *gap,
        None => Gap::Other,
    }
}

// Returns the gap of two alternatives.
fn either_gap(first: Gap, second: Gap) -> Gap
    ensures { result ≡ either_gap first second }
{
    match (first, second) {
        (Gap::Other, _) => Gap::Other,
        (_, Gap::Other) => Gap::Other,
        (Gap::Comment, Gap::Comment) => Gap::Comment,
        _ => Gap::Blanks,
    }
}

// Returns the gap of a sequence, given that of its first item.
fn gap_of_start(first: Gap) -> Gap
    ensures { result ≡ gap_of_start first }
{
    match first {
        Gap::Other => Gap::Other,
        _ => Gap::Comment,
    }
}

// Returns what an expression can match at its start, given this of each rule.
#[cycle(gaps)]
pub(crate) fn gap_of(grammar: &Grammar, gaps: &[Gap], expr: &Expr) -> Gap
    ensures { result ≡ gap_of (rules_in grammar.now) gaps.now (form_of expr.now) }
{
    match expr {
        Expr::Literal { bytes, .. } => gap_of_bytes(bytes),
        Expr::Class { set, .. } => gap_of_set(set),
        Expr::Name { name, .. } => gap_at(gaps, grammar.rule_number(name.as_str())),
        Expr::Seq { items, .. } => gap_of_first(grammar, gaps, items),
        Expr::Choice { first, rest, .. } => either_gap(
            gap_of(grammar, gaps, first),
            gap_of_alternatives(grammar, gaps, rest),
        ),
        Expr::Plus { part, .. } => gap_of(grammar, gaps, part),
        Expr::Any { .. }
        | Expr::Optional { .. }
        | Expr::Star { .. }
        | Expr::Counted { .. }
        | Expr::And { .. }
        | Expr::Not { .. } => Gap::Other,
    }
}

// Returns what the first item of a sequence makes of it.
#[cycle(gaps)]
fn gap_of_first(grammar: &Grammar, gaps: &[Gap], items: &[Expr]) -> Gap
    ensures { result ≡ gap_of_first (rules_in grammar.now) gaps.now (forms (map form_of items.now)) }
{
    match items {
        [] => Gap::Other,
        [first, ..] => gap_of_start(gap_of(grammar, gaps, first)),
    }
}

// Returns the gap of alternatives.
#[cycle(gaps)]
fn gap_of_alternatives(grammar: &Grammar, gaps: &[Gap], items: &[Expr]) -> Gap
    ensures { result ≡ gap_of_alternatives (rules_in grammar.now) gaps.now (forms (map form_of items.now)) }
{
    let mut all = Gap::Comment;
    for item in items {
        all = either_gap(all, gap_of(grammar, gaps, item));
    }
    all
}
