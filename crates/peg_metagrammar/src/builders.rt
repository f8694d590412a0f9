//! Constructors of expressions with spans, to build grammars in code.
ghost use Rattle.std.specs.Prelude.{◌≡◌, ℕ, ◌≤◌, ◌<◌, ◌+◌, List, [], ◌∷◌, ◌++◌, map, length, IfOk, string_bytes};
ghost use Rattle.peg_bytes.specs.ByteSet.{bytes_of};
ghost use Rattle.peg_bytes.specs.Extent.{extent};
ghost use Rattle.peg_semantics.specs.Form.{Form, Literal, Class, Any, Name, Seq, Choice, Optional, Star, Plus, Not, forms};
ghost use Rattle.peg_grammar.specs.Written.{form_of, rule_of, rules_of};
ghost use Rattle.peg_metagrammar.specs.Figure.{line_span, named_rule, sign_on};
ghost use Rattle.peg_metagrammar.specs.FigureText.{line_start};
ghost use Rattle.peg_metagrammar.specs.Ranges.{class_of};
ghost use Rattle.peg_metagrammar.specs.RangesCode.{range_of};

use crate::line::Line;
use crate::ranges::{ByteRange, set_of_ranges};
use peg_bytes::{ByteSet, Span};
use peg_grammar::{Definition, Expr};
use std::alloc::{AllocError, Global};

/// Builds the definition of a rule, whose name starts its line.
fn definition(alloc: Global, rule: u32, name: &str, body: Expr) -> Result<Definition, AllocError>
    requires line { rule ≤ 31 }
    requires short { length name.now < 256 }
    ensures { IfOk result (λ definition. rule_of definition ≡ named_rule rule name.now (form_of body)) }
{
    let line = Line::of_rule(rule);
    Ok(Definition {
        name: String::from_str(alloc, name)?,
        span: line.span(0, name.len() as u8),
        body,
    })
}

/// Adds the definition of a rule, whose name starts its line.
pub(crate) fn add_definition(
    alloc: Global,
    rules: &mut Vec<Definition>,
    rule: u32,
    name: &str,
    body: Expr,
) -> Result<(), AllocError>
    requires line { rule ≤ 31 }
    requires short { length name.now < 256 }
    ensures { IfOk result (λ done. rules_of rules.new.items
        ≡ rules_of rules.old.items ++ (named_rule rule name.now (form_of body) ∷ [])) }
{
    rules.push(definition(alloc, rule, name, body)?)?;
    Ok(())
}

/// Builds a call of a rule.
pub(crate) fn name(alloc: Global, name: &str, span: Span) -> Result<Expr, AllocError>
    ensures { IfOk result (λ e. form_of e ≡ Name name.now (extent span)) }
{
    Ok(Expr::Name {
        name: String::from_str(alloc, name)?,
        span,
    })
}

/// Builds a literal.
pub(crate) fn literal(alloc: Global, bytes: &[u8], span: Span) -> Result<Expr, AllocError>
    ensures { IfOk result (λ e. form_of e ≡ Literal bytes.now (extent span)) }
{
    Ok(Expr::Literal {
        bytes: bytes.to_vec(alloc)?,
        span,
    })
}

/// Builds a class from byte ranges.
pub(crate) fn class(ranges: &[ByteRange], span: Span) -> Expr
    ensures { form_of result ≡ Class (class_of (map range_of ranges.now)) (extent span) }
{
    Expr::Class {
        set: set_of_ranges(ranges),
        span,
    }
}

/// Builds a class from its set.
pub(crate) fn class_from_set(set: ByteSet, span: Span) -> Expr
    ensures { form_of result ≡ Class (bytes_of set) (extent span) }
{
    Expr::Class { set, span }
}

/// Builds a dot.
pub(crate) fn any(span: Span) -> Expr
    ensures { form_of result ≡ Any (extent span) }
{
    Expr::Any { span }
}

/// Adds an expression to a list.
pub(crate) fn add(items: &mut Vec<Expr>, item: Expr) -> Result<(), AllocError>
    ensures { IfOk result (λ done. map form_of items.new.items ≡ map form_of items.old.items ++ (form_of item ∷ [])) }
{
    items.push(item)?;
    Ok(())
}

/// Adds a call of a rule to a list, with its span on a line.
pub(crate) fn add_name(
    alloc: Global,
    items: &mut Vec<Expr>,
    text: &str,
    line: Line,
    start: u8,
    end: u8,
) -> Result<(), AllocError>
    requires { start ≤ end }
    ensures { IfOk result (λ done. map form_of items.new.items
        ≡ map form_of items.old.items ++ (Name text.now (line_span line.start start end) ∷ [])) }
{
    let call = name(alloc, text, line.span(start, end))?;
    add(items, call)
}

/// Adds a literal to a list, with its span on a line.
pub(crate) fn add_literal(
    alloc: Global,
    items: &mut Vec<Expr>,
    bytes: &[u8],
    line: Line,
    start: u8,
    end: u8,
) -> Result<(), AllocError>
    requires { start ≤ end }
    ensures { IfOk result (λ done. map form_of items.new.items
        ≡ map form_of items.old.items ++ (Literal bytes.now (line_span line.start start end) ∷ [])) }
{
    let text = literal(alloc, bytes, line.span(start, end))?;
    add(items, text)
}

/// Builds a sequence.
pub(crate) fn seq(items: Vec<Expr>, span: Span) -> Expr
    ensures { form_of result ≡ Seq (forms (map form_of items.items)) (extent span) }
{
    Expr::Seq { items, span }
}

/// Builds an ordered choice.
pub(crate) fn choice(
    alloc: Global,
    first: Expr,
    rest: Vec<Expr>,
    span: Span,
) -> Result<Expr, AllocError>
    ensures { IfOk result (λ e. form_of e
        ≡ Choice (form_of first) (forms (map form_of rest.items)) (extent span)) }
{
    Ok(Expr::Choice {
        first: Box::new(alloc, first)?,
        rest,
        span,
    })
}

/// Builds an optional expression.
pub(crate) fn optional(alloc: Global, part: Expr, span: Span) -> Result<Expr, AllocError>
    ensures { IfOk result (λ e. form_of e ≡ Optional (form_of part) (extent span)) }
{
    Ok(Expr::Optional {
        part: Box::new(alloc, part)?,
        span,
    })
}

/// Builds a star.
pub(crate) fn star(alloc: Global, part: Expr, span: Span) -> Result<Expr, AllocError>
    ensures { IfOk result (λ e. form_of e ≡ Star (form_of part) (extent span)) }
{
    Ok(Expr::Star {
        part: Box::new(alloc, part)?,
        span,
    })
}

/// Builds a plus.
pub(crate) fn plus(alloc: Global, part: Expr, span: Span) -> Result<Expr, AllocError>
    ensures { IfOk result (λ e. form_of e ≡ Plus (form_of part) (extent span)) }
{
    Ok(Expr::Plus {
        part: Box::new(alloc, part)?,
        span,
    })
}

/// Builds a not-predicate.
pub(crate) fn not(alloc: Global, part: Expr, span: Span) -> Result<Expr, AllocError>
    ensures { IfOk result (λ e. form_of e ≡ Not (form_of part) (extent span)) }
{
    Ok(Expr::Not {
        part: Box::new(alloc, part)?,
        span,
    })
}

/// Adds the definition of an operator token, which is followed, after one byte, by a call of Spacing.
pub(crate) fn add_operator(
    alloc: Global,
    rules: &mut Vec<Definition>,
    rule: u32,
    name: &str,
    text: &[u8],
    start: u8,
    end: u8,
) -> Result<(), AllocError>
    requires line { rule ≤ 31 }
    requires short { length name.now < 256 }
    requires order { start ≤ end }
    requires fits { end + 8 < 256 }
    ensures { IfOk result (λ done. rules_of rules.new.items ≡ rules_of rules.old.items
        ++ (named_rule rule name.now (sign_on (line_start rule) text.now start end) ∷ [])) }
{
    let body = sign(alloc, Line::of_rule(rule), text, start, end)?;
    add_definition(alloc, rules, rule, name, body)
}

// An operator token on a line, followed, after one byte, by a call of Spacing.
fn sign(alloc: Global, line: Line, text: &[u8], start: u8, end: u8) -> Result<Expr, AllocError>
    requires order { start ≤ end }
    requires fits { end + 8 < 256 }
    ensures { IfOk result (λ e. form_of e ≡ sign_on line.start text.now start end) }
{
    let mut items = Vec::with_capacity(alloc, 2)?;
    add_literal(alloc, &mut items, text, line, start, end)?;
    add_name(alloc, &mut items, "Spacing", line, end + 1, end + 8)?;
    Ok(seq(items, line.span(start, end + 8)))
}
