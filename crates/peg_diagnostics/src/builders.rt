//! Constructors of boxed expressions. The only error of each is a failed allocation. The functions that call them recurse
//! as deep as expressions nest. So the constructors aren't inlined: what they need of the stack isn't in each frame of the
//! recursion.
ghost use Rattle.std.specs.Prelude.{◌≡◌, ◌∷◌, [], ◌++◌, IfOk, OnOk, map};
ghost use Rattle.peg_bytes.specs.ByteSet.{bytes_of};
ghost use Rattle.peg_bytes.specs.Extent.{extent};
ghost use Rattle.peg_diagnostics.specs.Diagnostic.{or_fail};
ghost use Rattle.peg_diagnostics.specs.Operators.{with_part};
ghost use Rattle.peg_grammar.specs.Written.{form_of};
ghost use Rattle.peg_semantics.specs.Form.{Literal, Class, Any, Name, Seq, Choice, forms};

use peg_bytes::{ByteSet, Span};
use peg_grammar::Expr;
use std::alloc::{AllocError, Global};

/// Builds a literal.
#[inline(never)]
pub(crate) fn literal(alloc: Global, bytes: &[u8], span: Span) -> Result<Box<Expr>, AllocError>
    ensures { IfOk result (λ e. form_of e.value ≡ Literal bytes.now (extent span)) }
{
    let bytes = bytes.to_vec(alloc)?;
    Ok(Box::new(alloc, Expr::Literal { bytes, span })?)
}

/// Builds a class.
#[inline(never)]
pub(crate) fn class(alloc: Global, set: ByteSet, span: Span) -> Result<Box<Expr>, AllocError>
    ensures { IfOk result (λ e. form_of e.value ≡ Class (bytes_of set) (extent span)) }
{
    Ok(Box::new(alloc, Expr::Class { set, span })?)
}

/// Builds a dot.
#[inline(never)]
pub(crate) fn any(alloc: Global, span: Span) -> Result<Box<Expr>, AllocError>
    ensures { IfOk result (λ e. form_of e.value ≡ Any (extent span)) }
{
    Ok(Box::new(alloc, Expr::Any { span })?)
}

/// Builds a call of a rule.
#[inline(never)]
pub(crate) fn name(alloc: Global, name: &str, span: Span) -> Result<Box<Expr>, AllocError>
    ensures { IfOk result (λ e. form_of e.value ≡ Name name.now (extent span)) }
{
    let name = String::from_str(alloc, name)?;
    Ok(Box::new(alloc, Expr::Name { name, span })?)
}

/// Builds a sequence.
#[inline(never)]
pub(crate) fn seq(alloc: Global, items: Vec<Expr>, span: Span) -> Result<Box<Expr>, AllocError>
    ensures { IfOk result (λ e. form_of e.value ≡ Seq (forms (map form_of items.items)) (extent span)) }
{
    Ok(Box::new(alloc, Expr::Seq { items, span })?)
}

/// Builds an ordered choice.
#[inline(never)]
pub(crate) fn choice(
    alloc: Global,
    first: Box<Expr>,
    rest: Vec<Expr>,
    span: Span,
) -> Result<Box<Expr>, AllocError>
    ensures { IfOk result (λ e. form_of e.value
        ≡ Choice (form_of first.value) (forms (map form_of rest.items)) (extent span)) }
{
    Ok(Box::new(alloc, Expr::Choice { first, rest, span })?)
}

/// Builds an operator on another part: a repetition or a predicate. For any other expression it is the part itself.
#[inline(never)]
pub(crate) fn with_part(
    alloc: Global,
    operator: &Expr,
    part: Box<Expr>,
) -> Result<Box<Expr>, AllocError>
    ensures { IfOk result (λ e. form_of e.value ≡ with_part (form_of operator.now) (form_of part.value)) }
{
    match operator {
        Expr::Optional { span, .. } => Ok(Box::new(alloc, Expr::Optional { part, span: *span })?),
        Expr::Star { span, .. } => Ok(Box::new(alloc, Expr::Star { part, span: *span })?),
        Expr::Plus { span, .. } => Ok(Box::new(alloc, Expr::Plus { part, span: *span })?),
        Expr::Counted { min, max, span, .. } => {
            let whole = Expr::Counted {
                part,
                min: *min,
                max: *max,
                span: *span,
            };
            Ok(Box::new(alloc, whole)?)
        }
        Expr::And { span, .. } => Ok(Box::new(alloc, Expr::And { part, span: *span })?),
        Expr::Not { span, .. } => Ok(Box::new(alloc, Expr::Not { part, span: *span })?),
        Expr::Literal { .. }
        | Expr::Class { .. }
        | Expr::Any { .. }
        | Expr::Name { .. }
        | Expr::Seq { .. }
        | Expr::Choice { .. } => Ok(part),
    }
}

/// Builds the choice of an expression and the empty class.
#[inline(never)]
pub(crate) fn or_empty_class(
    alloc: Global,
    first: Box<Expr>,
    span: Span,
) -> Result<Box<Expr>, AllocError>
    ensures { IfOk result (λ e. form_of e.value ≡ or_fail (form_of first.value) (extent span)) }
{
    let none = class(alloc, ByteSet::empty(), span)?;
    let mut rest = Vec::new(alloc);
    add(&mut rest, none)?;
    choice(alloc, first, rest, span)
}

/// Appends an expression without its box to a list.
#[inline(never)]
pub(crate) fn add(items: &mut Vec<Expr>, item: Box<Expr>) -> Result<(), AllocError>
    ensures { OnOk result (items.new.items ≡ items.old.items ++ item.value ∷ []) }
{
    items.push(Box::into_inner(item))?;
    Ok(())
}
