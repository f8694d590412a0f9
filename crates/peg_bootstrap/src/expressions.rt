//! The expressions that nodes denote, and how several become a sequence or a choice.
ghost use Rattle.std.specs.Prelude.{◌≡◌, ◌≤◌, ◌<◌, ◌∷◌, ◌++◌, [], length, map, string_bytes, IfOk, OnOk};
ghost use Rattle.peg_bytes.specs.ByteSet.{bytes_of};
ghost use Rattle.peg_bytes.specs.Extent.{extent, between};
ghost use Rattle.peg_metagrammar.specs.Denotation.{sequence_spelled, choice_spelled};
ghost use Rattle.peg_semantics.specs.Form.{Name, Literal, Class, Any};
ghost use Rattle.peg_grammar.specs.Written.{form_of};
ghost use Rattle.peg_bootstrap.specs.FigureNodes.{sign_form};

use peg_bytes::{ByteSet, Span};
use peg_grammar::Expr;
use peg_metagrammar::rule_numbers::{AND, NOT, QUESTION, STAR};
use peg_metagrammar::{choice_of, sequence_of};
use std::alloc::{AllocError, Global};

/// An expression that a node denotes.
#[derive(Debug, Drop)]
pub(crate) struct BuiltExpr {
    pub(crate) expression: Expr,
    /// The offset where the text of its last token ends. Without tokens, it is the end of the token before it.
    pub(crate) last: u32,
}

/// A name, and its span.
#[derive(Debug, Drop)]
pub(crate) struct RuleName {
    pub(crate) name: String,
    pub(crate) span: Span,
}

/// The expressions that neighbouring nodes denote.
#[derive(Debug, Drop)]
pub(crate) struct Expressions {
    pub(crate) list: Vec<Expr>,
    /// The offset where the text of their last token ends. Without tokens, it is the end of the token before them.
    pub(crate) last: u32,
}

impl RuleName {
    /// Returns the call of the rule with this name.
    pub(crate) fn into_use(self) -> BuiltExpr
        ensures form { form_of result.expression ≡ Name (string_bytes self.name) (extent self.span) }
        ensures last { result.last ≡ self.span.end }
    {
        let RuleName { name, span } = self;
        BuiltExpr {
            expression: Expr::Name { name, span },
            last: span.end,
        }
    }
}

/// Returns a literal of these bytes.
pub(crate) fn literal_of(bytes: Vec<u8>, span: Span) -> BuiltExpr
    ensures form { form_of result.expression ≡ Literal bytes.items (extent span) }
    ensures last { result.last ≡ span.end }
{
    BuiltExpr {
        expression: Expr::Literal { bytes, span },
        last: span.end,
    }
}

/// Returns a class of this set.
pub(crate) fn class_of(set: ByteSet, span: Span) -> BuiltExpr
    ensures form { form_of result.expression ≡ Class (bytes_of set) (extent span) }
    ensures last { result.last ≡ span.end }
{
    BuiltExpr {
        expression: Expr::Class { set, span },
        last: span.end,
    }
}

/// Returns a dot.
pub(crate) fn any_of(span: Span) -> BuiltExpr
    ensures form { form_of result.expression ≡ Any (extent span) }
    ensures last { result.last ≡ span.end }
{
    BuiltExpr {
        expression: Expr::Any { span },
        last: span.end,
    }
}

/// Returns an expression with one of the operators from `AND` to `PLUS`, by its rule number. The only error is a failed
/// allocation.
pub(crate) fn with_operator(
    alloc: Global,
    sign: u32,
    part: Expr,
    span: Span,
) -> Result<Expr, AllocError>
    ensures { IfOk result (λ whole. form_of whole ≡ sign_form sign (form_of part) (extent span)) }
{
    let part = Box::new(alloc, part)?;
    Ok(match sign {
        AND => Expr::And { part, span },
        NOT => Expr::Not { part, span },
        QUESTION => Expr::Optional { part, span },
        STAR => Expr::Star { part, span },
        _ => Expr::Plus { part, span },
    })
}

impl Expressions {
    /// Returns an empty list, after a token whose text ends at `last`.
    pub(crate) fn none(alloc: Global, last: u32) -> Expressions
        ensures list { result.list.items ≡ [] }
        ensures last { result.last ≡ last }
    {
        Expressions {
            list: Vec::new(alloc),
            last,
        }
    }

    /// Appends an expression. The only error is a failed allocation.
    pub(crate) fn add(&mut self, part: BuiltExpr) -> Result<(), AllocError>
        ensures list { OnOk result
            (map form_of self.new.list.items ≡ map form_of self.old.list.items ++ form_of part.expression ∷ []) }
        ensures last { OnOk result (self.new.last ≡ part.last) }
    {
        self.list.push(part.expression)?;
        self.last = part.last;
        Ok(())
    }

    /// Returns the sequence of these expressions, from the offset `start`. A single expression is itself. An empty
    /// sequence is at the end of the token before it.
    pub(crate) fn into_sequence(self, before: u32, start: u32) -> BuiltExpr
        requires { 1 < length self.list.items → start ≤ self.last }
        ensures form { form_of result.expression
            ≡ sequence_spelled before (between start self.last) (map form_of self.list.items) }
        ensures last { result.last ≡ self.last }
    {
        let Expressions { list, last } = self;
        BuiltExpr {
            expression: sequence_of(list, before, start, last),
            last,
        }
    }

    /// Returns the choice of a first expression and these, from the offset `start`. Without these it is the first one
    /// alone. The only error is a failed allocation.
    pub(crate) fn into_choice(
        self,
        alloc: Global,
        start: u32,
        first: Expr,
    ) -> Result<BuiltExpr, AllocError>
        requires { 0 < length self.list.items → start ≤ self.last }
        ensures form { IfOk result (λ part. form_of part.expression
            ≡ choice_spelled (between start self.last) (form_of first ∷ map form_of self.list.items)) }
        ensures last { IfOk result (λ part. part.last ≡ self.last) }
    {
        let Expressions { list, last } = self;
        Ok(BuiltExpr {
            expression: choice_of(alloc, first, list, start, last)?,
            last,
        })
    }
}
