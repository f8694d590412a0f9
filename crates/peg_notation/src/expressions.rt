//! Expressions that were read, and how several become a sequence or a choice.
ghost use Rattle.std.specs.Prelude.{◌≡◌, ◌≤◌, ◌+◌, ◌<◌, ◌^◌, max, length, Ok, OnOk};
ghost use Rattle.peg_bytes.specs.Extent.{extent, between};
ghost use Rattle.peg_grammar.specs.Written.{form_of};
ghost use Rattle.peg_notation.specs.Reader.{whole_sequence, whole_choice, no_more};
ghost use Rattle.peg_notation.specs.ReaderCode.{form_seen, forms_seen, with_form, Agrees};

use crate::fault::NotationFault;
use peg_grammar::Expr;
use peg_metagrammar::{choice_of, sequence_of};
use std::alloc::{AllocError, Global};

/// An expression that was read.
#[derive(Debug, Drop)]
pub(crate) struct ParsedExpr {
    /// In a box, so that it takes little of the stack in each call of the reader.
    pub(crate) expression: Box<Expr>,
    /// The number of its tokens.
    pub(crate) token_count: usize,
    /// The offset where the text of its last token ends. Without tokens, it is the end of the token before it.
    pub(crate) last: u32,
    /// The nesting depth of its parentheses.
    pub(crate) depth: u32,
}

/// Several expressions that were read one after the other.
#[derive(Debug, Drop)]
pub(crate) struct ParsedExprs {
    pub(crate) expressions: Vec<Expr>,
    pub(crate) token_count: usize,
    pub(crate) last: u32,
    pub(crate) depth: u32,
}

impl ParsedExprs {
    /// Returns an empty list, after a token whose text ends at `last`.
    pub(crate) fn none(alloc: Global, last: u32) -> ParsedExprs
        ensures { forms_seen result ≡ no_more last }
    {
        ParsedExprs {
            expressions: Vec::new(alloc),
            token_count: 0,
            last,
            depth: 0,
        }
    }

    /// Appends an expression. The only error is a failed allocation.
    #[inline(never)]
    pub(crate) fn add(&mut self, part: ParsedExpr) -> Result<(), AllocError>
        requires { self.old.token_count + part.token_count < 2 ^ 64 }
        ensures { OnOk result (forms_seen self.new ≡ with_form (forms_seen self.old) (form_seen part)) }
    {
        self.expressions.push(Box::into_inner(part.expression))?;
        self.token_count += part.token_count;
        self.last = part.last;
        self.depth = self.depth.max(part.depth);
        Ok(())
    }

    /// Returns the sequence of these expressions, from the offset `start`. A single expression is itself. An empty
    /// sequence is at the end of the token before it. The only error is a failed allocation.
    #[inline(never)]
    pub(crate) fn into_sequence(
        self,
        alloc: Global,
        before: u32,
        start: u32,
    ) -> Result<ParsedExpr, NotationFault>
        requires { 1 < length self.expressions.items → start ≤ self.last }
        ensures { Agrees form_seen (Ok (whole_sequence before start (forms_seen self))) result }
    {
        let ParsedExprs {
            expressions,
            token_count,
            last,
            depth,
        } = self;
        let expression = sequence_of(expressions, before, start, last);
        Ok(ParsedExpr {
            expression: Box::new(alloc, expression)?,
            token_count,
            last,
            depth,
        })
    }

    /// Returns the choice of a first expression and these, from the offset `start`. Without these it is the first one
    /// alone. The only error is a failed allocation.
    #[inline(never)]
    pub(crate) fn into_choice(
        self,
        alloc: Global,
        start: u32,
        first: ParsedExpr,
    ) -> Result<ParsedExpr, NotationFault>
        requires few { first.token_count + self.token_count < 2 ^ 64 }
        requires order { 0 < length self.expressions.items → start ≤ self.last }
        ensures { Agrees form_seen (Ok (whole_choice start (form_seen first) (forms_seen self))) result }
    {
        let ParsedExprs {
            expressions,
            token_count,
            last,
            depth,
        } = self;
        let token_count = first.token_count + token_count;
        let depth = first.depth.max(depth);
        let first = Box::into_inner(first.expression);
        let expression = choice_of(alloc, first, expressions, start, last)?;
        Ok(ParsedExpr {
            expression: Box::new(alloc, expression)?,
            token_count,
            last,
            depth,
        })
    }
}
