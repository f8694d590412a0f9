//! Builds the expressions that nodes denote, with one function for each metagrammar rule from Expression to Primary.
ghost use Rattle.std.specs.Prelude.{◌≡◌, ◌<◌, ◌≤◌, [], drop, codes, IsTrue, IfOk, IfErr, OnOk, IsErrOf};
ghost use Rattle.peg_bytes.specs.Extent.{extent};
ghost use Rattle.peg_metagrammar.specs.Nesting.{nesting, has_open};
ghost use Rattle.peg_metagrammar.specs.Denotation.{bad_counts, counted_form};
ghost use Rattle.peg_grammar.specs.Written.{form_of};
ghost use Rattle.peg_lexer.specs.LexicalCode.{count_spelled};
ghost use Rattle.peg_bootstrap.specs.FigureNodes.{IsNode, last_start, HasBadCount};
ghost use Rattle.peg_tree.specs.Branches.{trees_in, tree_of_branch};

use crate::expressions::{
    BuiltExpr, Expressions, RuleName, any_of, class_of, literal_of, with_operator,
};
use crate::fault::DefinitionsFault;
use peg_bytes::Span;
use peg_grammar::Expr;
use peg_lexer::{class_of_token, count_bounds, literal_bytes, name_text};
use peg_metagrammar::rule_numbers::{CLASS, COUNT, IDENTIFIER, LITERAL, OPEN, SUFFIX};
use peg_tree::Branch;
use std::alloc::{AllocError, Global};

/// Builds expressions from the nodes of a tree over a file.
#[derive(Clone, Copy, Debug)]
pub(crate) struct AstBuilder<'a> {
    pub(crate) alloc: Global,
    pub(crate) file: &'a [u8],
}

/// Returns the offset where the text of a token ends, which is where its last child, the spacing, starts. Takes time
/// linear in the number of its children.
pub(crate) fn token_end(token: &Branch<'_>) -> u32
    ensures { result ≡ last_start token.now.span.start (trees_in token.now.children) }
{
    let mut last = token.span.start;
    let mut rest = token.children;
    while !rest.is_empty() {
        let child = rest.first();
        last = child.span.start;
        rest = child.rest;
    }
    last
}

impl<'a> AstBuilder<'a> {
    ghost use Rattle.peg_bootstrap.specs.AstBuilderCode.{file_in, BuildsAt, BuildsAnywhere, BuildsName};

    /// Returns the expression of an Expression: sequences separated by slashes. At most `left` parentheses may be open
    /// in it, and `before` is the offset where the text of the token before it ends.
    #[cycle(builder)]
    pub(crate) fn expression(
        &self,
        before: u32,
        node: &Branch<'_>,
        left: usize,
    ) -> Result<BuiltExpr, DefinitionsFault>
        requires node { IsNode (file_in self.now) (codes "Expression") node.now }
        requires ordered { before ≤ node.now.span.start }
        ensures spells { IfOk result (BuildsAt (file_in self.now) before (tree_of_branch node.now)) }
        ensures order { IfOk result (λ part. before ≤ part.last) }
        ensures within { OnOk result (nesting (tree_of_branch node.now) ≤ left) }
        ensures fine { OnOk result (bad_counts (file_in self.now) (tree_of_branch node.now) ≡ []) }
        ensures deep { IsErrOf result DefinitionsFault.TooNested → left < nesting (tree_of_branch node.now) }
        ensures bad { IfErr result (HasBadCount (file_in self.now) (tree_of_branch node.now)) }
    {
        let sequence = node.children.first();
        let first = self.sequence(before, &sequence, left)?;
        let mut more = Expressions::none(self.alloc, first.last);
        let mut rest = sequence.rest;
        'alternatives: while !rest.is_empty() {
            let slash = rest.first();
            let next = slash.rest.first();
            let part = self.sequence(token_end(&slash), &next, left)?;
            more.add(part)?;
            rest = next.rest;
        }
        Ok(more.into_choice(self.alloc, node.span.start, first.expression)?)
    }

    // Sequence: prefixes one after the other.
    #[cycle(builder)]
    fn sequence(
        &self,
        before: u32,
        node: &Branch<'_>,
        left: usize,
    ) -> Result<BuiltExpr, DefinitionsFault>
        requires node { IsNode (file_in self.now) (codes "Sequence") node.now }
        requires ordered { before ≤ node.now.span.start }
        ensures spells { IfOk result (BuildsAt (file_in self.now) before (tree_of_branch node.now)) }
        ensures order { IfOk result (λ part. before ≤ part.last) }
        ensures within { OnOk result (nesting (tree_of_branch node.now) ≤ left) }
        ensures fine { OnOk result (bad_counts (file_in self.now) (tree_of_branch node.now) ≡ []) }
        ensures deep { IsErrOf result DefinitionsFault.TooNested → left < nesting (tree_of_branch node.now) }
        ensures bad { IfErr result (HasBadCount (file_in self.now) (tree_of_branch node.now)) }
    {
        let mut items = Expressions::none(self.alloc, before);
        let mut rest = node.children;
        'items: while !rest.is_empty() {
            let item = rest.first();
            let part = self.prefix(&item, left)?;
            items.add(part)?;
            rest = item.rest;
        }
        Ok(items.into_sequence(before, node.span.start))
    }

    // Prefix: a suffix, or a predicate of one.
    #[cycle(builder)]
    fn prefix(&self, node: &Branch<'_>, left: usize) -> Result<BuiltExpr, DefinitionsFault>
        requires node { IsNode (file_in self.now) (codes "Prefix") node.now }
        ensures spells { IfOk result (BuildsAnywhere (file_in self.now) (tree_of_branch node.now)) }
        ensures order { IfOk result (λ part. node.now.span.start ≤ part.last) }
        ensures within { OnOk result (nesting (tree_of_branch node.now) ≤ left) }
        ensures fine { OnOk result (bad_counts (file_in self.now) (tree_of_branch node.now) ≡ []) }
        ensures deep { IsErrOf result DefinitionsFault.TooNested → left < nesting (tree_of_branch node.now) }
        ensures bad { IfErr result (HasBadCount (file_in self.now) (tree_of_branch node.now)) }
    {
        let first = node.children.first();
        if first.rule == SUFFIX {
            return self.suffix(&first, left);
        }
        let part = self.suffix(&first.rest.first(), left)?;
        let span = Span::new(node.span.start, part.last);
        Ok(BuiltExpr {
            expression: with_operator(self.alloc, first.rule, part.expression, span)?,
            last: part.last,
        })
    }

    // Suffix: a primary with an optional operator or count.
    #[cycle(builder)]
    fn suffix(&self, node: &Branch<'_>, left: usize) -> Result<BuiltExpr, DefinitionsFault>
        requires node { IsNode (file_in self.now) (codes "Suffix") node.now }
        ensures spells { IfOk result (BuildsAnywhere (file_in self.now) (tree_of_branch node.now)) }
        ensures order { IfOk result (λ part. node.now.span.start ≤ part.last) }
        ensures within { OnOk result (nesting (tree_of_branch node.now) ≤ left) }
        ensures fine { OnOk result (bad_counts (file_in self.now) (tree_of_branch node.now) ≡ []) }
        ensures deep { IsErrOf result DefinitionsFault.TooNested → left < nesting (tree_of_branch node.now) }
        ensures bad { IfErr result (HasBadCount (file_in self.now) (tree_of_branch node.now)) }
    {
        let primary = node.children.first();
        let part = self.primary(&primary, left)?;
        if primary.rest.is_empty() {
            return Ok(part);
        }
        let sign = primary.rest.first();
        let last = token_end(&sign);
        let span = Span::new(node.span.start, last);
        let expression = if sign.rule == COUNT {
            self.counted(&sign, part.expression, span)?
        } else {
            with_operator(self.alloc, sign.rule, part.expression, span)?
        };
        Ok(BuiltExpr { expression, last })
    }

    // Primary: a name, an expression in parentheses, a literal, a class or a dot.
    #[cycle(builder)]
    fn primary(&self, node: &Branch<'_>, left: usize) -> Result<BuiltExpr, DefinitionsFault>
        requires node { IsNode (file_in self.now) (codes "Primary") node.now }
        ensures spells { IfOk result (BuildsAnywhere (file_in self.now) (tree_of_branch node.now)) }
        ensures order { IfOk result (λ part. node.now.span.start ≤ part.last) }
        ensures within { OnOk result (nesting (tree_of_branch node.now) ≤ left) }
        ensures fine { OnOk result (bad_counts (file_in self.now) (tree_of_branch node.now) ≡ []) }
        ensures deep { IsErrOf result DefinitionsFault.TooNested → left < nesting (tree_of_branch node.now) }
        ensures bad { IfErr result (HasBadCount (file_in self.now) (tree_of_branch node.now)) }
    {
        let first = node.children.first();
        match first.rule {
            IDENTIFIER => Ok(self.rule_name(&first)?.into_use()),
            OPEN => self.parenthesized(node, left),
            LITERAL => Ok(self.literal(&first)?),
            CLASS => Ok(self.class(&first)?),
            _ => Ok(self.dot(&first)),
        }
    }

    // A Primary with parentheses, if one more may be open.
    #[cycle(builder)]
    fn parenthesized(&self, node: &Branch<'_>, left: usize) -> Result<BuiltExpr, DefinitionsFault>
        requires node { IsNode (file_in self.now) (codes "Primary") node.now }
        requires opens { IsTrue (has_open (trees_in node.now.children)) }
        ensures spells { IfOk result (BuildsAnywhere (file_in self.now) (tree_of_branch node.now)) }
        ensures order { IfOk result (λ part. node.now.span.start ≤ part.last) }
        ensures within { OnOk result (nesting (tree_of_branch node.now) ≤ left) }
        ensures fine { OnOk result (bad_counts (file_in self.now) (tree_of_branch node.now) ≡ []) }
        ensures deep { IsErrOf result DefinitionsFault.TooNested → left < nesting (tree_of_branch node.now) }
        ensures bad { IfErr result (HasBadCount (file_in self.now) (tree_of_branch node.now)) }
    {
        if left == 0 {
            return Err(DefinitionsFault::TooNested);
        }
        let opening = node.children.first();
        let inside = opening.rest.first();
        let closing = inside.rest.first();
        let part = self.expression(token_end(&opening), &inside, left - 1)?;
        Ok(BuiltExpr {
            expression: part.expression,
            last: token_end(&closing),
        })
    }

    /// Returns the name of an Identifier, and its span. The only error is a failed allocation.
    pub(crate) fn rule_name(&self, token: &Branch<'_>) -> Result<RuleName, AllocError>
        requires { IsNode (file_in self.now) (codes "Identifier") token.now }
        ensures spells { IfOk result (BuildsName (file_in self.now) (tree_of_branch token.now)) }
        ensures start { IfOk result (λ rule_name. rule_name.span.start ≡ token.now.span.start) }
    {
        let span = Span::new(token.span.start, token_end(token));
        let name = name_text(
            self.alloc,
            &self.file[span.start as usize..span.end as usize],
        )?;
        Ok(RuleName { name, span })
    }

    // Literal: the bytes that it denotes.
    fn literal(&self, token: &Branch<'_>) -> Result<BuiltExpr, AllocError>
        requires { IsNode (file_in self.now) (codes "Literal") token.now }
        ensures spells { IfOk result (BuildsAnywhere (file_in self.now) (tree_of_branch token.now)) }
        ensures order { IfOk result (λ part. token.now.span.start ≤ part.last) }
    {
        let span = Span::new(token.span.start, token_end(token));
        let bytes = literal_bytes(self.alloc, &self.file[span.start as usize..])?;
        Ok(literal_of(bytes, span))
    }

    // Class: the set of bytes that it denotes.
    fn class(&self, token: &Branch<'_>) -> Result<BuiltExpr, AllocError>
        requires { IsNode (file_in self.now) (codes "Class") token.now }
        ensures spells { IfOk result (BuildsAnywhere (file_in self.now) (tree_of_branch token.now)) }
        ensures order { IfOk result (λ part. token.now.span.start ≤ part.last) }
    {
        let span = Span::new(token.span.start, token_end(token));
        let set = class_of_token(self.alloc, &self.file[span.start as usize..])?;
        Ok(class_of(set, span))
    }

    // An expression with a count, which must be in range.
    fn counted(&self, token: &Branch<'_>, part: Expr, span: Span) -> Result<Expr, DefinitionsFault>
        requires { IsNode (file_in self.now) (codes "COUNT") token.now }
        ensures form { IfOk result (λ whole. form_of whole
            ≡ counted_form (count_spelled (drop token.now.span.start (file_in self.now))) (form_of part)
            (extent span)) }
        ensures fine { OnOk result (bad_counts (file_in self.now) (tree_of_branch token.now) ≡ []) }
        ensures bad { IfErr result (HasBadCount (file_in self.now) (tree_of_branch token.now)) }
        ensures deep { IsErrOf result DefinitionsFault.TooNested → ⊥ }
    {
        let at = token.span.start;
        let Some(bounds) = count_bounds(&self.file[at as usize..]) else {
            return Err(DefinitionsFault::BadCount { at });
        };
        Ok(Expr::Counted {
            part: Box::new(self.alloc, part)?,
            min: bounds.min,
            max: bounds.max,
            span,
        })
    }

    fn dot(&self, token: &Branch<'_>) -> BuiltExpr
        requires { IsNode (file_in self.now) (codes "DOT") token.now }
        ensures spells { BuildsAnywhere (file_in self.now) (tree_of_branch token.now) result }
        ensures order { token.now.span.start ≤ result.last }
    {
        let span = Span::new(token.span.start, token_end(token));
        any_of(span)
    }
}
