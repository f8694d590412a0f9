//! Reads expressions from tokens, with one function for each metagrammar rule from Expression to Primary.
ghost use Rattle.std.specs.Prelude.{◌≡◌, ℕ, ◌+◌, ◌-◌, ◌<◌, ◌≤◌, ◌^◌, length, drop, IfOk, Ok};
ghost use Rattle.std.specs.Str.{IsUtf8};
ghost use Rattle.peg_bytes.specs.ByteSet.{bytes_of};
ghost use Rattle.peg_bytes.specs.Extent.{extent};
ghost use Rattle.peg_semantics.specs.Form.{And, Not, Name, Literal, Class, Any};
ghost use Rattle.peg_grammar.specs.Written.{form_of};
ghost use Rattle.peg_metagrammar.specs.Notation.{max_file_bytes};
ghost use Rattle.peg_metagrammar.specs.Ranges.{class_of};
ghost use Rattle.peg_notation.specs.Reader.{starts_with_arrow, starts_with_slash, begins_prefix, place_of, pieces_of};
ghost use Rattle.peg_notation.specs.Reader.{one_token, closed_form, parenthesized, named, primary, with_token};
ghost use Rattle.peg_notation.specs.Reader.{then_suffix, suffix, with_prefix, prefix, sequence, alternative};
ghost use Rattle.peg_notation.specs.Reader.{expression};
ghost use Rattle.peg_notation.specs.ReaderCode.{lexemes, IsText, AreTexts, form_seen, inner_reading, Agrees, IsCounted};
ghost use Rattle.peg_notation.specs.ReaderCode.{IsBounded, after_sign, with_sign};
ghost use Rattle.peg_notation.specs.Spans.{LiesIn};
ghost use Rattle.peg_metagrammar.specs.Denotation.{bytes_in, ranges_in};
ghost use Rattle.peg_lexer.specs.Tokens.{lexeme_of};

use crate::expressions::{ParsedExpr, ParsedExprs};
use crate::fault::NotationFault;
use peg_bytes::{ByteSet, Span};
use peg_grammar::Expr;
use peg_lexer::{Bounds, Token, TokenKind, class_of_token, count_bounds, literal_bytes, name_text};
use std::alloc::Global;

/// A reader of a file. Each call gets the tokens that are left.
#[derive(Clone, Copy, Debug)]
pub(crate) struct Reader<'a> {
    pub(crate) alloc: Global,
    pub(crate) file: &'a [u8],
    ghost small: { length file.now ≤ max_file_bytes },
}

/// Returns the tokens after the first `token_count` ones.
pub(crate) fn rest_after(tokens: &[Token], token_count: usize) -> &[Token]
    requires { token_count ≤ length tokens.now }
    ensures tokens { lexemes result.now ≡ drop token_count (lexemes tokens.now) }
    ensures len { length result.now ≡ length tokens.now - token_count }
{
    &tokens[token_count..]
}

/// Returns whether the next token is an arrow.
pub(crate) fn starts_with_arrow(tokens: &[Token]) -> bool
    ensures { result ≡ starts_with_arrow (lexemes tokens.now) }
{
    match tokens {
        [token, ..] => matches!(token.kind, TokenKind::Arrow),
        [] => false,
    }
}

fn starts_with_slash(tokens: &[Token]) -> bool
    ensures { result ≡ starts_with_slash (lexemes tokens.now) }
{
    match tokens {
        [token, ..] => matches!(token.kind, TokenKind::Slash),
        [] => false,
    }
}

// Whether a prefix begins here. A name does, unless it is the name of the next definition.
fn begins_prefix(tokens: &[Token]) -> bool
    ensures { result ≡ begins_prefix (lexemes tokens.now) }
{
    match tokens {
        [token, ..] => match token.kind {
            TokenKind::Ident => !starts_with_arrow(&tokens[1..]),
            TokenKind::Literal
            | TokenKind::Class
            | TokenKind::And
            | TokenKind::Not
            | TokenKind::Open
            | TokenKind::Dot => true,
            _ => false,
        },
        [] => false,
    }
}

// The tokens after the sign of a predicate, or all tokens if there is none.
fn after_sign(tokens: &[Token]) -> &[Token]
    ensures tokens { lexemes result.now ≡ after_sign (lexemes tokens.now) }
    ensures len { length result.now ≤ length tokens.now }
{
    match tokens {
        [sign, ..] if matches!(sign.kind, TokenKind::And) => &tokens[1..],
        [sign, ..] if matches!(sign.kind, TokenKind::Not) => &tokens[1..],
        _ => tokens,
    }
}

impl<'a> Reader<'a> {
    ghost use Rattle.peg_notation.specs.ReaderFile.{file_of};

    /// Returns the byte offset where the next token starts, or the file's length if there is none.
    pub(crate) fn place_of(&self, tokens: &[Token]) -> u32
        ensures { result ≡ place_of (length (file_of self.now)) (lexemes tokens.now) }
    {
        match tokens {
            [token, ..] => token.span.start,
            [] => self.file.len() as u32,
        }
    }

    /// Returns the `Syntax` error at the next token.
    #[inline(never)]
    pub(crate) fn unexpected(&self, tokens: &[Token]) -> NotationFault
        ensures { result ≡ NotationFault.Syntax (place_of (length (file_of self.now)) (lexemes tokens.now)) }
    {
        NotationFault::Syntax {
            at: self.place_of(tokens),
        }
    }

    /// Reads an Expression: sequences separated by slashes. At most `left` parentheses may be open in it, and `before`
    /// is the offset where the text of the token before it ends. The errors are those of the file, without
    /// `FileTooLong`.
    #[cycle(reader)]
    #[tactic(auto, using(crate::proofs::ReaderSteps::faults))]
    pub(crate) fn expression(
        &self,
        before: u32,
        tokens: &[Token],
        left: u32,
    ) -> Result<ParsedExpr, NotationFault>
        requires texts { AreTexts (file_of self.now) before (lexemes tokens.now) }
        ensures read { Agrees form_seen
            (expression (file_of self.now) (inner_reading (file_of self.now) left) before (lexemes tokens.now)) result }
        ensures fits { IfOk result (λ part. part.token_count ≤ length tokens.now) }
        ensures shallow { IfOk result (λ part. part.depth ≤ left) }
    {
        let first = self.sequence(before, tokens, left)?;
        let mut more = ParsedExprs::none(self.alloc, first.last);
        let rest = rest_after(tokens, first.token_count);
        'alternatives: while starts_with_slash(rest_after(rest, more.token_count)) {
            let alternative = self.alternative(rest_after(rest, more.token_count), left)?;
            more.add(alternative)?;
        }
        more.into_choice(self.alloc, self.place_of(tokens), first)
    }

    // A slash and the sequence after it.
    #[cycle(reader)]
    #[tactic(auto, using(crate::proofs::ReaderSteps::faults), unfolding(crate::specs::Reader::alternative))]
    fn alternative(&self, tokens: &[Token], left: u32) -> Result<ParsedExpr, NotationFault>
        requires texts { AreTexts (file_of self.now) 0 (lexemes tokens.now) }
        ensures read { (before : ℕ) → Agrees form_seen
            (alternative (file_of self.now) (inner_reading (file_of self.now) left) before
            (lexemes tokens.now)) result }
        ensures fits { IfOk result (λ part. part.token_count ≤ length tokens.now) }
        ensures some { IfOk result (λ part. 0 < part.token_count) }
        ensures shallow { IfOk result (λ part. part.depth ≤ left) }
    {
        match tokens {
            [slash, ..] => {
                let part = self.sequence(slash.span.end, &tokens[1..], left)?;
                Ok(ParsedExpr {
                    token_count: 1 + part.token_count,
                    ..part
                })
            }
            [] => Err(self.unexpected(tokens)),
        }
    }

    // Sequence: prefixes one after the other.
    #[cycle(reader)]
    #[tactic(auto, using(crate::proofs::ReaderSteps::faults), unfolding(crate::specs::Reader::sequence))]
    fn sequence(
        &self,
        before: u32,
        tokens: &[Token],
        left: u32,
    ) -> Result<ParsedExpr, NotationFault>
        requires texts { AreTexts (file_of self.now) before (lexemes tokens.now) }
        ensures read { Agrees form_seen
            (sequence (file_of self.now) (inner_reading (file_of self.now) left) before (lexemes tokens.now)) result }
        ensures fits { IfOk result (λ part. part.token_count ≤ length tokens.now) }
        ensures shallow { IfOk result (λ part. part.depth ≤ left) }
    {
        let mut items = ParsedExprs::none(self.alloc, before);
        'items: while begins_prefix(rest_after(tokens, items.token_count)) {
            let item = self.prefix(rest_after(tokens, items.token_count), left)?;
            items.add(item)?;
        }
        items.into_sequence(self.alloc, before, self.place_of(tokens))
    }

    // Prefix: a suffix, or a predicate of one. Each function is called at one place, so that it needs no frame of its own.
    #[cycle(reader)]
    #[tactic(auto, using(crate::proofs::ReaderSteps::faults))]
    fn prefix(&self, tokens: &[Token], left: u32) -> Result<ParsedExpr, NotationFault>
        requires texts { AreTexts (file_of self.now) 0 (lexemes tokens.now) }
        ensures read { Agrees form_seen
            (prefix (file_of self.now) (inner_reading (file_of self.now) left) (lexemes tokens.now)) result }
        ensures fits { IfOk result (λ part. part.token_count ≤ length tokens.now) }
        ensures some { IfOk result (λ part. 0 < part.token_count) }
        ensures shallow { IfOk result (λ part. part.depth ≤ left) }
    {
        let part = self.suffix(after_sign(tokens), left)?;
        self.with_sign(tokens, part)
    }

    // Makes a predicate of a suffix if its sign is the next token.
    #[inline(never)]
    fn with_sign(&self, tokens: &[Token], part: ParsedExpr) -> Result<ParsedExpr, NotationFault>
        requires few { part.token_count < 2 ^ 63 }
        requires fits { part.token_count ≤ length (after_sign (lexemes tokens.now)) }
        requires order { place_of (length (file_of self.now)) (lexemes tokens.now) ≤ part.last }
        ensures read { Agrees form_seen (Ok (with_sign (lexemes tokens.now) (form_seen part))) result }
        ensures fits { IfOk result (λ whole. whole.token_count ≤ length tokens.now) }
        ensures some { IfOk result (λ whole. part.token_count ≤ whole.token_count) }
        ensures depth { IfOk result (λ whole. whole.depth ≡ part.depth) }
    {
        match tokens {
            [sign, ..] if matches!(sign.kind, TokenKind::And) => self.and(*sign, part),
            [sign, ..] if matches!(sign.kind, TokenKind::Not) => self.not(*sign, part),
            _ => Ok(part),
        }
    }

    #[inline(never)]
    fn and(&self, sign: Token, part: ParsedExpr) -> Result<ParsedExpr, NotationFault>
        requires few { part.token_count < 2 ^ 63 }
        requires order { sign.span.start ≤ part.last }
        ensures read { Agrees form_seen (Ok (with_prefix sign.span.start And (form_seen part))) result }
        ensures count { IfOk result (λ whole. whole.token_count ≡ 1 + part.token_count) }
        ensures depth { IfOk result (λ whole. whole.depth ≡ part.depth) }
    {
        let expression = Expr::And {
            part: part.expression,
            span: Span::new(sign.span.start, part.last),
        };
        Ok(ParsedExpr {
            expression: Box::new(self.alloc, expression)?,
            token_count: 1 + part.token_count,
            last: part.last,
            depth: part.depth,
        })
    }

    #[inline(never)]
    fn not(&self, sign: Token, part: ParsedExpr) -> Result<ParsedExpr, NotationFault>
        requires few { part.token_count < 2 ^ 63 }
        requires order { sign.span.start ≤ part.last }
        ensures read { Agrees form_seen (Ok (with_prefix sign.span.start Not (form_seen part))) result }
        ensures count { IfOk result (λ whole. whole.token_count ≡ 1 + part.token_count) }
        ensures depth { IfOk result (λ whole. whole.depth ≡ part.depth) }
    {
        let expression = Expr::Not {
            part: part.expression,
            span: Span::new(sign.span.start, part.last),
        };
        Ok(ParsedExpr {
            expression: Box::new(self.alloc, expression)?,
            token_count: 1 + part.token_count,
            last: part.last,
            depth: part.depth,
        })
    }

    // Suffix: a primary with an optional operator or count.
    #[cycle(reader)]
    #[tactic(auto, using(crate::proofs::ReaderSteps::faults), unfolding(crate::specs::Reader::suffix))]
    fn suffix(&self, tokens: &[Token], left: u32) -> Result<ParsedExpr, NotationFault>
        requires texts { AreTexts (file_of self.now) 0 (lexemes tokens.now) }
        ensures read { Agrees form_seen
            (suffix (file_of self.now) (inner_reading (file_of self.now) left) (lexemes tokens.now)) result }
        ensures fits { IfOk result (λ part. part.token_count ≤ length tokens.now) }
        ensures some { IfOk result (λ part. 0 < part.token_count) }
        ensures shallow { IfOk result (λ part. part.depth ≤ left) }
    {
        let part = self.primary(tokens, left)?;
        let start = self.place_of(tokens);
        self.then_suffix(start, rest_after(tokens, part.token_count), part)
    }

    // Adds the operator or count that is next, if there is one. `start` is the offset where the expression starts.
    #[inline(never)]
    fn then_suffix(
        &self,
        start: u32,
        rest: &[Token],
        part: ParsedExpr,
    ) -> Result<ParsedExpr, NotationFault>
        requires few { part.token_count < 2 ^ 63 }
        requires order { start ≤ part.last }
        requires texts { AreTexts (file_of self.now) part.last (lexemes rest.now) }
        ensures read { Agrees form_seen
            (then_suffix (file_of self.now) start (form_seen part) (lexemes rest.now)) result }
        ensures fits { IfOk result (λ whole. whole.token_count ≤ part.token_count + length rest.now) }
        ensures some { IfOk result (λ whole. part.token_count ≤ whole.token_count) }
        ensures depth { IfOk result (λ whole. whole.depth ≡ part.depth) }
    {
        match rest {
            [sign, ..] => self.with_suffix(start, *sign, part),
            [] => Ok(part),
        }
    }

    // Adds this token if it is an operator or a count.
    fn with_suffix(
        &self,
        start: u32,
        sign: Token,
        part: ParsedExpr,
    ) -> Result<ParsedExpr, NotationFault>
        requires few { part.token_count < 2 ^ 63 }
        requires order { start ≤ sign.span.end }
        requires text { IsText (file_of self.now) (lexeme_of sign) }
        requires inside { LiesIn (length (file_of self.now)) (extent sign.span) }
        ensures read { Agrees form_seen
            (with_token (file_of self.now) start (form_seen part) (lexeme_of sign)) result }
        ensures fits { IfOk result (λ whole. whole.token_count ≤ part.token_count + 1) }
        ensures some { IfOk result (λ whole. part.token_count ≤ whole.token_count) }
        ensures depth { IfOk result (λ whole. whole.depth ≡ part.depth) }
    {
        let span = Span::new(start, sign.span.end);
        let ParsedExpr {
            expression,
            token_count,
            last,
            depth,
        } = part;
        let whole = match sign.kind {
            TokenKind::Question => Expr::Optional {
                part: expression,
                span,
            },
            TokenKind::Star => Expr::Star {
                part: expression,
                span,
            },
            TokenKind::Plus => Expr::Plus {
                part: expression,
                span,
            },
            TokenKind::Count => self.counted(sign, expression, span)?,
            _ => {
                return Ok(ParsedExpr {
                    expression,
                    token_count,
                    last,
                    depth,
                });
            }
        };
        Ok(ParsedExpr {
            expression: Box::new(self.alloc, whole)?,
            token_count: token_count + 1,
            last: sign.span.end,
            depth,
        })
    }

    // An expression with a count.
    fn counted(&self, count: Token, part: Box<Expr>, span: Span) -> Result<Expr, NotationFault>
        requires inside { LiesIn (length (file_of self.now)) (extent count.span) }
        requires count { count.kind ≡ TokenKind.Count }
        ensures { IsCounted (file_of self.now) (lexeme_of count) (form_of part.value) (extent span) result }
    {
        let bounds = self.bounds(count)?;
        Ok(Expr::Counted {
            part,
            min: bounds.min,
            max: bounds.max,
            span,
        })
    }

    // The bounds of a count, which must be in range.
    fn bounds(&self, count: Token) -> Result<Bounds, NotationFault>
        requires inside { LiesIn (length (file_of self.now)) (extent count.span) }
        requires count { count.kind ≡ TokenKind.Count }
        ensures { IsBounded (file_of self.now) (lexeme_of count) result }
    {
        let at = count.span.start;
        match count_bounds(&self.file[at as usize..]) {
            Some(bounds) => Ok(bounds),
            None => Err(NotationFault::BadCount { at }),
        }
    }

    // Primary: a name, a literal, a class, a dot, or an expression in parentheses.
    #[cycle(reader)]
    #[tactic(auto, using(crate::proofs::ReaderSteps::faults), unfolding(crate::specs::Reader::primary))]
    fn primary(&self, tokens: &[Token], left: u32) -> Result<ParsedExpr, NotationFault>
        requires texts { AreTexts (file_of self.now) 0 (lexemes tokens.now) }
        ensures read { Agrees form_seen
            (primary (file_of self.now) (inner_reading (file_of self.now) left) (lexemes tokens.now)) result }
        ensures fits { IfOk result (λ part. part.token_count ≤ length tokens.now) }
        ensures some { IfOk result (λ part. 0 < part.token_count) }
        ensures shallow { IfOk result (λ part. part.depth ≤ left) }
    {
        match tokens {
            [token, ..] => match token.kind {
                TokenKind::Ident => self.name(*token, &tokens[1..]),
                TokenKind::Literal => self.literal(*token),
                TokenKind::Class => self.class(*token),
                TokenKind::Dot => self.any(*token),
                TokenKind::Open => self.parenthesized(*token, &tokens[1..], left),
                _ => Err(self.unexpected(tokens)),
            },
            [] => Err(self.unexpected(tokens)),
        }
    }

    // A name that isn't the name of the next definition.
    #[inline(never)]
    fn name(&self, token: Token, rest: &[Token]) -> Result<ParsedExpr, NotationFault>
        requires text { IsText (file_of self.now) (lexeme_of token) }
        requires inside { LiesIn (length (file_of self.now)) (extent token.span) }
        requires ident { token.kind ≡ TokenKind.Ident }
        ensures { Agrees form_seen (named (file_of self.now) (lexeme_of token) (lexemes rest.now)) result }
    {
        if starts_with_arrow(rest) {
            return Err(self.unexpected(rest));
        }
        let span = token.span;
        let name = name_text(
            self.alloc,
            &self.file[span.start as usize..span.end as usize],
        )?;
        one_token(self.alloc, Expr::Name { name, span }, token)
    }

    // The bytes that a literal denotes.
    #[inline(never)]
    fn literal(&self, token: Token) -> Result<ParsedExpr, NotationFault>
        requires text { IsText (file_of self.now) (lexeme_of token) }
        requires inside { LiesIn (length (file_of self.now)) (extent token.span) }
        requires literal { token.kind ≡ TokenKind.Literal }
        ensures { Agrees form_seen (one_token
            (Literal (bytes_in (pieces_of (file_of self.now) (lexeme_of token))) (extent token.span))
            (lexeme_of token)) result }
    {
        let span = token.span;
        let bytes = literal_bytes(self.alloc, &self.file[span.start as usize..])?;
        one_token(self.alloc, literal_of(bytes, span), token)
    }

    // The set of bytes that a class denotes.
    #[inline(never)]
    fn class(&self, token: Token) -> Result<ParsedExpr, NotationFault>
        requires text { IsText (file_of self.now) (lexeme_of token) }
        requires inside { LiesIn (length (file_of self.now)) (extent token.span) }
        requires class { token.kind ≡ TokenKind.Class }
        ensures { Agrees form_seen (one_token
            (Class (class_of (ranges_in (pieces_of (file_of self.now) (lexeme_of token)))) (extent token.span))
            (lexeme_of token)) result }
    {
        let span = token.span;
        let set = class_of_token(self.alloc, &self.file[span.start as usize..])?;
        one_token(self.alloc, class_of(set, span), token)
    }

    // Any one byte.
    #[inline(never)]
    fn any(&self, token: Token) -> Result<ParsedExpr, NotationFault>
        ensures { Agrees form_seen (one_token (Any (extent token.span)) (lexeme_of token)) result }
    {
        one_token(self.alloc, any_of(token.span), token)
    }

    // The expression after an open parenthesis, if one more may be open, and the parenthesis that closes it.
    #[cycle(reader)]
    #[tactic(auto, using(crate::proofs::ReaderSteps::faults))]
    fn parenthesized(
        &self,
        opening: Token,
        rest: &[Token],
        left: u32,
    ) -> Result<ParsedExpr, NotationFault>
        requires texts { AreTexts (file_of self.now) opening.span.end (lexemes rest.now) }
        ensures read { Agrees form_seen (parenthesized (inner_reading (file_of self.now) left) (length
            (file_of self.now))
            (lexeme_of opening) (lexemes rest.now)) result }
        ensures fits { IfOk result (λ part. part.token_count ≤ 1 + length rest.now) }
        ensures some { IfOk result (λ part. 0 < part.token_count) }
        ensures shallow { IfOk result (λ part. part.depth ≤ left) }
    {
        if left == 0 {
            return Err(NotationFault::TooNested {
                at: opening.span.start,
            });
        }
        let inside = self.expression(opening.span.end, rest, left - 1)?;
        self.closed(rest_after(rest, inside.token_count), inside)
    }

    // The closing parenthesis. If there is a name instead, it is followed by an arrow, and the arrow is the unexpected
    // token.
    #[inline(never)]
    fn closed(&self, rest: &[Token], inside: ParsedExpr) -> Result<ParsedExpr, NotationFault>
        requires few { inside.token_count < 2 ^ 63 }
        requires shallow { inside.depth + 1 < 2 ^ 32 }
        ensures read { Agrees form_seen
            (closed_form (length (file_of self.now)) (form_seen inside) (lexemes rest.now)) result }
        ensures fits { IfOk result (λ part. part.token_count ≤ inside.token_count + 1 + length rest.now) }
        ensures some { IfOk result (λ part. 0 < part.token_count) }
        ensures depth { IfOk result (λ part. part.depth ≡ inside.depth + 1) }
    {
        match rest {
            [closing, ..] => match closing.kind {
                TokenKind::Close => Ok(ParsedExpr {
                    expression: inside.expression,
                    token_count: inside.token_count + 2,
                    last: closing.span.end,
                    depth: inside.depth + 1,
                }),
                TokenKind::Ident => Err(self.unexpected(&rest[1..])),
                _ => Err(self.unexpected(rest)),
            },
            [] => Err(self.unexpected(rest)),
        }
    }
}

#[inline(never)]
fn one_token(alloc: Global, expression: Expr, token: Token) -> Result<ParsedExpr, NotationFault>
    ensures { Agrees form_seen (one_token (form_of expression) (lexeme_of token)) result }
{
    Ok(ParsedExpr {
        expression: Box::new(alloc, expression)?,
        token_count: 1,
        last: token.span.end,
        depth: 0,
    })
}

fn any_of(span: Span) -> Expr
    ensures { form_of result ≡ Any (extent span) }
{
    Expr::Any { span }
}

fn literal_of(bytes: Vec<u8>, span: Span) -> Expr
    ensures { form_of result ≡ Literal bytes.items (extent span) }
{
    Expr::Literal { bytes, span }
}

fn class_of(set: ByteSet, span: Span) -> Expr
    ensures { form_of result ≡ Class (bytes_of set) (extent span) }
{
    Expr::Class { set, span }
}
