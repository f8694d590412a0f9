//! The token at the start of the remaining bytes of a file.
ghost use Rattle.std.specs.Prelude.{◌≡◌, ◌<◌, ◌≤◌, length, IfSome};
ghost use Rattle.peg_lexer.specs.Lexical.{kind_of, matcher_of};
ghost use Rattle.peg_lexer.specs.LexicalCode.{view_of_scanned, token_view};
ghost use Rattle.peg_lexer.specs.Matchers.{match_length, literal_bytes};

use crate::counts::count;
use crate::scan_literals::{begins_name, class, identifier, literal};
use crate::token::TokenKind;

/// A token at the start of the remaining bytes: its kind, and the length of its text in bytes.
#[derive(Clone, Copy, Debug)]
pub(crate) struct Scanned {
    pub(crate) kind: TokenKind,
    pub(crate) length: usize,
}

/// Returns the token at the start of `rest`, if there is one. Linear in the length of its text.
pub(crate) fn token(rest: &[u8]) -> Option<Scanned>
    ensures value { view_of_scanned result ≡ token_view rest.now }
    ensures some { IfSome result (λ front. 0 < front.length) }
    ensures fits { IfSome result (λ front. front.length ≤ length rest.now) }
{
    let kind = match rest {
        [first, ..] => kind_of(*first)?,
        [] => return None,
    };
    let length = text_length(kind, rest)?;
    Some(Scanned { kind, length })
}

// The kind of token that can begin with this byte.
#[tactic(auto, unfolding(crate::specs::Lexical::kind_of))]
fn kind_of(first: u8) -> Option<TokenKind>
    ensures { result ≡ kind_of first }
{
    if begins_name(first) {
        return Some(TokenKind::Ident);
    }
    match first {
        b'\'' | b'"' => Some(TokenKind::Literal),
        b'[' => Some(TokenKind::Class),
        b'<' => Some(TokenKind::Arrow),
        b'/' => Some(TokenKind::Slash),
        b'&' => Some(TokenKind::And),
        b'!' => Some(TokenKind::Not),
        b'?' => Some(TokenKind::Question),
        b'*' => Some(TokenKind::Star),
        b'+' => Some(TokenKind::Plus),
        b'{' => Some(TokenKind::Count),
        b'(' => Some(TokenKind::Open),
        b')' => Some(TokenKind::Close),
        b'.' => Some(TokenKind::Dot),
        _ => None,
    }
}

// The length of the token of this kind at the start of `rest`.
fn text_length(kind: TokenKind, rest: &[u8]) -> Option<usize>
    ensures value { result ≡ match_length (matcher_of kind rest.now) }
    ensures some { IfSome result (λ n. 0 < n) }
    ensures fits { IfSome result (λ n. n ≤ length rest.now) }
{
    match kind {
        TokenKind::Ident => identifier(rest),
        TokenKind::Literal => literal(rest),
        TokenKind::Class => class(rest),
        TokenKind::Arrow => sign(b"<-", rest),
        TokenKind::Slash => sign(b"/", rest),
        TokenKind::And => sign(b"&", rest),
        TokenKind::Not => sign(b"!", rest),
        TokenKind::Question => sign(b"?", rest),
        TokenKind::Star => sign(b"*", rest),
        TokenKind::Plus => sign(b"+", rest),
        TokenKind::Count => count(rest),
        TokenKind::Open => sign(b"(", rest),
        TokenKind::Close => sign(b")", rest),
        TokenKind::Dot => sign(b".", rest),
    }
}

// The length of an operator or bracket, if `rest` starts with it.
fn sign(sign: &[u8], rest: &[u8]) -> Option<usize>
    requires { 0 < length sign.now }
    ensures value { result ≡ match_length (literal_bytes sign.now rest.now) }
    ensures some { IfSome result (λ n. 0 < n) }
    ensures fits { IfSome result (λ n. n ≤ length rest.now) }
{
    if rest.starts_with(sign) {
        Some(sign.len())
    } else {
        None
    }
}
