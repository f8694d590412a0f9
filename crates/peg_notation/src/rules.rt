//! Reads rules and whole files from tokens: the metagrammar rules Definition and Grammar.
ghost use Rattle.std.specs.Prelude.{◌≡◌, ◌+◌, ◌<◌, ◌≤◌, length, IfOk};
ghost use Rattle.peg_bytes.specs.Extent.{extent};
ghost use Rattle.peg_notation.specs.Reader.{starts_with_arrow, definition_after, definition, grammar};
ghost use Rattle.peg_notation.specs.ReaderCode.{lexemes, IsText, AreTexts, rule_seen, rules_seen, Agrees};
ghost use Rattle.peg_metagrammar.specs.Nesting.{max_open};
ghost use Rattle.peg_notation.specs.Spans.{LiesIn};
ghost use Rattle.peg_lexer.specs.Tokens.{lexeme_of};

use crate::fault::NotationFault;
use crate::reader::{Reader, rest_after, starts_with_arrow};
use peg_grammar::Definition;
use peg_lexer::{Token, TokenKind, name_text};
use peg_metagrammar::MAX_OPEN;

/// A rule that was read.
#[derive(Debug, Drop)]
pub(crate) struct ReadRule {
    pub(crate) definition: Definition,
    /// The number of its tokens.
    pub(crate) token_count: usize,
    /// The nesting depth of its parentheses.
    pub(crate) depth: u32,
}

/// The rules that were read.
#[derive(Debug, Drop)]
pub(crate) struct ReadRules {
    pub(crate) definitions: Vec<Definition>,
    pub(crate) depth: u32,
}

impl<'a> Reader<'a> {
    ghost use Rattle.peg_notation.specs.ReaderFile.{file_of};

    /// Reads definitions up to the end of the tokens, at least one.
    #[tactic(auto, unfolding(crate::specs::Reader::grammar))]
    pub(crate) fn grammar(&self, tokens: &[Token]) -> Result<ReadRules, NotationFault>
        requires { AreTexts (file_of self.now) 0 (lexemes tokens.now) }
        ensures { Agrees rules_seen (grammar (file_of self.now) max_open (lexemes tokens.now)) result }
    {
        if tokens.is_empty() {
            return Err(self.unexpected(tokens));
        }
        let mut definitions = Vec::new(self.alloc);
        let mut token_count = 0;
        let mut depth: u32 = 0;
        'rules: while token_count < tokens.len() {
            let rule = self.definition(rest_after(tokens, token_count))?;
            token_count += rule.token_count;
            depth = depth.max(rule.depth);
            definitions.push(rule.definition)?;
        }
        Ok(ReadRules { definitions, depth })
    }

    // Definition: a name, an arrow and an expression.
    #[tactic(auto, unfolding(crate::specs::Reader::definition))]
    fn definition(&self, tokens: &[Token]) -> Result<ReadRule, NotationFault>
        requires { AreTexts (file_of self.now) 0 (lexemes tokens.now) }
        ensures read { Agrees rule_seen (definition (file_of self.now) max_open (lexemes tokens.now)) result }
        ensures fits { IfOk result (λ rule. rule.token_count ≤ length tokens.now) }
        ensures some { IfOk result (λ rule. 0 < rule.token_count) }
    {
        match tokens {
            [name, ..] if matches!(name.kind, TokenKind::Ident) => {
                self.definition_body(*name, &tokens[1..])
            }
            _ => Err(self.unexpected(tokens)),
        }
    }

    // The arrow and the expression after a name.
    fn definition_body(&self, name: Token, rest: &[Token]) -> Result<ReadRule, NotationFault>
        requires text { IsText (file_of self.now) (lexeme_of name) }
        requires inside { LiesIn (length (file_of self.now)) (extent name.span) }
        requires ident { name.kind ≡ TokenKind.Ident }
        requires texts { AreTexts (file_of self.now) name.span.end (lexemes rest.now) }
        ensures read { Agrees rule_seen (definition_after (file_of self.now) max_open (lexeme_of name)
            (lexemes rest.now) (starts_with_arrow (lexemes rest.now))) result }
        ensures fits { IfOk result (λ rule. rule.token_count ≤ 1 + length rest.now) }
        ensures some { IfOk result (λ rule. 0 < rule.token_count) }
    {
        match rest {
            [arrow, ..] if starts_with_arrow(rest) => {
                let body = self.expression(arrow.span.end, &rest[1..], MAX_OPEN as u32)?;
                let span = name.span;
                let text = &self.file[span.start as usize..span.end as usize];
                let definition = Definition {
                    name: name_text(self.alloc, text)?,
                    span,
                    body: Box::into_inner(body.expression),
                };
                Ok(ReadRule {
                    definition,
                    token_count: 2 + body.token_count,
                    depth: body.depth,
                })
            }
            _ => Err(self.unexpected(rest)),
        }
    }
}
