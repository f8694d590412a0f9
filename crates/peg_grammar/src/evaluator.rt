//! The reference evaluator: Ford's recognition relation as a recursion over expressions as written, with a depth limit.
//! It is simple and slow.
ghost use Rattle.std.specs.Prelude.{◌≡◌, ◌≤◌, ◌<◌, ◌↔◌, map, length, IfOk, IsErrOf, None};
ghost use Rattle.peg_tree.specs.Rows.{row_of};
ghost use Rattle.peg_grammar.specs.GrammarRules.{rules_in};
ghost use Rattle.peg_semantics.specs.Numbers.{first_from};
ghost use Rattle.peg_grammar.specs.Limits.{max_text_bytes};
ghost use Rattle.peg_grammar.specs.Outcomes.{Answers};
ghost use Rattle.peg_semantics.specs.Record.{start_record};
ghost use Rattle.peg_semantics.specs.Rules.{name_of};
ghost use Rattle.peg_grammar.specs.Seen.{LeavesTree, IsParsed};

use crate::found::{Abort, Found, Furthest, MatchResult};
use crate::terminals::{first_terminals, terminal_count};
use crate::{Expr, Grammar};
use peg_bytes::{ByteSet, Span};
use peg_tree::{Outcome, Parsed, Tree, TreeNode};
use std::alloc::{AllocError, Global};
use thiserror::Error;

/// The maximum length of a text, in bytes.
pub const MAX_TEXT_BYTES: usize = 67_108_864;

/// Why `plain_match` returned no outcome.
#[derive(Clone, Copy, Debug, PartialEq, Eq, Error)]
pub enum PlainFault {
    /// The text has more than `MAX_TEXT_BYTES` bytes.
    #[error("the text is too long")]
    TextTooLong,
    /// The cases of recognition nest deeper than the given limit.
    #[error("the recognition nests too deep")]
    DepthUsed,
    /// An allocation failed.
    #[error("out of memory")]
    Memory,
}

impl From<AllocError> for PlainFault {
    ghost use Rattle.std.specs.Prelude.{◌≡◌};
    ghost use Rattle.peg_grammar.specs.declared.evaluator.PlainFault.TheVariants.{Memory};

    ghost from_gives = { λ _ fault. fault ≡ Memory };

    fn from(_error: AllocError) -> PlainFault {
        PlainFault::Memory
    }
}

/// Evaluates a rule on a text from position 0 (Ford 2004, section 3.3). The outcome has the end of the match, its tree,
/// and the furthest failure with terminal numbers. Returns `DepthUsed` if the cases of recognition nest deeper than
/// `depth`. The time can be exponential in `depth`.
pub fn plain_match(
    alloc: Global,
    grammar: &Grammar,
    text: &[u8],
    start: u32,
    depth: u64,
) -> Result<Outcome, PlainFault>
    requires { start < length (rules_in grammar.now) }
    ensures long { IsErrOf result PlainFault.TextTooLong ↔ (max_text_bytes < length text.now) }
    ensures outcome { IfOk result (Answers
        (start_record (rules_in grammar.now) text.now depth (name_of (rules_in grammar.now) start))) }
    ensures deep { IsErrOf result PlainFault.DepthUsed → start_record (rules_in grammar.now) text.now depth
        (name_of (rules_in grammar.now) start) ≡ None }
{
    if text.len() > MAX_TEXT_BYTES {
        return Err(PlainFault::TextTooLong);
    }
    let first = first_terminals(alloc, grammar.definitions())?;
    let plain = Evaluator {
        grammar,
        first: first.as_slice(),
        text,
    };
    let mut found = Found {
        furthest: Furthest {
            far: 0,
            expected: Vec::new(alloc),
        },
        rows: Vec::new(alloc),
    };
    match plain.start(&mut found, start, depth) {
        Err(Abort::AtDepth) => Err(PlainFault::DepthUsed),
        Err(Abort::OutOfMemory) => Err(PlainFault::Memory),
        Ok(match_result) => Ok(outcome_of(match_result, found)),
    }
}

/// The immutable input of an evaluation: a grammar, the number of each rule's first terminal, and a text.
#[derive(Clone, Copy)]
struct Evaluator<'a> {
    grammar: &'a Grammar,
    first: &'a [u32],
    text: &'a [u8],
    ghost short: { length text.now ≤ max_text_bytes },
    ghost numbered: { first.now ≡ first_from 0 (rules_in grammar.now) },
}

impl<'a> Evaluator<'a> {
    ghost use Rattle.std.specs.Prelude.{◌≡◌, ℕ, ◌+◌, ◌<◌, ◌≤◌, map, length, drop, IfOk, Some, true, string_bytes};
    ghost use Rattle.peg_bytes.specs.ByteSet.{has, bytes_of};
    ghost use Rattle.peg_bytes.specs.Extent.{Extent};
    ghost use Rattle.peg_semantics.specs.Form.{Name, Seq, Choice, Optional, Star, Plus, Counted, And, Not, forms};
    ghost use Rattle.peg_semantics.specs.Form.{terminals};
    ghost use Rattle.peg_semantics.specs.Form.{terminals_of_all};
    ghost use Rattle.peg_grammar.specs.Found.{seen_in};
    ghost use Rattle.peg_semantics.specs.Grammar.{max_parts};
    ghost use Rattle.peg_grammar.specs.GrammarRules.{rules_in};
    ghost use Rattle.peg_grammar.specs.Evaluator.{evaluated_text, recognizer_in, table_in, call_in};
    ghost use Rattle.peg_semantics.specs.Record.{literal_at, byte_at, start_record, recognize_seq, recognize_choice};
    ghost use Rattle.peg_semantics.specs.Rules.{name_of};
    ghost use Rattle.peg_grammar.specs.Seen.{Evaluates, EndsWithin};
    ghost use Rattle.peg_grammar.specs.Written.{form_of};

    /// Evaluates a literal at a position.
    fn literal(
        &self,
        found: &mut Found,
        bytes: &[u8],
        terminal: u32,
        position: u32,
    ) -> Result<MatchResult, Abort>
        requires { position ≤ length (evaluated_text self.now) }
        ensures evaluates { Evaluates (Some (literal_at terminal position bytes.now (drop position
            (evaluated_text self.now))))
            (seen_in found.old) result (seen_in found.new) }
        ensures within { IfOk result (EndsWithin position (length (evaluated_text self.now))) }
    {
        let rest = &self.text[position as usize..];
        for (at, byte) in bytes.iter().enumerate() {
            if at >= rest.len() || rest[at] != *byte {
                found.furthest.note(terminal, position + at as u32)?;
                return Ok(MatchResult::Fails);
            }
        }
        let end = position + bytes.len() as u32;
        Ok(MatchResult::EndsAt { end })
    }

    /// Evaluates a class at a position.
    fn class(
        &self,
        found: &mut Found,
        set: &ByteSet,
        terminal: u32,
        position: u32,
    ) -> Result<MatchResult, Abort>
        requires { position ≤ length (evaluated_text self.now) }
        ensures evaluates { Evaluates
            (Some (byte_at (has (bytes_of set.now)) terminal position (drop position (evaluated_text self.now))))
            (seen_in found.old) result (seen_in found.new) }
        ensures within { IfOk result (EndsWithin position (length (evaluated_text self.now))) }
    {
        let at = position as usize;
        if at < self.text.len() && set.contains(self.text[at]) {
            return Ok(MatchResult::EndsAt { end: position + 1 });
        }
        found.furthest.note(terminal, position)?;
        Ok(MatchResult::Fails)
    }

    /// Evaluates a dot at a position.
    fn any(&self, found: &mut Found, terminal: u32, position: u32) -> Result<MatchResult, Abort>
        requires { position ≤ length (evaluated_text self.now) }
        ensures evaluates { Evaluates (Some (byte_at (λ byte. true) terminal position (drop position
            (evaluated_text self.now))))
            (seen_in found.old) result (seen_in found.new) }
        ensures within { IfOk result (EndsWithin position (length (evaluated_text self.now))) }
    {
        if (position as usize) < self.text.len() {
            return Ok(MatchResult::EndsAt { end: position + 1 });
        }
        found.furthest.note(terminal, position)?;
        Ok(MatchResult::Fails)
    }

    /// Evaluates an expression at a position. `terminal` is the number of its first terminal. If the expression fails,
    /// the nodes in `found` are unchanged.
    #[cycle(plain)]
    fn expression(
        &self,
        found: &mut Found,
        expr: &Expr,
        terminal: u32,
        position: u32,
        depth: u64,
    ) -> Result<MatchResult, Abort>
        requires position { position ≤ length (evaluated_text self.now) }
        requires few { terminal + terminals (form_of expr.now) ≤ max_parts }
        ensures evaluates { Evaluates (recognizer_in self.now depth (form_of expr.now) terminal position)
            (seen_in found.old) result (seen_in found.new) }
        ensures within { IfOk result (EndsWithin position (length (evaluated_text self.now))) }
    {
        if depth == 0 {
            return Err(Abort::AtDepth);
        }
        self.case(found, expr, terminal, position, depth - 1)
    }

    /// Evaluates one case of Ford's rules; its parts are evaluated in depth `depth`.
    #[cycle(plain)]
    fn case(
        &self,
        found: &mut Found,
        expr: &Expr,
        terminal: u32,
        position: u32,
        depth: u64,
    ) -> Result<MatchResult, Abort>
        requires position { position ≤ length (evaluated_text self.now) }
        requires few { terminal + terminals (form_of expr.now) ≤ max_parts }
        ensures evaluates { Evaluates (table_in self.now depth (form_of expr.now) terminal position)
            (seen_in found.old) result (seen_in found.new) }
        ensures within { IfOk result (EndsWithin position (length (evaluated_text self.now))) }
    {
        match expr {
            Expr::Literal { bytes, .. } => self.literal(found, bytes, terminal, position),
            Expr::Class { set, .. } => self.class(found, set, terminal, position),
            Expr::Any { .. } => self.any(found, terminal, position),
            Expr::Name { name, .. } => self.name(found, name.as_str(), position, depth),
            Expr::Seq { items, .. } => self.items(found, items, terminal, position, depth),
            Expr::Choice { first, rest, .. } => {
                self.choice(found, first, rest, terminal, position, depth)
            }
            Expr::Optional { part, .. } => self.optional(found, part, terminal, position, depth),
            Expr::Star { part, .. } => self.rounds(found, part, terminal, position, depth),
            Expr::Plus { part, .. } => self.plus(found, part, terminal, position, depth),
            Expr::Counted { part, min, max, .. } => {
                self.counted(found, part, *min, *max, terminal, position, depth)
            }
            Expr::And { part, .. } => self.and(found, part, terminal, position, depth),
            Expr::Not { part, .. } => self.not(found, part, terminal, position, depth),
        }
    }

    /// Evaluates a sequence: each item from the end of the item before.
    #[cycle(plain)]
    fn items(
        &self,
        found: &mut Found,
        items: &[Expr],
        terminal: u32,
        position: u32,
        depth: u64,
    ) -> Result<MatchResult, Abort>
        requires position { position ≤ length (evaluated_text self.now) }
        requires few { terminal + terminals_of_all (forms (map form_of items.now)) ≤ max_parts }
        ensures evaluates { (span : Extent) → Evaluates
            (table_in self.now depth (Seq (forms (map form_of items.now)) span) terminal position)
            (seen_in found.old) result (seen_in found.new) }
        ensures within { IfOk result (EndsWithin position (length (evaluated_text self.now))) }
    {
        let from = found.rows.len();
        let mut at = position;
        let mut terminal = terminal;
        for item in items {
            match self.expression(found, item, terminal, at, depth) {
                Err(stop) => return Err(stop),
                Ok(MatchResult::Fails) => {
                    found.rows.truncate(from);
                    return Ok(MatchResult::Fails);
                }
                Ok(MatchResult::EndsAt { end }) => {
                    at = end;
                    terminal += terminal_count(item);
                }
            }
        }
        Ok(MatchResult::EndsAt { end: at })
    }

    /// Evaluates an ordered choice: the first alternative that matches, all tried at the same position.
    #[cycle(plain)]
    fn choice(
        &self,
        found: &mut Found,
        first: &Expr,
        rest: &[Expr],
        terminal: u32,
        position: u32,
        depth: u64,
    ) -> Result<MatchResult, Abort>
        requires position { position ≤ length (evaluated_text self.now) }
        requires few { terminal + (terminals (form_of first.now) + terminals_of_all (forms (map form_of rest.now)))
            ≤ max_parts }
        ensures evaluates { (span : Extent) → Evaluates
            (table_in self.now depth (Choice (form_of first.now) (forms (map form_of rest.now)) span) terminal position)
            (seen_in found.old) result (seen_in found.new) }
        ensures within { IfOk result (EndsWithin position (length (evaluated_text self.now))) }
    {
        match self.expression(found, first, terminal, position, depth) {
            Err(stop) => return Err(stop),
            Ok(MatchResult::EndsAt { end }) => return Ok(MatchResult::EndsAt { end }),
            Ok(MatchResult::Fails) => {}
        }
        let mut terminal = terminal + terminal_count(first);
        for next in rest {
            match self.expression(found, next, terminal, position, depth) {
                Err(stop) => return Err(stop),
                Ok(MatchResult::EndsAt { end }) => return Ok(MatchResult::EndsAt { end }),
                Ok(MatchResult::Fails) => terminal += terminal_count(next),
            }
        }
        Ok(MatchResult::Fails)
    }

    /// Evaluates an optional part.
    #[cycle(plain)]
    fn optional(
        &self,
        found: &mut Found,
        part: &Expr,
        terminal: u32,
        position: u32,
        depth: u64,
    ) -> Result<MatchResult, Abort>
        requires position { position ≤ length (evaluated_text self.now) }
        requires few { terminal + terminals (form_of part.now) ≤ max_parts }
        ensures evaluates { (span : Extent) → Evaluates
            (table_in self.now depth (Optional (form_of part.now) span) terminal position)
            (seen_in found.old) result (seen_in found.new) }
        ensures within { IfOk result (EndsWithin position (length (evaluated_text self.now))) }
    {
        match self.expression(found, part, terminal, position, depth) {
            Err(stop) => Err(stop),
            Ok(MatchResult::Fails) => Ok(MatchResult::EndsAt { end: position }),
            Ok(MatchResult::EndsAt { end }) => Ok(MatchResult::EndsAt { end }),
        }
    }

    /// Evaluates a star: the part, then the star again if the part matched.
    #[cycle(plain)]
    fn rounds(
        &self,
        found: &mut Found,
        part: &Expr,
        terminal: u32,
        position: u32,
        depth: u64,
    ) -> Result<MatchResult, Abort>
        requires position { position ≤ length (evaluated_text self.now) }
        requires few { terminal + terminals (form_of part.now) ≤ max_parts }
        ensures evaluates { (span : Extent) → Evaluates
            (table_in self.now depth (Star (form_of part.now) span) terminal position)
            (seen_in found.old) result (seen_in found.new) }
        ensures within { IfOk result (EndsWithin position (length (evaluated_text self.now))) }
    {
        match self.expression(found, part, terminal, position, depth) {
            Err(stop) => Err(stop),
            Ok(MatchResult::Fails) => Ok(MatchResult::EndsAt { end: position }),
            Ok(MatchResult::EndsAt { end }) => self.star(found, part, terminal, end, depth),
        }
    }

    /// Evaluates a star as a part of another case, which takes one level of depth.
    #[cycle(plain)]
    fn star(
        &self,
        found: &mut Found,
        part: &Expr,
        terminal: u32,
        position: u32,
        depth: u64,
    ) -> Result<MatchResult, Abort>
        requires position { position ≤ length (evaluated_text self.now) }
        requires few { terminal + terminals (form_of part.now) ≤ max_parts }
        ensures evaluates { (span : Extent) → Evaluates
            (recognizer_in self.now depth (Star (form_of part.now) span) terminal position)
            (seen_in found.old) result (seen_in found.new) }
        ensures within { IfOk result (EndsWithin position (length (evaluated_text self.now))) }
    {
        if depth == 0 {
            return Err(Abort::AtDepth);
        }
        self.rounds(found, part, terminal, position, depth - 1)
    }

    /// Evaluates a plus: the part, then the star of the part.
    #[cycle(plain)]
    fn plus(
        &self,
        found: &mut Found,
        part: &Expr,
        terminal: u32,
        position: u32,
        depth: u64,
    ) -> Result<MatchResult, Abort>
        requires position { position ≤ length (evaluated_text self.now) }
        requires few { terminal + terminals (form_of part.now) ≤ max_parts }
        ensures evaluates { (span : Extent) → Evaluates
            (table_in self.now depth (Plus (form_of part.now) span) terminal position)
            (seen_in found.old) result (seen_in found.new) }
        ensures within { IfOk result (EndsWithin position (length (evaluated_text self.now))) }
    {
        match self.expression(found, part, terminal, position, depth) {
            Err(stop) => Err(stop),
            Ok(MatchResult::Fails) => Ok(MatchResult::Fails),
            Ok(MatchResult::EndsAt { end }) => self.star(found, part, terminal, end, depth),
        }
    }

    /// Evaluates a count: at least `min` and at most `max` repetitions, each from the end of the one before.
    #[cycle(plain)]
    fn counted(
        &self,
        found: &mut Found,
        part: &Expr,
        min: u8,
        max: u8,
        terminal: u32,
        position: u32,
        depth: u64,
    ) -> Result<MatchResult, Abort>
        requires position { position ≤ length (evaluated_text self.now) }
        requires few { terminal + terminals (form_of part.now) ≤ max_parts }
        ensures evaluates { (span : Extent) → Evaluates
            (table_in self.now depth (Counted (form_of part.now) min max span) terminal position)
            (seen_in found.old) result (seen_in found.new) }
        ensures within { IfOk result (EndsWithin position (length (evaluated_text self.now))) }
    {
        let held = found.rows.len();
        let mut at = position;
        for round in 0..max {
            match self.expression(found, part, terminal, at, depth) {
                Err(stop) => return Err(stop),
                Ok(MatchResult::Fails) => {
                    if round >= min {
                        return Ok(MatchResult::EndsAt { end: at });
                    }
                    found.rows.truncate(held);
                    return Ok(MatchResult::Fails);
                }
                Ok(MatchResult::EndsAt { end }) => at = end,
            }
        }
        Ok(MatchResult::EndsAt { end: at })
    }

    /// Evaluates an and-predicate, and drops the nodes of the part.
    #[cycle(plain)]
    fn and(
        &self,
        found: &mut Found,
        part: &Expr,
        terminal: u32,
        position: u32,
        depth: u64,
    ) -> Result<MatchResult, Abort>
        requires position { position ≤ length (evaluated_text self.now) }
        requires few { terminal + terminals (form_of part.now) ≤ max_parts }
        ensures evaluates { (span : Extent) → Evaluates
            (table_in self.now depth (And (form_of part.now) span) terminal position)
            (seen_in found.old) result (seen_in found.new) }
        ensures within { IfOk result (EndsWithin position (length (evaluated_text self.now))) }
    {
        let from = found.rows.len();
        match self.expression(found, part, terminal, position, depth) {
            Err(stop) => Err(stop),
            Ok(MatchResult::Fails) => Ok(MatchResult::Fails),
            Ok(MatchResult::EndsAt { .. }) => {
                found.rows.truncate(from);
                Ok(MatchResult::EndsAt { end: position })
            }
        }
    }

    /// Evaluates a not-predicate, and drops the nodes of the part.
    #[cycle(plain)]
    fn not(
        &self,
        found: &mut Found,
        part: &Expr,
        terminal: u32,
        position: u32,
        depth: u64,
    ) -> Result<MatchResult, Abort>
        requires position { position ≤ length (evaluated_text self.now) }
        requires few { terminal + terminals (form_of part.now) ≤ max_parts }
        ensures evaluates { (span : Extent) → Evaluates
            (table_in self.now depth (Not (form_of part.now) span) terminal position)
            (seen_in found.old) result (seen_in found.new) }
        ensures within { IfOk result (EndsWithin position (length (evaluated_text self.now))) }
    {
        let from = found.rows.len();
        match self.expression(found, part, terminal, position, depth) {
            Err(stop) => Err(stop),
            Ok(MatchResult::Fails) => Ok(MatchResult::EndsAt { end: position }),
            Ok(MatchResult::EndsAt { .. }) => {
                found.rows.truncate(from);
                Ok(MatchResult::Fails)
            }
        }
    }

    /// Evaluates a call by name. `Grammar::new` has checked that the name is defined.
    #[cycle(plain)]
    fn name(
        &self,
        found: &mut Found,
        name: &str,
        position: u32,
        depth: u64,
    ) -> Result<MatchResult, Abort>
        requires { position ≤ length (evaluated_text self.now) }
        ensures evaluates { (span : Extent) (terminal : ℕ) → Evaluates
            (table_in self.now depth (Name name.now span) terminal position)
            (seen_in found.old) result (seen_in found.new) }
        ensures within { IfOk result (EndsWithin position (length (evaluated_text self.now))) }
    {
        match self.grammar.rule_number(name) {
            None => Err(Abort::AtDepth),
            Some(rule) => self.rule(found, rule, position, depth),
        }
    }

    /// Evaluates a rule at a position. The node of the rule is pushed first, so that it precedes the nodes of its
    /// parts.
    #[cycle(plain)]
    fn rule(
        &self,
        found: &mut Found,
        rule: u32,
        position: u32,
        depth: u64,
    ) -> Result<MatchResult, Abort>
        requires position { position ≤ length (evaluated_text self.now) }
        requires rule { rule < length (rules_in self.now.grammar.now) }
        ensures evaluates { Evaluates (call_in self.now depth rule position)
            (seen_in found.old) result (seen_in found.new) }
        ensures within { IfOk result (EndsWithin position (length (evaluated_text self.now))) }
    {
        let from = found.rows.len();
        let span = Span::new(position, position);
        let size = 1;
        found.rows.push(TreeNode { rule, span, size })?;
        let terminal = self.first[rule as usize];
        match self.expression(found, self.grammar.body(rule), terminal, position, depth) {
            Err(stop) => Err(stop),
            Ok(MatchResult::Fails) => {
                found.rows.truncate(from);
                Ok(MatchResult::Fails)
            }
            Ok(MatchResult::EndsAt { end }) => {
                let size = (found.rows.len() - from) as u64;
                let span = Span::new(position, end);
                found.rows[from] = TreeNode { rule, span, size };
                Ok(MatchResult::EndsAt { end })
            }
        }
    }

    /// Evaluates a rule at position 0.
    fn start(&self, found: &mut Found, rule: u32, depth: u64) -> Result<MatchResult, Abort>
        requires { rule < length (rules_in self.now.grammar.now) }
        ensures { Evaluates (start_record (rules_in self.now.grammar.now) (evaluated_text self.now) depth
            (name_of (rules_in self.now.grammar.now) rule)) (seen_in found.old) result (seen_in found.new) }
    {
        if depth == 0 {
            return Err(Abort::AtDepth);
        }
        self.name(found, self.grammar.rule_name(rule), 0, depth - 1)
    }
}

// Turns a verdict and the evaluator's state into an outcome.
fn outcome_of(match_result: MatchResult, found: Found) -> Outcome
    requires { LeavesTree match_result (map row_of found.rows.items) }
    ensures far { result.far ≡ found.furthest.far }
    ensures expected { result.expected.items ≡ found.furthest.expected.items }
    ensures parsed { IsParsed match_result (map row_of found.rows.items) result.result }
{
    let Found { furthest, rows } = found;
    let Furthest { far, expected } = furthest;
    let result = match match_result {
        MatchResult::Fails => Parsed::Failed,
        MatchResult::EndsAt { end } => Parsed::Matched {
            end,
            tree: Tree::from_rows(rows),
        },
    };
    Outcome {
        result,
        far,
        expected,
    }
}
