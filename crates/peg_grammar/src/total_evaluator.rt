//! The reference evaluator without a depth limit. It terminates because the grammar is well-formed.
ghost use Rattle.std.specs.Prelude.{◌<◌, ◌↔◌, length, IfOk, IsErrOf};
ghost use Rattle.peg_grammar.specs.GrammarRules.{rules_in};
ghost use Rattle.peg_grammar.specs.Limits.{max_text_bytes};
ghost use Rattle.peg_grammar.specs.Outcomes.{IsParseOutcome};
ghost use Rattle.peg_semantics.specs.Rules.{name_of};
ghost use Rattle.peg_semantics.specs.WellFormed.{IsWellFormedGrammar};

use crate::{Grammar, PlainFault, plain_match};
use peg_tree::Outcome;
use std::alloc::Global;
use thiserror::Error;

/// Why `plain_total` returned no outcome.
#[derive(Clone, Copy, Debug, PartialEq, Eq, Error)]
pub enum TotalFault {
    /// The text has more than `MAX_TEXT_BYTES` bytes.
    #[error("the text is too long")]
    TextTooLong,
    /// An allocation failed.
    #[error("out of memory")]
    Memory,
}

/// Evaluates a rule of a well-formed grammar on a text, as `plain_match` does but without a depth limit. The evaluation
/// terminates since a well-formed grammar is complete (Ford 2004, section 3.6). The time can be exponential in the
/// length of the text. The recursion is as deep as the cases of recognition nest.
pub fn plain_total(
    alloc: Global,
    grammar: &Grammar,
    text: &[u8],
    start: u32,
) -> Result<Outcome, TotalFault>
    requires start { start < length (rules_in grammar.now) }
    requires well_formed { ∥ IsWellFormedGrammar (rules_in grammar.now) ∥₁ }
    ensures long { IsErrOf result TotalFault.TextTooLong ↔ (max_text_bytes < length text.now) }
    ensures outcome { IfOk result (IsParseOutcome (rules_in grammar.now) text.now (name_of
        (rules_in grammar.now) start)) }
{
    match plain_match(alloc, grammar, text, start, u64::MAX) {
        Ok(outcome) => Ok(outcome),
        Err(PlainFault::TextTooLong) => Err(TotalFault::TextTooLong),
        Err(PlainFault::Memory) => Err(TotalFault::Memory),
        Err(PlainFault::DepthUsed) => unreachable!(),
    }
}
