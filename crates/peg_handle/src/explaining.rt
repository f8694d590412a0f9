//! Explanations of texts.
ghost use Rattle.std.specs.Prelude.{◌≡◌, ◌≤◌, ◌<◌, ◌+◌, ◌^◌, ◌⊎◌, ℕ, List, IfErr, IfOk, IsErrOf, None, Some, length};
ghost use Rattle.std.specs.Prelude.{map, OnOk};
ghost use Rattle.peg_bytes.specs.Extent.{extent};
ghost use Rattle.peg_explain.specs.Explainers.{IsExplainerOf};
ghost use Rattle.peg_explain.specs.Explanations.{ExplainingAnswersWithin, ExplainingStaysWithin, ExplainingTakesMoreSteps};
ghost use Rattle.peg_grammar.specs.Limits.{max_text_bytes};
ghost use Rattle.peg_handle.specs.FileSpans.{file_span};
ghost use Rattle.peg_handle.specs.Explanations.{IsCompiled, IsExplanationOf, ShowsMismatch, named_style};
ghost use Rattle.peg_handle.specs.Starts.{start_of_bytes, step_limit};
ghost use Rattle.peg_parser.specs.ParseContract.{HasParseFaults};
ghost use Rattle.peg_parser.specs.Parser.{parser_rules, start_named};
ghost use Rattle.peg_semantics.specs.Rules.{Rule};
ghost use Rattle.peg_semantics.specs.Starts.{start_name};

use crate::content::{Explanation, FileSpan, GrammarFile, TextExplainer};
use crate::start::{limit_from, start_from};
use peg_explain::{ExpectedItem, Explainer, ItemStyle, Mismatch};
use peg_grammar::MAX_TEXT_BYTES;
use peg_parser::{ParseFault, ParseOptions};
use std::alloc::{AllocError, Global};

/// Explains where a text doesn't match as a whole, or returns nothing if it does. The start is the rule that `start`
/// names, or the first rule if `start` is empty. `steps` is the step limit, or 0 for no limit. The name begins the
/// message. See `Explainer::explain`. Each call compiles the diagnostic grammar.
pub fn explain(
    alloc: Global,
    grammar: &GrammarFile,
    name: &[u8],
    text: &[u8],
    start: &[u8],
    memo: u32,
    steps: u64,
) -> Result<Option<Explanation>, ParseFault>
    ensures explained { IfOk result (IsExplanationOf grammar.now name.now text.now (start_of_bytes start.now)) }
    ensures faults { HasParseFaults (parser_rules grammar.now.parser) text.now (start_of_bytes start.now) result }
    ensures limited { IsErrOf result ParseFault.StepLimit → ExplainingTakesMoreSteps (parser_rules grammar.now.parser)
        text.now (start_of_bytes start.now) (step_limit steps) }
    ensures enough { memo ≡ 0 → OnOk result (ExplainingStaysWithin (parser_rules grammar.now.parser) text.now
        (start_of_bytes start.now) (step_limit steps)) }
    ensures within { OnOk result (ExplainingAnswersWithin (parser_rules grammar.now.parser) text.now
        (start_of_bytes start.now) (step_limit steps)) }
{
    let start = start_from(grammar.parser.grammar(), start)?;
    if text.len() > MAX_TEXT_BYTES {
        return Err(ParseFault::TextTooLong);
    }
    let options = ParseOptions {
        start,
        memo,
        steps: limit_from(steps),
    };
    explain_from(alloc, grammar, name, text, &options)
}

// Explains from a start that has a rule.
fn explain_from(
    alloc: Global,
    grammar: &GrammarFile,
    name: &[u8],
    text: &[u8],
    options: &ParseOptions<'_>,
) -> Result<Option<Explanation>, ParseFault>
    requires short { length text.now ≤ max_text_bytes }
    requires start { (from : List ℕ)
        × (start_name (parser_rules grammar.now.parser) (start_named options.now) ≡ Some from) }
    ensures explained { IfOk result (IsExplanationOf grammar.now name.now text.now (start_named options.now)) }
    ensures faults { IfErr result (λ why. (why ≡ ParseFault.StepLimit) ⊎ (why ≡ ParseFault.Memory)) }
    ensures limited { IsErrOf result ParseFault.StepLimit → ExplainingTakesMoreSteps (parser_rules grammar.now.parser)
        text.now (start_named options.now) options.now.steps }
    ensures enough { options.now.memo ≡ 0 → OnOk result (ExplainingStaysWithin (parser_rules grammar.now.parser) text.now
        (start_named options.now) options.now.steps) }
    ensures within { OnOk result (ExplainingAnswersWithin (parser_rules grammar.now.parser) text.now
        (start_named options.now) options.now.steps) }
{
    let style = ItemStyle::from_flags(false, false);
    let explainer = Explainer::new(alloc, &grammar.bytes, &grammar.parser, style)?;
    explain_with(alloc, grammar, &explainer, name, text, options)
}

/// Explains as `explain` does, by a grammar whose diagnostic grammar is compiled. Compiles nothing.
pub fn explain_compiled(
    alloc: Global,
    compiled: &TextExplainer,
    name: &[u8],
    text: &[u8],
    start: &[u8],
    memo: u32,
    steps: u64,
) -> Result<Option<Explanation>, ParseFault>
    ensures explained { IsCompiled compiled.now
        → IfOk result (IsExplanationOf compiled.now.grammar name.now text.now (start_of_bytes start.now)) }
    ensures faults { IsCompiled compiled.now
        → HasParseFaults (parser_rules compiled.now.grammar.parser) text.now (start_of_bytes start.now) result }
    ensures limited { IsCompiled compiled.now → IsErrOf result ParseFault.StepLimit
        → ExplainingTakesMoreSteps (parser_rules compiled.now.grammar.parser) text.now (start_of_bytes start.now)
        (step_limit steps) }
    ensures enough { IsCompiled compiled.now → memo ≡ 0
        → OnOk result (ExplainingStaysWithin (parser_rules compiled.now.grammar.parser) text.now
        (start_of_bytes start.now) (step_limit steps)) }
    ensures within { IsCompiled compiled.now
        → OnOk result (ExplainingAnswersWithin (parser_rules compiled.now.grammar.parser) text.now
        (start_of_bytes start.now) (step_limit steps)) }
{
    let grammar = &compiled.grammar;
    let start = start_from(grammar.parser.grammar(), start)?;
    if text.len() > MAX_TEXT_BYTES {
        return Err(ParseFault::TextTooLong);
    }
    let options = ParseOptions {
        start,
        memo,
        steps: limit_from(steps),
    };
    let style = ItemStyle::from_flags(false, false);
    let explainer = Explainer::with_blames(
        &grammar.bytes,
        &grammar.parser,
        &compiled.blames,
        style,
    );
    explain_with(alloc, grammar, &explainer, name, text, &options)
}

// Explains from a start that has a rule, by an explainer of the grammar.
fn explain_with(
    alloc: Global,
    grammar: &GrammarFile,
    explainer: &Explainer<'_>,
    name: &[u8],
    text: &[u8],
    options: &ParseOptions<'_>,
) -> Result<Option<Explanation>, ParseFault>
    requires short { length text.now ≤ max_text_bytes }
    requires start { (from : List ℕ)
        × (start_name (parser_rules grammar.now.parser) (start_named options.now) ≡ Some from) }
    requires styled { explainer.now.style ≡ named_style }
    ensures explained { IsExplainerOf grammar.now.bytes.items (parser_rules grammar.now.parser) explainer.now
        → IfOk result (IsExplanationOf grammar.now name.now text.now (start_named options.now)) }
    ensures faults { IsExplainerOf grammar.now.bytes.items (parser_rules grammar.now.parser) explainer.now
        → IfErr result (λ why. (why ≡ ParseFault.StepLimit) ⊎ (why ≡ ParseFault.Memory)) }
    ensures limited { IsExplainerOf grammar.now.bytes.items (parser_rules grammar.now.parser) explainer.now
        → IsErrOf result ParseFault.StepLimit → ExplainingTakesMoreSteps (parser_rules grammar.now.parser)
        text.now (start_named options.now) options.now.steps }
    ensures enough { IsExplainerOf grammar.now.bytes.items (parser_rules grammar.now.parser) explainer.now
        → options.now.memo ≡ 0 → OnOk result (ExplainingStaysWithin (parser_rules grammar.now.parser) text.now
        (start_named options.now) options.now.steps) }
    ensures within { IsExplainerOf grammar.now.bytes.items (parser_rules grammar.now.parser) explainer.now
        → OnOk result (ExplainingAnswersWithin (parser_rules grammar.now.parser) text.now
        (start_named options.now) options.now.steps) }
{
    match explainer.mismatch(alloc, text, options)? {
        Some(mismatch) => {
            let explanation = explanation_of(alloc, explainer, name, text, &mismatch)?;
            Ok(Some(explanation))
        }
        None => Ok(None),
    }
}

// Returns the explanation that shows a mismatch.
fn explanation_of(
    alloc: Global,
    explainer: &Explainer<'_>,
    name: &[u8],
    text: &[u8],
    mismatch: &Mismatch,
) -> Result<Explanation, AllocError>
    requires short { length text.now ≤ max_text_bytes }
    requires in_text { mismatch.now.at ≤ length text.now }
    requires few { length mismatch.now.rules.items + length mismatch.now.expected.items < 2 ^ 32 }
    requires styled { explainer.now.style ≡ named_style }
    ensures { (file : List ℕ) (rules : List Rule) → IsExplainerOf file rules explainer.now
        → IfOk result (ShowsMismatch file rules name.now text.now mismatch.now) }
{
    let message = explainer.message(alloc, name, text, mismatch)?;
    let expected = file_spans(alloc, &mismatch.expected)?;
    Ok(Explanation {
        message,
        at: mismatch.at,
        expected,
        is_end_expected: mismatch.is_end_expected,
    })
}

// Returns the spans of items in a grammar file, for C.
fn file_spans(alloc: Global, items: &[ExpectedItem]) -> Result<Vec<FileSpan>, AllocError>
    ensures { IfOk result (λ copied. copied.items ≡ map (λ item. file_span (extent item.span)) items.now) }
{
    let mut copied = Vec::new(alloc);
    'items: for item in items {
        copied.push(FileSpan {
            start: item.span.start,
            end: item.span.end,
        })?;
    }
    Ok(copied)
}
