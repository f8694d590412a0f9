//! Messages for refused grammar files.
ghost use Rattle.std.specs.Prelude.{◌≡◌, ◌≢◌, ◌≤◌, ◌<◌, [], ℕ, List, All, IfOk, IfSome, Some, is_some, length, map, option_map, true};
ghost use Rattle.peg_bytes.specs.Place.{max_offset};
ghost use Rattle.peg_check.specs.Verdicts.{NamesRules};
ghost use Rattle.peg_grammar.specs.GrammarRules.{rules_in};
ghost use Rattle.peg_grammar.specs.Written.{rules_of};
ghost use Rattle.peg_messages.specs.Rejections.{given_offset};
ghost use Rattle.peg_parser.specs.Accepts.{IsRead};
ghost use Rattle.peg_parser.specs.Cause.{Cause, LeftRecursion};
ghost use Rattle.peg_parser.specs.Faults.{IsTrueRefusal, StartsIn, cause_of};
ghost use Rattle.peg_parser.specs.Faults.{check_cause, grammar_cause, notation_cause};
ghost use Rattle.peg_semantics.specs.Form.{Reference};
ghost use Rattle.peg_semantics.specs.Rules.{Rule, defined_at, names};
ghost use Rattle.peg_tree.specs.Names.{name_at};
ghost use Rattle.peg_explain.specs.RefusalMessages.{IsCycleOffset, IsReasonMessage, IsReasonOf, IsRefusalMessage};
ghost use Rattle.peg_explain.specs.RefusalMessages.{IsMeantFor, KnowsRules};
ghost use Rattle.peg_explain.specs.RefusalMessages.{refusal_definitions};

use crate::near_names::meant_by;
use peg_check::CheckFault;
use peg_grammar::{Definition, Grammar, GrammarFault};
use peg_messages::{Reason, Rejection};
use peg_notation::{NotationFault, read};
use peg_parser::Refusal;
use std::alloc::{AllocError, Global};

/// Returns the message for a refused grammar file: `NAME:LINE:COLUMN: SENTENCE`, then the line of the offset and a
/// caret below it. The message is `NAME: SENTENCE` if the refusal has no offset. Each line ends with LF.
///
/// The offset is that of the refusal, or the start of its span. A backslash that begins no escape is shown at its own
/// offset. A left recursion is shown where the first rule of its path is defined.
///
/// The refusal must not be `Memory`. The only error is a failed allocation. Takes time linear in the file and in what
/// is written.
///
/// # Example
///
/// ```
/// if let Err(refusal) = Parser::from_file(alloc, b"Sum <- Sum '+' / 'x'") {
///     let message = refusal_message(alloc, b"g.peg", b"Sum <- Sum '+' / 'x'", &refusal)?;
///     // g.peg:1:1: left recursion: Sum -> Sum
///     // Sum <- Sum '+' / 'x'
///     // ^
/// }
/// ```
pub fn refusal_message(
    alloc: Global,
    name: &[u8],
    file: &[u8],
    refusal: &Refusal,
) -> Result<Vec<u8>, AllocError>
    requires short { length file.now ≤ max_offset }
    requires true_refusal { IsTrueRefusal (length file.now) refusal.now }
    requires has_cause { refusal.now ≢ Refusal.Memory }
    ensures { IfOk result (λ message. (cause : Cause) × (cause_of refusal.now ≡ Some cause)
        × IsRefusalMessage name.now file.now (refusal_definitions refusal.now) cause message.items) }
{
    match refusal {
        Refusal::Notation(fault) => message_of(alloc, name, file, notation_reason(fault)),
        Refusal::Grammar(fault) => grammar_message(alloc, name, file, fault),
        Refusal::NotWellFormed(fault, grammar) => check_message(alloc, name, file, fault, grammar),
        Refusal::CodeTooLarge => message_of(alloc, name, file, Reason::CodeTooLarge),
        Refusal::Memory => unreachable!(),
    }
}

// Returns the message for a reason.
fn message_of(
    alloc: Global,
    name: &[u8],
    file: &[u8],
    reason: Reason<'_>,
) -> Result<Vec<u8>, AllocError>
    requires in_file { IfSome (given_offset reason) (λ at. at ≤ length file.now) }
    requires short { length file.now ≤ max_offset }
    ensures { IfOk result (λ message. IsReasonMessage name.now file.now reason.entry message.items) }
{
    let rejection = Rejection { name, file, reason };
    let mut message = Vec::new(alloc);
    rejection.write(alloc, &mut message)?;
    Ok(message)
}

// Returns the reason for a file that isn't in the notation, or that exceeds a limit of it.
fn notation_reason(fault: &NotationFault) -> Reason<'static>
    requires { is_some (notation_cause fault.now) ≡ true }
    ensures reason { (file : List ℕ) (definitions : List Reference)
        → IfSome (notation_cause fault.now) (λ cause. IsReasonOf file definitions cause result) }
    ensures in_file { (size : ℕ) → IfSome (notation_cause fault.now) (StartsIn size)
        → IfSome (given_offset result) (λ at. at ≤ size) }
{
    match fault {
        NotationFault::FileTooLong => Reason::FileTooLong,
        NotationFault::Syntax { at } => Reason::Syntax { at: *at },
        NotationFault::TooNested { at } => Reason::TooNested { at: *at },
        NotationFault::BadCount { at } => Reason::BadCount { at: *at },
        NotationFault::Memory => unreachable!(),
    }
}

// Returns the message for definitions that aren't a grammar, or that are too large.
fn grammar_message(
    alloc: Global,
    name: &[u8],
    file: &[u8],
    fault: &GrammarFault,
) -> Result<Vec<u8>, AllocError>
    requires has_cause { is_some (grammar_cause fault.now) ≡ true }
    requires short { length file.now ≤ max_offset }
    requires places { IfSome (grammar_cause fault.now) (StartsIn (length file.now)) }
    ensures { IfOk result (λ message. IfSome (grammar_cause fault.now) (λ cause.
        IsRefusalMessage name.now file.now [] cause message.items)) }
{
    let definitions = definitions_for(alloc, file, fault)?;
    let meant = meant_for(fault, &definitions);
    message_of(alloc, name, file, grammar_reason(fault, meant))
}

// Returns the definitions of a file, if a name in it is undefined.
fn definitions_for(
    alloc: Global,
    file: &[u8],
    fault: &GrammarFault,
) -> Result<Vec<Definition>, AllocError>
    ensures { IfOk result (λ definitions. KnowsRules file.now fault.now (rules_of definitions.items)) }
{
    match fault {
        GrammarFault::Undefined { .. } => definitions_in(alloc, file),
        _ => Ok(Vec::new(alloc)),
    }
}

// Returns the definitions of a file in the notation.
fn definitions_in(alloc: Global, file: &[u8]) -> Result<Vec<Definition>, AllocError>
    ensures { IfOk result (λ definitions. (rules : List Rule) → IsRead file.now rules
        → rules ≡ rules_of definitions.items) }
{
    match read(alloc, file) {
        Ok(definitions) => Ok(definitions),
        Err(fault) => no_definitions(alloc, fault),
    }
}

// Returns no definitions, for a file that has none for this reason.
fn no_definitions(alloc: Global, fault: NotationFault) -> Result<Vec<Definition>, AllocError>
    ensures { IfOk result (λ definitions. fault ≢ NotationFault.Memory) }
{
    match fault {
        NotationFault::Memory => Err(AllocError),
        NotationFault::FileTooLong
        | NotationFault::Syntax { .. }
        | NotationFault::TooNested { .. }
        | NotationFault::BadCount { .. } => Ok(Vec::new(alloc)),
    }
}

// Returns the name of the definition that may be meant, if a name is undefined.
fn meant_for<'a>(fault: &GrammarFault, definitions: &'a [Definition]) -> Option<&'a str>
    ensures { (file : List ℕ) → KnowsRules file fault.now (rules_of definitions.now)
        → IsMeantFor file fault.now (option_map (λ rule. rule.now) result) }
{
    match fault {
        GrammarFault::Undefined { name, .. } => meant_by(definitions, name),
        _ => None,
    }
}

// Returns the reason for definitions that aren't a grammar, or that are too large. A rule may be known that is meant by
// an undefined name.
fn grammar_reason<'a>(fault: &'a GrammarFault, meant: Option<&'a str>) -> Reason<'a>
    requires { is_some (grammar_cause fault.now) ≡ true }
    ensures reason { (file : List ℕ) → IsMeantFor file fault.now (option_map (λ rule. rule.now) meant.entry)
        → IfSome (grammar_cause fault.now) (λ cause. IsReasonOf file [] cause result) }
    ensures in_file { (size : ℕ) → IfSome (grammar_cause fault.now) (StartsIn size)
        → IfSome (given_offset result) (λ at. at ≤ size) }
{
    match fault {
        GrammarFault::NoRule => Reason::NoRule,
        GrammarFault::Duplicate { name, span } => Reason::Duplicate {
            name: name.as_str(),
            at: span.start,
        },
        GrammarFault::Undefined { name, span } => Reason::Undefined {
            name: name.as_str(),
            meant,
            at: span.start,
        },
        GrammarFault::BadCount { span } => Reason::BadCount { at: span.start },
        GrammarFault::TooManyParts => Reason::TooManyParts,
        GrammarFault::Memory => unreachable!(),
    }
}

// Returns the message for a grammar that isn't well-formed.
fn check_message(
    alloc: Global,
    name: &[u8],
    file: &[u8],
    fault: &CheckFault,
    grammar: &Grammar,
) -> Result<Vec<u8>, AllocError>
    requires has_cause { is_some (check_cause (names (rules_in grammar.now)) fault.now) ≡ true }
    requires short { length file.now ≤ max_offset }
    requires places { IfSome (check_cause (names (rules_in grammar.now)) fault.now) (StartsIn (length file.now)) }
    requires rules { NamesRules (length (rules_in grammar.now)) fault.now }
    ensures { IfOk result (λ message. IfSome (check_cause (names (rules_in grammar.now)) fault.now) (λ cause.
        IsRefusalMessage name.now file.now (map defined_at (rules_in grammar.now)) cause message.items)) }
{
    match fault {
        CheckFault::EmptyLoop { rule, span } => {
            let reason = Reason::EmptyLoop {
                rule: grammar.rule_name(*rule),
                at: span.start,
            };
            message_of(alloc, name, file, reason)
        }
        CheckFault::LeftRecursion { path } => cycle_message(alloc, name, file, path, grammar),
        CheckFault::Memory => unreachable!(),
    }
}

// Returns the message for a left cycle.
fn cycle_message(
    alloc: Global,
    name: &[u8],
    file: &[u8],
    path: &[u32],
    grammar: &Grammar,
) -> Result<Vec<u8>, AllocError>
    requires short { length file.now ≤ max_offset }
    requires rules { All (λ rule. rule < length (rules_in grammar.now)) path.now }
    ensures { IfOk result (λ message. IsRefusalMessage name.now file.now (map defined_at (rules_in grammar.now))
        (LeftRecursion (map (name_at (names (rules_in grammar.now))) path.now)) message.items) }
{
    let names = path_names(alloc, path, grammar)?;
    let at = cycle_offset(path, grammar, file.len() as u32);
    path_message(alloc, name, file, &names, at)
}

// Returns the message for a left cycle whose rules have these names, and whose offset is known.
fn path_message(
    alloc: Global,
    name: &[u8],
    file: &[u8],
    path: &[&str],
    at: u32,
) -> Result<Vec<u8>, AllocError>
    requires inside { at ≤ length file.now }
    requires short { length file.now ≤ max_offset }
    ensures { IfOk result (λ message.
        IsReasonMessage name.now file.now (Reason.LeftRecursion path.entry at) message.items) }
{
    message_of(alloc, name, file, Reason::LeftRecursion { path, at })
}

// Returns the names of the rules of a path.
fn path_names<'a>(
    alloc: Global,
    path: &[u32],
    grammar: &'a Grammar,
) -> Result<Vec<&'a str>, AllocError>
    requires { All (λ rule. rule < length (rules_in grammar.now)) path.now }
    ensures { IfOk result (λ list.
        map (λ name. name.now) list.items ≡ map (name_at (names (rules_in grammar.now))) path.now) }
{
    let mut list = Vec::new(alloc);
    'rules: for rule in path {
        list.push(grammar.rule_name(*rule))?;
    }
    Ok(list)
}

// Returns the offset of a left cycle, for a file of this size.
fn cycle_offset(path: &[u32], grammar: &Grammar, size: u32) -> u32
    requires { All (λ rule. rule < length (rules_in grammar.now)) path.now }
    ensures offset { IsCycleOffset (map defined_at (rules_in grammar.now)) size
        (map (name_at (names (rules_in grammar.now))) path.now)
        result }
    ensures inside { result ≤ size }
{
    match path {
        [first, ..] => grammar.name_span(*first).start.min(size),
        [] => 0,
    }
}
