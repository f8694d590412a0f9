//! The kind and the place of a refusal, as numbers.
ghost use Rattle.std.specs.Prelude.{◌≡◌, ◌≤◌, ℕ, List, [], IfSome, None, Some, length};
ghost use Rattle.peg_bytes.specs.Extent.{between, extent};
ghost use Rattle.peg_bytes.specs.Place.{max_offset};
ghost use Rattle.peg_handle.specs.RefusalInfos.{cause_info, info_at};
ghost use Rattle.peg_parser.specs.Faults.{StartsIn, cause_of, check_cause, grammar_cause, notation_cause};

use peg_bytes::{Span, place};
use peg_check::CheckFault;
use peg_grammar::GrammarFault;
use peg_notation::NotationFault;
use peg_parser::Refusal;

/// The kind of a refusal, and where in the grammar file its reason is.
///
/// Offsets are in bytes from 0, line and column from 1; columns count bytes. A refusal at an offset has an empty span.
/// A refusal without a place has line 0, and the offsets and the column are 0 as well.
#[repr(C)]
#[derive(Clone, Copy, Debug, PartialEq, Eq)]
pub struct RefusalInfo {
    pub kind: u32,
    pub start: u32,
    pub end: u32,
    pub line: u32,
    pub column: u32,
}

const FILE_TOO_LONG: u32 = 1;

const SYNTAX: u32 = 2;

const TOO_NESTED: u32 = 3;

const BAD_COUNT: u32 = 4;

const NO_RULE: u32 = 5;

const DUPLICATE: u32 = 6;

const UNDEFINED: u32 = 7;

const TOO_MANY_PARTS: u32 = 8;

const EMPTY_LOOP: u32 = 9;

const LEFT_RECURSION: u32 = 10;

const CODE_TOO_LARGE: u32 = 11;

// The kind and the place of a refusal of this file. Linear in the file, to count the line and the column.
pub(crate) fn refusal_info(file: &[u8], refusal: &Refusal) -> RefusalInfo
    requires short { length file.now ≤ max_offset }
    requires places { IfSome (cause_of refusal.now) (StartsIn (length file.now)) }
    ensures { IfSome (cause_of refusal.now) (λ cause. result ≡ cause_info file.now cause) }
{
    match refusal {
        Refusal::Notation(fault) => notation_info(file, fault),
        Refusal::Grammar(fault) => grammar_info(file, fault),
        Refusal::NotWellFormed(fault, _) => check_info(file, fault),
        Refusal::CodeTooLarge => without_place(CODE_TOO_LARGE),
        Refusal::Memory => without_place(0),
    }
}

fn notation_info(file: &[u8], fault: &NotationFault) -> RefusalInfo
    requires short { length file.now ≤ max_offset }
    requires places { IfSome (notation_cause fault.now) (StartsIn (length file.now)) }
    ensures { IfSome (notation_cause fault.now) (λ cause. result ≡ cause_info file.now cause) }
{
    match fault {
        NotationFault::FileTooLong => without_place(FILE_TOO_LONG),
        NotationFault::Syntax { at } => at_offset(SYNTAX, file, *at),
        NotationFault::TooNested { at } => at_offset(TOO_NESTED, file, *at),
        NotationFault::BadCount { at } => at_offset(BAD_COUNT, file, *at),
        NotationFault::Memory => without_place(0),
    }
}

fn grammar_info(file: &[u8], fault: &GrammarFault) -> RefusalInfo
    requires short { length file.now ≤ max_offset }
    requires places { IfSome (grammar_cause fault.now) (StartsIn (length file.now)) }
    ensures { IfSome (grammar_cause fault.now) (λ cause. result ≡ cause_info file.now cause) }
{
    match fault {
        GrammarFault::NoRule => without_place(NO_RULE),
        GrammarFault::Duplicate { span, .. } => at_span(DUPLICATE, file, *span),
        GrammarFault::Undefined { span, .. } => at_span(UNDEFINED, file, *span),
        GrammarFault::BadCount { span } => at_offset(BAD_COUNT, file, span.start),
        GrammarFault::TooManyParts => without_place(TOO_MANY_PARTS),
        GrammarFault::Memory => without_place(0),
    }
}

fn check_info(file: &[u8], fault: &CheckFault) -> RefusalInfo
    requires short { length file.now ≤ max_offset }
    requires places { IfSome (check_cause [] fault.now) (StartsIn (length file.now)) }
    ensures { (names : List (List ℕ)) → IfSome (check_cause names fault.now) (λ cause. result ≡ cause_info file.now cause) }
{
    match fault {
        CheckFault::EmptyLoop { span, .. } => at_span(EMPTY_LOOP, file, *span),
        CheckFault::LeftRecursion { .. } => without_place(LEFT_RECURSION),
        CheckFault::Memory => without_place(0),
    }
}

// A refusal that is about no place of the file.
fn without_place(kind: u32) -> RefusalInfo
    ensures { result ≡ info_at [] kind None }
{
    RefusalInfo {
        kind,
        start: 0,
        end: 0,
        line: 0,
        column: 0,
    }
}

// A refusal at an offset.
fn at_offset(kind: u32, file: &[u8], at: u32) -> RefusalInfo
    requires short { length file.now ≤ max_offset }
    requires in_file { at ≤ length file.now }
    ensures { result ≡ info_at file.now kind (Some (between at at)) }
{
    let there = place(file, at);
    RefusalInfo {
        kind,
        start: at,
        end: at,
        line: there.line,
        column: there.column,
    }
}

// A refusal of a span.
fn at_span(kind: u32, file: &[u8], span: Span) -> RefusalInfo
    requires short { length file.now ≤ max_offset }
    requires in_file { span.start ≤ length file.now }
    ensures { result ≡ info_at file.now kind (Some (extent span)) }
{
    let there = place(file, span.start);
    RefusalInfo {
        kind,
        start: span.start,
        end: span.end,
        line: there.line,
        column: there.column,
    }
}
