//! The answer to one record of a text.
ghost use Rattle.std.specs.Prelude.{◌≡◌, ◌≤◌, ◌<◌, ◌+◌, ◌++◌, List, ℕ, IfErr, IfOk, Ok, OnErr, OnOk, Some};
ghost use Rattle.std.specs.Prelude.{drop, length, take};
ghost use Rattle.peg_handle.specs.Nodes.{match_nodes};
ghost use Rattle.peg_handle.specs.RecordTasks.{AddsAnswer, IsUnanswered, task_parse, task_rules};
ghost use Rattle.peg_handle.specs.Records.{IsRecordResult, answered_record, is_in_text, match_status, node_room};
ghost use Rattle.peg_handle.specs.Starts.{start_of_bytes};
ghost use Rattle.peg_parser.specs.Sessions.{IsSessionOf};
ghost use Rattle.peg_semantics.specs.Starts.{start_name};

use crate::content::Match;
use crate::nodes::{Node, append_nodes};
use crate::records::{RecordTask, TextRecord};
use crate::selecting::parse_by_session;
use crate::status::{DONE, FAILED, OUT_OF_RANGE, STEP_LIMIT, TEXT_TOO_LONG};
use crate::summary::summary_of;
use peg_parser::{ParseFault, Session};
use peg_tree::Parsed;
use std::alloc::{AllocError, Global};

// Why a record has no answer.
#[derive(Clone, Copy, Debug, PartialEq, Eq)]
pub(crate) enum Unanswered {
    // There is no room for its nodes, which are this many.
    Room(u64),
    // An allocation failed.
    Memory,
}

// Parses a record of a text, and writes the nodes of its tree after the first `used` nodes.
pub(crate) fn answer_record(
    alloc: Global,
    task: &RecordTask<'_>,
    session: &mut Session<'_>,
    given: TextRecord,
    used: u32,
    nodes: &mut [Node],
) -> Result<TextRecord, Unanswered>
    requires start { (name : List ℕ)
        × (start_name (task_rules task.now) (start_of_bytes task.now.start.now) ≡ Some name) }
    requires used { used ≤ node_room (length nodes.old) }
    requires session { IsSessionOf task.now.selecting.now.parser session.old }
    ensures answered { IfOk result (AddsAnswer (task_parse task.now) given used nodes.old nodes.new) }
    ensures unanswered { IfErr result (IsUnanswered (task_parse task.now) given (length nodes.old) used) }
    ensures unchanged { OnErr result (nodes.new ≡ nodes.old) }
    ensures session { IsSessionOf task.now.selecting.now.parser session.new }
{
    match parse_record(alloc, task, session, given) {
        Ok(Ok(found)) => write_answer(given, &found, used, nodes),
        Ok(Err(status)) => Ok(TextRecord {
            status,
            consumed: 0,
            furthest: 0,
            first: used,
            nodes: 0,
            ..given
        }),
        Err(_) => Err(Unanswered::Memory),
    }
}

// Parses a record of a text as a text of its own. A status says why there is no answer.
fn parse_record(
    alloc: Global,
    task: &RecordTask<'_>,
    session: &mut Session<'_>,
    given: TextRecord,
) -> Result<Result<Match, u32>, AllocError>
    requires start { (name : List ℕ) × (start_name (task_rules task.now) (start_of_bytes task.now.start.now) ≡ Some name) }
    requires session { IsSessionOf task.now.selecting.now.parser session.old }
    ensures result { IfOk result (IsRecordResult (task_parse task.now) given) }
    ensures session { IsSessionOf task.now.selecting.now.parser session.new }
{
    if !is_in_text(task.text, given) {
        return Ok(Err(OUT_OF_RANGE));
    }
    let bytes = &task.text[given.start as usize..given.end as usize];
    match parse_by_session(
        alloc,
        task.selecting,
        session,
        bytes,
        task.start,
        task.memo,
        task.steps,
    ) {
        Ok(found) => Ok(Ok(found)),
        Err(ParseFault::TextTooLong) => Ok(Err(TEXT_TOO_LONG)),
        Err(ParseFault::StepLimit) => Ok(Err(STEP_LIMIT)),
        Err(ParseFault::Memory) => Err(AllocError),
        Err(ParseFault::NoSuchStart) => unreachable!(),
    }
}

// Whether the span of a record is in a text.
fn is_in_text(text: &[u8], given: TextRecord) -> bool
    ensures { result ≡ is_in_text text.now given }
{
    given.start <= given.end && given.end as usize <= text.len()
}

// Writes the nodes of an answer after the first `used` nodes, if there is room for them.
fn write_answer(
    given: TextRecord,
    found: &Match,
    used: u32,
    nodes: &mut [Node],
) -> Result<TextRecord, Unanswered>
    requires { used ≤ node_room (length nodes.old) }
    ensures answered { IfOk result (λ answered. answered ≡ answered_record given used (Ok found.now)) }
    ensures added { OnOk result (take (used + length (match_nodes found.now)) nodes.new
        ≡ take used nodes.old ++ match_nodes found.now) }
    ensures others { OnOk result (drop (used + length (match_nodes found.now)) nodes.new
        ≡ drop (used + length (match_nodes found.now)) nodes.old) }
    ensures within { OnOk result (used + length (match_nodes found.now) ≤ node_room (length nodes.old)) }
    ensures room { IfErr result (λ unanswered. unanswered ≡ Unanswered.Room (length (match_nodes found.now))) }
    ensures lacks { OnErr result (node_room (length nodes.old) < used + length (match_nodes found.now)) }
    ensures unchanged { OnErr result (nodes.new ≡ nodes.old) }
{
    let summary = summary_of(found);
    let room = nodes.len().min(u32::MAX as usize) - used as usize;
    if summary.nodes > room as u64 {
        return Err(Unanswered::Room(summary.nodes));
    }
    append_nodes(found, used as usize, nodes);
    Ok(TextRecord {
        status: match_status(&found.answer.outcome.result),
        consumed: summary.consumed,
        furthest: summary.furthest,
        first: used,
        nodes: summary.nodes as u32,
        ..given
    })
}

// The status of a parse with this result.
fn match_status(parsed: &Parsed) -> u32
    ensures { result ≡ match_status parsed.now }
{
    match parsed {
        Parsed::Matched { .. } => DONE,
        Parsed::Failed => FAILED,
    }
}
