//! Parses of many records of one text.
ghost use Rattle.std.specs.Prelude.{◌≡◌, ◌≢◌, ◌<◌, ◌↔◌, IfErr, IfOk, IsErrOf, None, OnErr, OnOk};
ghost use Rattle.peg_handle.specs.RecordTasks.{task_parse, task_rules, wanted_nodes};
ghost use Rattle.peg_handle.specs.Records.{AnswersRecords};
ghost use Rattle.peg_handle.specs.Starts.{start_of_bytes};
ghost use Rattle.peg_semantics.specs.Starts.{start_name};

use crate::content::SelectingParser;
use crate::nodes::Node;
use crate::record_answers::{Unanswered, answer_record};
use crate::start::start_from;
use peg_parser::ParseFault;
use std::alloc::Global;

/// A record of a text: the bytes from offset `start` up to, but not including, offset `end`. The parse of the record
/// sets the other fields.
#[repr(C)]
#[derive(Clone, Copy, Debug, PartialEq, Eq)]
pub struct TextRecord {
    pub start: u32,
    pub end: u32,
    /// `DONE` if a prefix of the record matched, `FAILED` if none did, or the status that says why there is no answer.
    pub status: u32,
    /// The length of the prefix that matched, in bytes; 0 if none did.
    pub consumed: u32,
    /// The greatest position in the record at which a terminal failed, or 0 if none failed.
    pub furthest: u32,
    /// The number of nodes of the records before this one.
    pub first: u32,
    /// The number of nodes of the tree; 0 if no prefix matched.
    pub nodes: u32,
}

/// How many records were parsed.
#[repr(C)]
#[derive(Clone, Copy, Debug, PartialEq, Eq)]
pub struct RecordProgress {
    /// The number of records that were parsed.
    pub records: u64,
    /// The number of nodes of their trees.
    pub nodes: u64,
    /// The number of nodes of the next record, if there is no room for them; else 0.
    pub wanted: u64,
}

/// How the records of a text are parsed: by a parser, from the rule that `start` names, or from the first rule if
/// `start` is empty. `steps` is the limit of steps of each parse, or 0 for no limit.
#[derive(Drop)]
pub struct RecordTask<'a> {
    pub selecting: &'a SelectingParser,
    pub text: &'a [u8],
    pub start: &'a [u8],
    pub memo: u32,
    pub steps: u64,
}

/// Parses records of a text in order, each as a text of its own. Sets the fields of the records, and writes the nodes
/// of their trees to `nodes`, one record after the other. The positions of a node are positions in its record.
///
/// It stops before the first record for whose nodes there is no room. It stops, too, if an allocation fails, and
/// returns `Memory` only if no record was parsed. So another call can parse the records that are left.
///
/// What the machine has computed for one record serves the later ones of the call, so a call with many records is faster
/// than many calls.
pub fn parse_records(
    alloc: Global,
    task: &RecordTask<'_>,
    records: &mut [TextRecord],
    nodes: &mut [Node],
) -> Result<RecordProgress, ParseFault>
    ensures answers { IfOk result (AnswersRecords (task_parse task.now) records.old records.new nodes.old nodes.new) }
    ensures no_start { IsErrOf result ParseFault.NoSuchStart
        ↔ (start_name (task_rules task.now) (start_of_bytes task.now.start.now) ≡ None) }
    ensures faults { IfErr result (λ fault. fault ≢ ParseFault.NoSuchStart → fault ≡ ParseFault.Memory) }
    ensures kept { OnErr result (records.new ≡ records.old) }
    ensures kept_nodes { OnErr result (nodes.new ≡ nodes.old) }
{
    let _start = start_from(task.selecting.parser.grammar(), task.start)?;
    let mut session = task.selecting.parser.session(alloc);
    let mut used: u32 = 0;
    'records: for i in 0..records.len() {
        match answer_record(alloc, task, &mut session, records[i], used, nodes) {
            Ok(answered) => {
                records[i] = answered;
                used += answered.nodes;
            }
            Err(unanswered) => return progress_before(i as u64, used as u64, unanswered),
        }
    }
    Ok(RecordProgress {
        records: records.len() as u64,
        nodes: used as u64,
        wanted: 0,
    })
}

// The progress of a call that stops before a record, after this many records and nodes. Without a record, a failed
// allocation is an error.
fn progress_before(
    records: u64,
    nodes: u64,
    unanswered: Unanswered,
) -> Result<RecordProgress, ParseFault>
    ensures progress { IfOk result (λ progress.
        progress ≡ record { records = records; nodes = nodes; wanted = wanted_nodes unanswered }) }
    ensures later { OnOk result (unanswered ≡ Unanswered.Memory → 0 < records) }
    ensures memory { IfErr result (λ fault. fault ≡ ParseFault.Memory) }
    ensures none { OnErr result (records ≡ 0) }
{
    let wanted = match unanswered {
        Unanswered::Room(wanted) => wanted,
        Unanswered::Memory => {
            if records == 0 {
                return Err(ParseFault::Memory);
            }
            0
        }
    };
    Ok(RecordProgress {
        records,
        nodes,
        wanted,
    })
}
