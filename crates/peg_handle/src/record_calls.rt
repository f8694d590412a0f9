//! The body of the call that parses records by a handle's selecting parser.
ghost use Rattle.std.specs.Prelude.{◌≡◌, ◌≢◌, ◌↔◌, IfSome, None};
ghost use Rattle.peg_handle.specs.Contents.{content_parser};
ghost use Rattle.peg_handle.specs.Records.{AnswersRecords, record_parse};
ghost use Rattle.peg_handle.specs.Starts.{start_of_bytes};
ghost use Rattle.peg_parser.specs.Engine.{shown_parser_rules};
ghost use Rattle.peg_semantics.specs.Starts.{start_name};

use crate::content::Content;
use crate::nodes::Node;
use crate::records::{RecordProgress, RecordTask, TextRecord, parse_records};
use crate::status::{DONE, NO_SUCH_START, OUT_OF_MEMORY, WRONG_HANDLE};
use peg_parser::ParseFault;
use std::alloc::Global;

/// Parses records of a text by a handle's selecting parser, and writes how many it parsed. See `parse_records`.
pub fn parse_records_by(
    alloc: Global,
    content: &Content,
    text: &[u8],
    start: &[u8],
    memo: u32,
    steps: u64,
    records: &mut [TextRecord],
    nodes: &mut [Node],
    out: &mut RecordProgress,
) -> u32
    ensures answers { result ≡ DONE → IfSome (content_parser content.now) (λ selecting.
        AnswersRecords (record_parse selecting text.now start.now memo steps) records.old records.new
        nodes.old nodes.new out.new) }
    ensures wrong { (result ≡ WRONG_HANDLE) ↔ (content_parser content.now ≡ None) }
    ensures no_start { IfSome (content_parser content.now) (λ selecting. (result ≡ NO_SUCH_START)
        ↔ (start_name (shown_parser_rules selecting.parser) (start_of_bytes start.now) ≡ None)) }
    ensures statuses { result ≢ DONE → result ≢ WRONG_HANDLE → result ≢ NO_SUCH_START → result ≡ OUT_OF_MEMORY }
    ensures unchanged { result ≢ DONE → out.new ≡ out.old }
    ensures kept_records { result ≢ DONE → records.new ≡ records.old }
    ensures kept_nodes { result ≢ DONE → nodes.new ≡ nodes.old }
{
    match content {
        Content::Selecting(selecting) => {
            let task = RecordTask {
                selecting,
                text,
                start,
                memo,
                steps,
            };
            match parse_records(alloc, &task, records, nodes) {
                Ok(progress) => {
                    *out = progress;
                    DONE
                }
                Err(ParseFault::NoSuchStart) => NO_SUCH_START,
                Err(_) => OUT_OF_MEMORY,
            }
        }
        _ => WRONG_HANDLE,
    }
}
