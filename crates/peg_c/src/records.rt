//! Parses of many records of one text, by a parser handle.
ghost use Rattle.std.specs.Prelude.{◌≡◌, ◌≢◌, ◌↔◌, IfSome, None};
ghost use Rattle.peg_c.specs.Handles.{held_parser};
ghost use Rattle.peg_handle.specs.Records.{AnswersRecords, record_parse};
ghost use Rattle.peg_handle.specs.Starts.{start_of_bytes};
ghost use Rattle.peg_parser.specs.Engine.{shown_parser_rules};
ghost use Rattle.peg_semantics.specs.Starts.{start_name};

use crate::handle::Handle;
use peg_handle::{
    DONE, NO_SUCH_START, Node, OUT_OF_MEMORY, RecordProgress, TextRecord, WRONG_HANDLE,
    parse_records_by,
};
use std::alloc::Global;

/// Parses records of a text in order, each as `peg_parser_parse` parses it as a text of its own. Writes the nodes of
/// their trees to `nodes`, one record after the other.
#[unsafe(no_mangle)]
pub extern "C" fn peg_parser_records(
    alloc: Global,
    parser: &mut Handle,
    text: &[u8],
    start: &[u8],
    memo: u32,
    steps: u64,
    records: &mut [TextRecord],
    nodes: &mut [Node],
    out: &mut RecordProgress,
) -> u32
    ensures kept { parser.new.content ≡ parser.old.content }

    // The first records have their answers, and all others are unchanged.
    ensures answers { result ≡ DONE → IfSome (held_parser parser.old.content) (λ held.
        AnswersRecords (record_parse held text.now start.now memo steps) records.old records.new
        nodes.old nodes.new out.new) }

    // Each other status, and when it comes. An allocation may fail at any time.
    ensures wrong { (result ≡ WRONG_HANDLE) ↔ (held_parser parser.old.content ≡ None) }
    ensures no_start { IfSome (held_parser parser.old.content) (λ held. (result ≡ NO_SUCH_START)
        ↔ (start_name (shown_parser_rules held.parser) (start_of_bytes start.now) ≡ None)) }
    ensures statuses { result ≢ DONE → result ≢ WRONG_HANDLE → result ≢ NO_SUCH_START → result ≡ OUT_OF_MEMORY }
    ensures unchanged { result ≢ DONE → out.new ≡ out.old }
    ensures kept_records { result ≢ DONE → records.new ≡ records.old }
    ensures kept_nodes { result ≢ DONE → nodes.new ≡ nodes.old }
{
    match parser.take(alloc) {
        None => WRONG_HANDLE,
        Some(content) => {
            let status = parse_records_by(
                alloc, &content, text, start, memo, steps, records, nodes, out,
            );
            *parser = Handle::new(content);
            status
        }
    }
}
