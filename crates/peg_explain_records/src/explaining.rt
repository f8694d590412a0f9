//! Explains the records of texts by a grammar file.
ghost use Rattle.std.specs.Prelude.{◌≡◌, ◌≢◌, ◌↔◌, ℕ, [], IfErr, IsErrOf, List, Some, false, map, string_bytes, true};
ghost use Rattle.peg_parser.specs.Accepts.{Accepts};
ghost use Rattle.peg_parser.specs.Parser.{parser_rules, start_named};
ghost use Rattle.peg_record_files.specs.Faults.{IsFaultAmongTexts};
ghost use Rattle.peg_semantics.specs.Starts.{start_name};
ghost use Rattle.peg_explain_records.specs.Questions.{question_of};
ghost use Rattle.peg_explain_records.specs.RecordExplainers.{LeadsByParser};
ghost use Rattle.peg_explain_records.specs.RecordsExplained.{IsRecordsExplained, early_end, outcome_verdict};

use crate::query::ExplainRecordsQuery;
use crate::streams::explain_streams;
use peg_explain::Explainer;
use peg_explain_files::{
    Content, Ended, ExplainFault, Verdict, content_of, has_start, unread_grammar, write_no_start,
    write_refusal,
};
use peg_io::{Opener, Sink, Source};
use peg_notation::MAX_FILE_BYTES;
use peg_parser::{Parser, Refusal};
use peg_record_files::{RecordOutcome, RecordsFault};
use std::alloc::Global;

/// Reads a grammar file, and the records of texts by name, or of an input if no text is named. Writes a message for each
/// record that doesn't match as a whole, in order; or the message of a refused grammar file. A message has the line and
/// the column of the text. The messages of the records of a block are written at its end.
///
/// A grammar file that can't be opened or read has a line for standard error. The first text that can't be opened or read
/// ends the run with that fault, as does an input that can't be read, an output that can't be written, and a failed
/// allocation. What is written by then is a part of the messages. At most 1,048,577 bytes of the grammar file are read. In
/// memory are a block, the messages of its records, and one record of at most 67,108,864 bytes.
///
/// # Example
///
/// ```
/// let query = ExplainRecordsQuery { grammar: "log.peg", texts: &texts, end, options, style, printing };
/// let ended = explain_records(alloc, &files, &mut input, &mut output, &query)?;
/// ```
pub fn explain_records<'a, O: Opener, I: Source, W: Sink>(
    alloc: Global,
    files: &O,
    input: &mut I,
    output: &mut W,
    query: &ExplainRecordsQuery<'a>,
) -> Result<Ended, RecordsFault<'a>>
    requires reads { I.failed input.old ≡ false }
    requires works { W.failed output.old ≡ false }
    ensures explained { IsRecordsExplained (question_of query.now) (O.file_at files.now) (I.left input.old)
        (W.written output.old) (W.written output.new) result }
    ensures text { IfErr result (IsFaultAmongTexts (O.file_at files.now) (map string_bytes query.now.texts.now)) }
    ensures input { IsErrOf result RecordsFault.Input ↔ (I.failed input.new ≡ true) }
    ensures output { IsErrOf result RecordsFault.Output ↔ (W.failed output.new ≡ true) }
    ensures unread { query.now.texts.now ≢ [] → input.new ≡ input.old }
{
    let printing = query.printing;
    let file = match content_of(alloc, files, query.grammar, MAX_FILE_BYTES + 1)? {
        Content::Bytes(file) => file,
        Content::Unopened => {
            let ended = unread_grammar(alloc, query.grammar, ": can't be opened\n", printing);
            return early_end(ended);
        }
        Content::Unreadable => {
            let ended = unread_grammar(alloc, query.grammar, ": can't be read\n", printing);
            return early_end(ended);
        }
    };
    match Parser::from_file(alloc, &file) {
        Ok(parser) => explain_by_parser(alloc, files, input, output, &file, &parser, query),
        Err(Refusal::Memory) => Err(RecordsFault::Memory),
        Err(refusal) => {
            let name = query.grammar;
            early_end(write_refusal(alloc, output, name, &file, &refusal, printing))
        }
    }
}

// The end of an explanation before a record is read, as one of records.
fn early_end<'a>(ended: Result<Ended, ExplainFault>) -> Result<Ended, RecordsFault<'a>>
    ensures { result ≡ early_end ended }
{
    match ended {
        Ok(ended) => Ok(ended),
        Err(ExplainFault::Write) => Err(RecordsFault::Output),
        Err(ExplainFault::Memory) => Err(RecordsFault::Memory),
    }
}

// Explains records by the parser of a grammar file, unless no rule has the name of the start.
fn explain_by_parser<'a, O: Opener, I: Source, W: Sink>(
    alloc: Global,
    files: &O,
    input: &mut I,
    output: &mut W,
    file: &[u8],
    parser: &Parser,
    query: &ExplainRecordsQuery<'a>,
) -> Result<Ended, RecordsFault<'a>>
    requires reads { I.failed input.old ≡ false }
    requires works { W.failed output.old ≡ false }
    ensures leads { Accepts file.now (parser_rules parser.now) → LeadsByParser (question_of query.now)
        (O.file_at files.now) (I.left input.old) file.now (W.written output.old) (W.written output.new) result }
    ensures text { IfErr result (IsFaultAmongTexts (O.file_at files.now) (map string_bytes query.now.texts.now)) }
    ensures input { IsErrOf result RecordsFault.Input ↔ (I.failed input.new ≡ true) }
    ensures output { IsErrOf result RecordsFault.Output ↔ (W.failed output.new ≡ true) }
    ensures unread { query.now.texts.now ≢ [] → input.new ≡ input.old }
{
    if has_start(parser, &query.options) {
        return explain_all(alloc, files, input, output, file, parser, query);
    }
    let start = query.options.start.unwrap_or("");
    early_end(write_no_start(alloc, output, query.grammar, start, query.printing))
}

// Explains the records of the texts that the query names.
fn explain_all<'a, O: Opener, I: Source, W: Sink>(
    alloc: Global,
    files: &O,
    input: &mut I,
    output: &mut W,
    file: &[u8],
    parser: &Parser,
    query: &ExplainRecordsQuery<'a>,
) -> Result<Ended, RecordsFault<'a>>
    requires reads { I.failed input.old ≡ false }
    requires works { W.failed output.old ≡ false }
    ensures explains { (from : List ℕ) → Accepts file.now (parser_rules parser.now)
        → start_name (parser_rules parser.now) (start_named query.now.options) ≡ Some from
        → LeadsByParser (question_of query.now) (O.file_at files.now) (I.left input.old) file.now
        (W.written output.old) (W.written output.new) result }
    ensures text { IfErr result (IsFaultAmongTexts (O.file_at files.now) (map string_bytes query.now.texts.now)) }
    ensures input { IsErrOf result RecordsFault.Input ↔ (I.failed input.new ≡ true) }
    ensures output { IsErrOf result RecordsFault.Output ↔ (W.failed output.new ≡ true) }
    ensures unread { query.now.texts.now ≢ [] → input.new ≡ input.old }
{
    let explainer = Explainer::new(alloc, file, parser, query.style)?;
    match explain_streams(alloc, files, input, output, &explainer, query) {
        Ok(worst) => Ok(Ended {
            faults: String::new(alloc),
            verdict: verdict_of(worst),
        }),
        Err(fault) => Err(fault),
    }
}

// The verdict for the worst outcome of records.
fn verdict_of(worst: RecordOutcome) -> Verdict
    ensures { result ≡ outcome_verdict worst }
{
    match worst {
        RecordOutcome::Matches => Verdict::Matches,
        RecordOutcome::Differs => Verdict::Differs,
        RecordOutcome::Refused => Verdict::OverLimit,
    }
}
