//! Sessions of parsers of records: what makes the line of each record of a stream.
ghost use Rattle.std.specs.Prelude.{◌≡◌, length};
ghost use Rattle.peg_json.specs.Statuses.{status_code};
ghost use Rattle.peg_parser.specs.Parser.{parser_rules};
ghost use Rattle.peg_parser.specs.Sessions.{session_rules};
ghost use Rattle.peg_replies.specs.RecordReplies.{IsStatusOfParse, outcome_status};
ghost use Rattle.peg_semantics.specs.Terminals.{extents_of_terminals};

use crate::parse::parsed_line;
use crate::record_parser::RecordParser;
use peg_grammar::MAX_TEXT_BYTES;
use peg_json::{Line, Status, push_record_line};
use peg_parser::Session;
use peg_record_files::{RecordOutcome, RecordPlace, RecordPrinter};
use std::alloc::{AllocError, Global};

/// Makes the lines of records by a parser of records. What is computed for one record serves the later ones.
#[derive(Drop)]
pub struct RecordSession<'a> {
    records: &'a RecordParser<'a>,
    session: Session<'a>,
    pub ghost rules: { length (session_rules session) ≡ length (parser_rules records.now.parser) },
    pub ghost spans: { extents_of_terminals (session_rules session)
        ≡ extents_of_terminals (parser_rules records.now.parser) },
}

impl RecordPrinter for RecordSession<'_> {
    ghost use Rattle.peg_grammar.specs.Limits.{max_text_bytes};
    ghost use Rattle.peg_replies.specs.RecordParsers.{IsReplyBy};

    ghost replies = { IsReplyBy };

    ghost max_bytes = { λ _. max_text_bytes };

    fn max_bytes(&self) -> usize {
        MAX_TEXT_BYTES
    }

    fn push_line(
        &mut self,
        alloc: Global,
        place: RecordPlace,
        given: &[u8],
        lines: &mut Vec<u8>,
    ) -> Result<RecordOutcome, AllocError> {
        let line = self.line_of(alloc, given)?;
        let outcome = outcome_of(line.status);
        push_record_line(lines, place.number, line)?;
        Ok(outcome)
    }
}

impl<'a> RecordSession<'a> {
    ghost use Rattle.std.specs.Prelude.{List, IfOk, ℕ};
    ghost use Rattle.peg_json.specs.Lines.{IsLineOf, line_bytes};
    ghost use Rattle.peg_parser.specs.Sessions.{IsSessionOf};
    ghost use Rattle.peg_replies.specs.RecordParsers.{IsRecordSessionOf, ParsesByRecords};

    // The session of a parser of records, before the first record.
    pub(crate) fn new(alloc: Global, records: &'a RecordParser<'a>) -> RecordSession<'a>
        ensures records { result.records.now ≡ records.now }
        ensures parses { IsSessionOf records.now.shown result.session }
    {
        let session = records.shown.session(alloc);
        RecordSession { records, session }
    }

    // The line of the parse of a text.
    fn line_of(&mut self, alloc: Global, text: &[u8]) -> Result<Line, AllocError>
        ensures line { (file : List ℕ) → IsRecordSessionOf file self.old
            → IfOk result (λ line. IsLineOf file (ParsesByRecords self.old.records.now text.now) (line_bytes line)
            (status_code line.status)) }
        ensures records { self.new.records.now ≡ self.old.records.now }
        ensures parses { IsSessionOf self.old.records.now.shown self.old.session
            → IsSessionOf self.old.records.now.shown self.new.session }
    {
        let records = self.records;
        let parsed = self.session.parse(alloc, text, &records.options);
        parsed_line(
            alloc,
            &records.parser,
            parsed,
            text,
            &records.options,
            records.printing,
        )
    }
}

// How the parse of a record ends whose line has this status. Those of the grammar are reported before.
fn outcome_of(status: Status) -> RecordOutcome
    ensures { IsStatusOfParse (status_code status) → outcome_status result ≡ status_code status }
{
    match status {
        Status::Done => RecordOutcome::Matches,
        Status::Failed => RecordOutcome::Differs,
        _ => RecordOutcome::Refused,
    }
}
