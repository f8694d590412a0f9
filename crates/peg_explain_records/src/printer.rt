//! What makes the messages of the records of a text.
ghost use Rattle.std.specs.Prelude.{◌≡◌, ◌++◌, OnOk};
ghost use Rattle.peg_explain_files.specs.Entries.{entry_message};
ghost use Rattle.peg_explain_files.specs.Printings.{printed_by};
ghost use Rattle.peg_grammar.specs.Limits.{max_text_bytes};
ghost use Rattle.peg_messages.specs.FileNames.{shown_name};
ghost use Rattle.peg_explain_records.specs.RecordMessages.{printing_at, report_outcome};

use peg_explain::Explainer;
use peg_explain_files::{Entry, Printing, TextReport, report_of_text};
use peg_grammar::MAX_TEXT_BYTES;
use peg_messages::TextLines;
use peg_parser::ParseOptions;
use peg_record_files::{RecordOutcome, RecordPlace, RecordPrinter};
use std::alloc::{AllocError, Global};

/// What makes the messages of the records of a text.
#[derive(Clone, Copy)]
pub(crate) struct RecordExplainer<'a> {
    pub(crate) explainer: &'a Explainer<'a>,
    pub(crate) options: &'a ParseOptions<'a>,
    pub(crate) printing: Printing,
    pub(crate) max_errors: Option<u64>,
    /// The name of the text, and how messages show it.
    pub(crate) name: &'a [u8],
    pub(crate) called: &'a [u8],
    ghost shown: { called.now ≡ shown_name name.now },
}

impl RecordPrinter for RecordExplainer<'_> {
    ghost use Rattle.peg_explain_records.specs.RecordExplainers.{IsMessageBy};

    ghost replies = { IsMessageBy };

    ghost max_bytes = { λ _. max_text_bytes };

    fn max_bytes(&self) -> usize {
        MAX_TEXT_BYTES
    }

    fn push_line(
        &mut self,
        alloc: Global,
        place: RecordPlace,
        given: &[u8],
        out: &mut Vec<u8>,
    ) -> Result<RecordOutcome, AllocError> {
        let lines = TextLines::Part {
            line_feeds: place.line_feeds,
        };
        let report = report_of_text(
            alloc,
            self.explainer,
            self.called,
            lines,
            given,
            self.options,
        )?;
        let outcome = outcome_of(&report);
        let entry = Entry {
            name: self.name,
            report,
        };
        let printing = printing_at(self.printing, self.max_errors, place);
        push_message(alloc, &entry, printing, out)?;
        Ok(outcome)
    }
}

// How the parse of a record ends that has this report.
fn outcome_of(report: &TextReport) -> RecordOutcome
    ensures { result ≡ report_outcome report.now }
{
    match report {
        TextReport::Matches => RecordOutcome::Matches,
        TextReport::Differs(_) => RecordOutcome::Differs,
        TextReport::TooLong
        | TextReport::TooManySteps
        | TextReport::NotUtf8
        | TextReport::Unopened
        | TextReport::Unreadable => RecordOutcome::Refused,
    }
}

// What is printed for the record at this place: no message if the text has as many as the limit allows.
fn printing_at(printing: Printing, max_errors: Option<u64>, place: RecordPlace) -> Printing
    ensures { result ≡ printing_at printing max_errors place }
{
    match max_errors {
        Some(most) if most <= place.failed => Printing::Nothing,
        _ => printing,
    }
}

// Appends the message of a record, if it is printed.
fn push_message(
    alloc: Global,
    entry: &Entry<'_>,
    printing: Printing,
    out: &mut Vec<u8>,
) -> Result<(), AllocError>
    ensures { OnOk result (out.new.items ≡ out.old.items ++ printed_by printing (entry_message entry.now)) }
{
    match printing {
        Printing::All => entry.write_message(alloc, out),
        Printing::Nothing => Ok(()),
    }
}
