//! The tool: reads a grammar file and a text, and writes one line of JSON.
#![tactic(auto)]

mod covering;
mod covering_records;
mod exit;
mod explaining;
mod fault;
mod linting;
mod prepare_coverage;
mod program;
mod record_messages;
mod records;
mod report;
mod request;
mod testing;
mod write;

pub use exit::{Exit, read_args, run_program};
pub use peg_cli::{Words, WordsFault, read_words};
pub use peg_coverage_files::CoverQuery;
pub use peg_explain_files::{ItemStyle, NameEnd, Printing, Query};
pub use peg_explain_records::ExplainRecordsQuery;
pub use peg_io::{Device, DeviceFault, FileSystem, OpenFault, Opener, Sink, Source, split};
pub use peg_json::{
    Fault, Status, answer_json, code_json, lint_json, profile_json, refusal_json, table_json,
};
pub use peg_lint::{Selection, Warning, WarningKind, file_warnings, warnings};
pub use peg_lint_files::LintQuery;
pub use peg_parser::{
    Answer, FigureFault, ParseFault, ParseOptions, Parser, Refusal, read_by_figure,
};
pub use peg_profile::{Profile, RuleProfile};
pub use peg_record_files::{RecordEnd, RecordFilter, RecordsQuery};
pub use peg_replies::{Command, Nodes, ToolFault, TreePrinting, run_joined, run_tool};
pub use peg_test_files::TestQuery;
pub use program::{ProgramFault, run_words};
pub use records::RecordsParse;
pub use request::Request;
