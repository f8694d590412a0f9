//! Replies: the line of JSON and the exit status for an answer, a refusal, a table, code, warnings, a profile, what
//! texts use of a grammar, or an accepted grammar.
#![tactic(auto)]

mod answer_object;
mod answer_text;
mod coverage_lines;
mod coverage_text;
mod expected_spans;
mod fault;
mod line;
mod lines;
mod profile_end;
mod profile_lines;
mod profile_text;
mod record_lines;
mod refusal_text;
mod row_lines;
mod status;
mod text_lines;
mod tree_form;

pub use answer_text::answer_json;
pub use coverage_lines::{coverage_line, no_coverage_line};
pub use coverage_text::coverage_json;
pub use fault::Fault;
pub use line::{Line, Tail};
pub use lines::{
    accepted_line, answer_line, code_line, lint_line, long_text_line, no_rule_line, no_start_line,
    refused_line, step_limit_line, table_line,
};
pub use peg_listings::{code_json, lint_json, table_json};
pub use profile_lines::profile_line;
pub use profile_text::profile_json;
pub use record_lines::push_record_line;
pub use refusal_text::refusal_json;
pub use status::Status;
pub use text_lines::answer_line_with_text;
pub use tree_form::TreeForm;
