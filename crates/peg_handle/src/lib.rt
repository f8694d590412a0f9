//! The content of the C library's handles, and the bodies of its calls. `peg_c` exports them.
#![tactic(auto)]

mod buffers;
mod calls;
mod content;
mod explaining;
mod explanation_calls;
pub mod laws;
mod levels;
mod nodes;
mod parsing;
mod printing;
mod printing_calls;
mod profiling;
mod reading;
mod record_answers;
mod record_calls;
mod records;
mod refusal_info;
mod rejection;
mod rule_names;
mod selecting;
mod selecting_calls;
mod start;
mod status;
mod summary;

pub use buffers::{copy_items, copy_text};
pub use calls::{
    copy_json_of, copy_name_of, copy_nodes_of, copy_reason_of, copy_spans_of, parse_by, write_info,
    write_rule_count, write_summary,
};
pub use content::{
    Content, Explanation, FileSpan, GrammarFile, Match, PrintedLine, Rejection, SelectingParser,
    TextExplainer,
};
pub use explaining::{explain, explain_compiled};
pub use explanation_calls::{
    MismatchInfo, copy_expected_of, copy_message_of, explain_by, explain_by_explainer,
    write_mismatch,
};
pub use nodes::{Node, copy_nodes};
pub use parsing::parse;
pub use printing::{print_code, print_table, print_warnings};
pub use printing_calls::{
    copy_line_of, print_code_of, print_table_of, print_warnings_of, write_rule_number,
};
pub use profiling::{print_profile, print_profile_of};
pub use reading::{ReadFault, read, read_explainer};
pub use record_calls::parse_records_by;
pub use records::{RecordProgress, RecordTask, TextRecord, parse_records};
pub use refusal_info::RefusalInfo;
pub use rule_names::copy_rule_name;
pub use selecting::{parse_selecting, read_selecting};
pub use selecting_calls::parse_by_selecting;
pub use status::{
    DONE, FAILED, NO_SUCH_RULE, NO_SUCH_START, OUT_OF_MEMORY, OUT_OF_RANGE, REFUSED, STEP_LIMIT,
    TEXT_TOO_LONG, WRONG_HANDLE,
};
pub use summary::{Summary, summary_of};
