//! Explanations of files: reads a grammar file and texts by name, and says where each text doesn't match.
#![tactic(auto)]

mod content;
mod ended;
mod entry;
mod explaining;
mod listing;
mod printing;
mod query;
mod reports;
mod task;

pub use content::{Content, content_of};
pub use ended::{Ended, ExplainFault, Verdict};
pub use entry::{Entry, write_line, write_program_line};
pub use explaining::{explain_files, has_start, unread_grammar, write_no_start, write_refusal};
pub use peg_explain::ItemStyle;
pub use printing::{Printing, write_alone, write_printed};
pub use query::{NameEnd, Query};
pub use reports::{TextReport, report_of_name, report_of_text};
