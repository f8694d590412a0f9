//! The metagrammar: Ford's figure 1, extended by counts and hexadecimal escapes. Also its text, and the rules that its
//! trees denote.
#![tactic(auto)]

mod builders;
mod combine;
mod escapes;
mod figure_file;
pub mod laws;
mod line;
mod nesting;
mod ranges;
mod rule_lines;
pub mod rule_numbers;
mod rules;

pub use combine::{choice_of, sequence_of};
pub use escapes::{SIMPLE_ESCAPES, SimpleEscape, unescape};
pub use figure_file::figure_text;
pub use nesting::MAX_OPEN;
pub use ranges::{ByteRange, set_of_ranges};
pub use rules::figure;
