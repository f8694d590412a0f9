//! Listings: the JSON of what is known of a grammar before any parse. These are its code, its table of abstract outcomes
//! and its warnings. The crate also has what other crates share: lines and columns of ascending offsets, spans, and
//! serialized values as text.
#![tactic(auto)]

mod byte_runs;
mod code_text;
mod lint_text;
mod positions;
mod spans;
mod table_text;
mod text;

pub use code_text::code_json;
pub use lint_text::lint_json;
pub use positions::{Position, column, first_position, position_from};
pub use spans::serialize_span;
pub use table_text::table_json;
pub use text::text_of;
