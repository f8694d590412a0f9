//! Byte spans, line and column positions, and byte sets, for grammar files and texts.
#![tactic(auto)]

mod byte_set;
mod line_column;
mod set_pool;
mod span;

pub use byte_set::ByteSet;
pub use line_column::{LineColumn, place};
pub use set_pool::SetPool;
pub use span::Span;
