//! Messages for people: where a text doesn't match, and why a grammar file is refused.
#![tactic(auto)]

mod blanks;
mod bytes;
mod causes;
mod character_names;
mod characters;
mod failure;
mod file_name;
mod found;
mod items;
mod lines;
mod listing;
mod numbers;
mod reason;
mod rejection;
mod remark;
mod sentences;
mod shown;
mod source;
mod syntax;

pub use causes::SyntaxCause;
pub use failure::Failure;
pub use file_name::shown_name;
pub use items::Item;
pub use lines::TextLines;
pub use reason::Reason;
pub use rejection::Rejection;
pub use remark::Remark;
pub use syntax::syntax_cause;
