//! Parse trees: their representation, navigation, and JSON forms.
#![tactic(auto)]

mod depth;
mod flat_text_tree;
mod flat_tree;
mod flat_tree_writer;
mod forest;
mod json;
pub mod laws;
mod levels;
mod member;
mod name_json;
mod names;
mod nested;
mod nested_text_tree;
mod nested_tree;
mod node_text;
mod outcome;
mod part;
mod row;
mod row_text;
mod rows;
mod rule_set;
mod select;
mod shape;
mod shows;
mod tree;
mod write;

pub use flat_text_tree::FlatTextTree;
pub use flat_tree::FlatTree;
pub use flat_tree_writer::FlatTreeWriter;
pub use forest::{Branch, Forest};
pub use json::rows_json;
pub use member::serialize_member;
pub use names::Names;
pub use nested::{JsonFault, MAX_LEVELS, nested_json};
pub use nested_text_tree::NestedTextTree;
pub use nested_tree::NestedTree;
pub use outcome::{Outcome, Parsed};
pub use row::TreeNode;
pub use rule_set::RuleSet;
pub use shape::one_tree;
pub use tree::Tree;
