//! Memos, which store the results of rules by position, up to a capacity, and node stores, which hold the nodes of a run
//! and its memo.
#![tactic(auto)]

mod copied_nodes;
mod found;
mod keep;
pub mod laws;
mod lru_memo;
mod no_memo;
mod node_store;
mod stored;

pub use copied_nodes::CopiedNodes;
pub use found::Found;
pub use keep::Keep;
pub use lru_memo::LruMemo;
pub use no_memo::NoMemo;
pub use node_store::{NodeStore, Recalled};
