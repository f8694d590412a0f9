//! The nodes of a run, with links to stored results. Storing a result and appending a stored result take amortized
//! constant time, whatever the number of their nodes.
//!
//! Without links a memo would copy the nodes of a result when it stores it, and again at each hit. A call nested `n`
//! levels deep would then be copied `n` times, so parsing would take quadratic time in the depth of nesting.
//!
//! A `LinkedNodes` is a list of items. An item is a node, or a link to a range of the store, a list of items that only
//! grows. Storing a result moves its items to the end of the store and puts a link in their place, so each item moves
//! at most once. Appending a stored result pushes one link. A link refers to older stored items only, so the nodes that
//! a list of items denotes are defined by recursion (`expand` in the specifications). Contracts speak of these nodes.
//!
//! # Example
//!
//! ```
//! let mut nodes = LinkedNodes::new(alloc);
//! nodes.push(open_node)?;
//! let index = nodes.close(rule, span);
//! let link = nodes.store_from(index, 0)?;
//! nodes.append(link)?;
//! let tree = nodes.take_nodes()?;
//! ```
#![tactic(auto)]

mod expand;
mod item;
mod linked_nodes;

pub use item::Link;
pub use linked_nodes::LinkedNodes;
