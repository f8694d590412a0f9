//! Byte input and output: sources, sinks, devices, and files opened by name. Also bounded reads, complete writes, and
//! the line that separates a grammar from a text.
#![tactic(auto)]

mod device;
mod listing;
mod opener;
mod reasons;
mod retry;
mod separator;
mod transfer;

pub use device::{Device, DeviceFault, Sink, Source};
pub use listing::list_entries;
pub use opener::{FileSystem, OpenFault, Opener};
pub use reasons::reason;
pub use separator::split;
pub use transfer::{ReadFault, read_up_to, write_all_bytes};
