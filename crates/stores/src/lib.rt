// What a chunk store means, why one refuses, and the marks that the makes share.
#![tactic(auto)]

pub mod faults;
mod free;
pub mod marks;
pub mod store;

pub use faults::StoreFault;
pub use marks::{MOST_CHUNKS, Marks};
pub use store::{ChunkShape, ChunkStore, RowIndex};
