// A chunk store on handed-over bytes, 64 to a line and 128 rows to a chunk.
#![tactic(auto)]

mod laws;
pub mod packs;

pub use laws::packed_laws_hold;
pub use packs::{PackedStore, Packs};
