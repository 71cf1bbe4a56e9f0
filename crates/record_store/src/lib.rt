// A chunk store on handed-over records of nine numbers, four rows to a chunk.
#![tactic(auto)]

mod laws;
pub mod records;

pub use laws::record_laws_hold;
pub use records::{RecordStore, Records};
