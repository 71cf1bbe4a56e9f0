// Pages, their entries, the lines that hold eight of them, and the packed form of a line.
#![tactic(auto)]

pub mod edits;
pub mod entries;
pub mod exact;
pub mod faults;
pub mod laws;
pub mod numbers;
pub mod packs;
pub mod rows;
pub mod unpacks;
pub mod words;

pub use entries::{Entry, Mapping};
pub use exact::ExactEq;
pub use faults::LineFault;
pub use numbers::{Address, Page};
pub use rows::Line;
pub use words::{entry_from_word, entry_word};
