// Reads lines of comma-separated decimal numbers out of bytes.
#![tactic(auto)]

mod cuts;
mod fields;
mod texts;

pub use cuts::cut;
pub use fields::{number, three_numbers};
pub use texts::{Lines, first_line};
