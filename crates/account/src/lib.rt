// The printed account of a list of pages.
#![tactic(auto)]

mod families_of;
mod hex;
mod lines_of;
mod whole;

pub use whole::account;
