// The printed account of a list's lines in a packed store and in a record store.
#![tactic(auto)]

mod copies;
mod shape;
mod stays;
mod texts;
mod whole;

pub use whole::store_account;
