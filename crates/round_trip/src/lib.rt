// What a user of any chunk store can rely on, and what a lender of memory can.
#![tactic(auto)]

pub mod loans;
pub mod users;

pub use loans::{lend, lend_bytes, lend_records};
pub use users::round_trip;
