// Lays a list of pages out as lines, and says which of its lines are refused.
#![tactic(auto)]

mod calls;
mod faults;
mod listed;
mod sheets;
mod steps;

pub use calls::lay_out;
pub use faults::ListFault;
pub use sheets::{Layout, Refusal};
