// Lines laid into any chunk store, read back, and the chunks given back.
#![tactic(auto)]

mod giving;
mod laying;
mod looking;
pub mod stay;
mod whole;

pub use stay::Stay;
pub use whole::keep;
