// Hash families: a number of 32 bits for each of three ways and each cluster.
#![tactic(auto)]

mod constants;
pub mod digits;
pub mod family;
pub mod mixes;
mod range;
mod rotation;
pub mod tables;

pub use digits::Digit;
pub use family::Family;
pub use mixes::Mix;
pub use range::KnownCluster;
pub use tables::Table;
