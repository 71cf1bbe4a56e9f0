// A chunk store on lent memory, whatever a row of it is made of.
#![tactic(auto)]

pub mod form;
mod rows;
pub mod store;

pub use form::RowForm;
pub use store::LentStore;
