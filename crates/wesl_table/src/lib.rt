//! The one table behind every lookup: records with a key, in the order in which they were added.
#![tactic(auto)]

pub mod fault;
pub mod keyed;
pub mod place;
pub mod table;

pub use fault::TableFault;
pub use keyed::{ByBytes, Comparison, Keyed};
pub use place::Place;
pub use table::Table;
