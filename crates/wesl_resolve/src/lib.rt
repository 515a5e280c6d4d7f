//! Resolvers: where the texts of modules come from.
#![tactic(auto)]

pub mod ask;
pub mod bundle;
pub mod cell;
pub mod fault;
mod lines;
pub mod resolver;
pub mod virtual_resolver;

pub use ask::{find_in_bundle, find_source, first_difference};
pub use bundle::{Bundle, BundleModule, Modules};
pub use cell::FaultCell;
pub use fault::{ListingFault, ResolveFault};
pub use resolver::Resolver;
pub use virtual_resolver::{VirtualModule, VirtualResolver};
