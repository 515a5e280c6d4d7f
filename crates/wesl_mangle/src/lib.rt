//! Manglers: names for the declarations of all modules in one output.
#![tactic(auto)]

pub mod escape;
pub mod examples;
pub mod fault;
pub mod lengths;
pub mod mangler;
pub mod name;
mod wording;
mod write;

pub use escape::EscapeMangler;
pub use examples::worked_examples;
pub use fault::MangleFault;
pub use lengths::LengthMangler;
pub use mangler::Mangler;
pub use name::MangledName;
