//! Plain names and module paths: reading, printing, comparing and joining.
#![tactic(auto)]

pub mod cells;
pub mod components;
pub mod fault;
pub mod inline;
pub mod join;
pub mod limits;
pub mod module_path;
pub mod name;
pub mod origin;
pub mod words;

pub use components::Components;
pub use components::methods::are_components;
pub use fault::PathFault;
pub use inline::{InlineBytes, NoRoom};
pub use limits::{LONGEST_NAME, LONGEST_PATH};
pub use module_path::ModulePath;
pub use module_path::methods::is_path;
pub use name::PlainName;
pub use name::test::{is_plain, same_bytes};
pub use origin::{Head, PathOrigin};
