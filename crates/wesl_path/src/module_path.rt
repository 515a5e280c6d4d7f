//! A module path, kept as its bytes, and valid by its type.
ghost use Rattle.std.specs.Prelude.{◌≡◌, true};
ghost use Rattle.wesl_path.specs.Inline.{held};
ghost use Rattle.wesl_path.specs.Path.{is_path_text};

pub mod methods;

use crate::inline::InlineBytes;
use crate::limits::LONGEST_PATH;

/// Where the declarations of a module are found: an origin and components, at most 255 bytes as written.
#[derive(Clone, Copy)]
pub struct ModulePath {
    text: InlineBytes<LONGEST_PATH>,
    ghost valid: { is_path_text (held text) ≡ true },
}
