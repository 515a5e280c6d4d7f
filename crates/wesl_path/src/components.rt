//! Components without an origin, kept as their bytes, and valid by their type.
ghost use Rattle.std.specs.Prelude.{◌≡◌, true};
ghost use Rattle.wesl_path.specs.Inline.{held};
ghost use Rattle.wesl_path.specs.Components.{are_components_text};

pub mod methods;

use crate::inline::InlineBytes;
use crate::limits::LONGEST_PATH;

/// One or more plain names parted by `::`, at most 255 bytes: what an element of an import appends to a path.
#[derive(Clone, Copy)]
pub struct Components {
    text: InlineBytes<LONGEST_PATH>,
    ghost valid: { are_components_text (held text) ≡ true },
}
