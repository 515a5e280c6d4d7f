//! A plain name, kept in its type.
ghost use Rattle.std.specs.Prelude.{◌≡◌, true};
ghost use Rattle.wesl_path.specs.Inline.{held};
ghost use Rattle.wesl_path.specs.Name.{plain};

pub mod test;

use crate::inline::InlineBytes;
use crate::limits::LONGEST_NAME;

/// A name that may stand as a component, a package part or an item: 1 to 64 ASCII letters, digits and underscores,
/// no digit first, and none of `package`, `self`, `super` and `import`.
#[derive(Clone, Copy)]
pub struct PlainName {
    text: InlineBytes<LONGEST_NAME>,
    ghost ok: { plain (held text) ≡ true },
}
