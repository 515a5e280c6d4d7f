//! What a Mangler is.
ghost use Rattle.std.specs.Prelude.{ℕ, List};
ghost use Rattle.wesl_path.specs.Path.{Path};
ghost use Rattle.wesl_path.specs.Texts.{path_value, name_text};
ghost use Rattle.wesl_mangle.specs.Laws.{Apart, Named};
ghost use Rattle.wesl_mangle.specs.Writes.{Answered};

use crate::fault::MangleFault;
use wesl_path::{ModulePath, PlainName};

/// Gives each declaration of each module a name of its own, under which it stands in the assembled output.
pub trait Mangler {
    /// the name of an item of the module at a path
    ghost meaning: { Self → Path → List ℕ → List ℕ };

    /// Writes the name to the front of `out` and answers its length, where it fits; else `out` stays as it is.
    // The path and the item come apart, as in the crate's own trait, and go into a lent buffer, as nothing is allocated.
    fn mangle(
        &self,
        path: &ModulePath,
        item: &PlainName,
        out: &mut [u8],
    ) -> Result<usize, MangleFault>
        ensures { Answered (meaning self.now (path_value path.now) (name_text item.now)) out.old out.new result };

    // two declarations never get one name
    ghost apart: { (m : Self) → Apart (meaning m) };

    // a name is 1 to 1,024 letters, digits and underscores, no digit first
    ghost named: { (m : Self) → Named (meaning m) };
}
