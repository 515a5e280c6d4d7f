//! A mangled name, kept in its type.
ghost use Rattle.std.specs.Prelude.{◌≡◌, ◌≤◌, true, take};
ghost use Rattle.wesl_path.specs.Inline.{held};
ghost use Rattle.wesl_path.specs.Texts.{path_value, name_text};
ghost use Rattle.wesl_mangle.specs.Mangle.{is_word};

use crate::mangler::Mangler;
use std::fmt;
use std::str::from_utf8;
use wesl_path::{InlineBytes, ModulePath, PlainName};

/// A mangled name has at most so many bytes.
pub const LONGEST_MANGLED: usize = 1024;

/// A name in the output: 1 to 1,024 letters, digits and underscores, no digit first.
#[derive(Clone, Copy)]
pub struct MangledName {
    text: InlineBytes<LONGEST_MANGLED>,
    ghost word: { is_word (held text) ≡ true },
}

/// Writes what a Mangler calls an item, and answers its length: there is always room for it.
// Into a lent buffer, as any Mangler writes.
fn mangle_into<M: Mangler>(
    mangler: &M,
    path: &ModulePath,
    item: &PlainName,
    out: &mut [u8; LONGEST_MANGLED],
) -> usize
    ensures within { result ≤ 1024 }
    ensures name { take result out.new ≡ M.meaning mangler.now (path_value path.now) (name_text item.now) }
    ensures word { is_word (take result out.new) ≡ true }
{
    mangler.mangle(path, item, out).unwrap()
}

impl MangledName {
    ghost use Rattle.wesl_mangle.specs.Names.{mangled_text};

    /// What a Mangler calls an item of the module at a path. There is always room for it.
    pub fn of<M: Mangler>(mangler: &M, path: &ModulePath, item: &PlainName) -> MangledName
        ensures { mangled_text result ≡ M.meaning mangler.now (path_value path.now) (name_text item.now) }
    {
        let mut out = [0u8; LONGEST_MANGLED];
        let len = mangle_into(mangler, path, item, &mut out);
        MangledName {
            text: InlineBytes::front_of(out, len),
        }
    }

    /// The name's bytes.
    pub fn as_bytes(&self) -> &[u8]
        ensures value { result.now ≡ mangled_text self.now }
        ensures valid { is_word result.now ≡ true }
    {
        self.text.as_slice()
    }

    /// The name as text.
    #[tactic(auto, using(crate::proofs::Names::word_utf8))]
    pub fn as_str(&self) -> &str
        ensures { result.now ≡ mangled_text self.now }
    {
        from_utf8(self.as_bytes()).unwrap()
    }
}

impl fmt::Display for MangledName {
    ghost use Rattle.std.specs.Prelude.{Some};
    ghost use Rattle.wesl_mangle.specs.Names.{mangled_text};

    ghost output = { λ n. Some (mangled_text n) };

    fn fmt<W: fmt::Write>(&self, f: &mut fmt::Formatter<W>) -> fmt::Result {
        f.pad(self.as_str())
    }
}
