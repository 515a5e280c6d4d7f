//! Reading, printing and comparing module paths.
ghost use Rattle.std.specs.Prelude.{◌≡◌, ◌<◌, ◌≤◌, true, ◌++◌, length, Decides, MatchOption, MatchResult, ◌==◌, Some};
ghost use Rattle.wesl_path.specs.Path.{IsPath, is_path_text};
ghost use Rattle.wesl_path.specs.Heads.{HeadOf, kind_of};
ghost use Rattle.wesl_path.specs.Texts.{path_text, path_value, SameAnswer, Equivalence};
ghost use Rattle.wesl_path.specs.Equality.{path_eq, path_eq_laws};
ghost use Rattle.wesl_path.specs.declared.fault.PathFault.TheVariants.{Long};

use crate::fault::PathFault;
use crate::inline::InlineBytes;
use crate::limits::LONGEST_PATH;
use crate::module_path::ModulePath;
use crate::name::test::same_bytes;
use crate::origin::{Head, PathOrigin, read_origin};
use crate::words::{Step, pass};
use std::fmt;
use std::str::from_utf8;

/// Where the words end that can be read as a path's: a text within the length is a path where they end with it.
fn words_end(text: &[u8]) -> Option<usize>
    ensures { MatchOption result (IsPath text.now → ⊥) (λ end. length text.now ≤ 255 → Decides (end == length text.now) (IsPath text.now)) }
{
    let head = read_origin(text)?;
    Some(pass(text, head.end, Step::Component).end)
}

/// Whether `text` is a path.
pub fn is_path(text: &[u8]) -> bool
    ensures { Decides result (IsPath text.now) }
{
    text.len() <= LONGEST_PATH && words_end(text) == Some(text.len())
}

/// The path that is written as `front`, `sep` and `back`, unless that is too long.
pub(crate) fn written(front: &[u8], sep: &[u8], back: &[u8]) -> Result<ModulePath, PathFault>
    requires { length (front.now ++ (sep.now ++ back.now)) ≤ 255 → is_path_text (front.now ++ (sep.now ++ back.now)) ≡ true }
    ensures { MatchResult result (λ m. path_text m ≡ front.now ++ (sep.now ++ back.now)) (λ e. (e ≡ Long) × (255 < length (front.now ++ (sep.now ++ back.now)))) }
{
    let mut text = InlineBytes::new();
    text.push(front)?;
    text.push(sep)?;
    text.push(back)?;
    Ok(ModulePath { text })
}

impl ModulePath {
    /// Reads a path, or refuses bytes that are none.
    // A method and no `TryFrom`, whose clause would be a ghost member, and not stand here.
    pub fn read(text: &[u8]) -> Result<ModulePath, PathFault>
        ensures { MatchResult result (λ m. path_text m ≡ text.now) (λ e. (e ≡ PathFault.Malformed) × (IsPath text.now → ⊥)) }
    {
        if !is_path(text) {
            return Err(PathFault::Malformed);
        }
        written(text, b"", b"")
    }

    /// The bytes that the path is written as.
    pub fn as_bytes(&self) -> &[u8]
        ensures value { result.now ≡ path_text self.now }
        ensures valid { is_path_text result.now ≡ true }
    {
        self.text.as_slice()
    }

    /// The path as text.
    #[tactic(auto, using(crate::proofs::AsciiFacts::path_utf8))]
    pub fn as_str(&self) -> &str
        ensures { result.now ≡ path_text self.now }
    {
        from_utf8(self.as_bytes()).unwrap()
    }

    /// The origin, and where its bytes end.
    pub fn head(&self) -> Head
        ensures { HeadOf (path_text self.now) result }
    {
        read_origin(self.as_bytes()).unwrap()
    }

    /// Where the path starts.
    pub fn origin(&self) -> PathOrigin
        ensures { result ≡ kind_of (path_value self.now).origin }
    {
        self.head().origin
    }

    /// How many components follow the origin.
    pub fn component_count(&self) -> usize
        ensures { result ≡ length (path_value self.now).components }
    {
        let end = self.head().end;
        pass(self.as_bytes(), end, Step::Component).count
    }
}

// By hand, for its clauses: what `==` tells of two paths stands here, and bytes past the length do not count.
impl PartialEq for ModulePath {
    ghost eq = { path_eq };

    ghost laws = { path_eq_laws };

    fn eq(&self, other: &ModulePath) -> bool
        ensures same { SameAnswer self.now other.now result }
        ensures lawful { Equivalence }
    {
        same_bytes(self.as_bytes(), other.as_bytes())
    }
}

impl fmt::Display for ModulePath {
    ghost output = { λ x. Some (path_text x) };

    fn fmt<W: fmt::Write>(&self, f: &mut fmt::Formatter<W>) -> fmt::Result {
        f.pad(self.as_str())
    }
}
