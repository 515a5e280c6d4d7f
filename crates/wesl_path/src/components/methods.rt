//! Reading and printing components.
ghost use Rattle.std.specs.Prelude.{◌≡◌, ◌≤◌, true, length, Decides, MatchOption, MatchResult, ◌==◌, Some};
ghost use Rattle.wesl_path.specs.Components.{AreComponents, are_components_text};
ghost use Rattle.wesl_path.specs.Texts.{components_text};

use crate::components::Components;
use crate::fault::PathFault;
use crate::limits::LONGEST_PATH;
use crate::name::test::is_plain;
use crate::words::{Step, pass, word_end};
use std::fmt;
use std::str::from_utf8;

/// Where the plain names parted by `::` end: a text within the length is components where they end with it.
fn names_end(text: &[u8]) -> Option<usize>
    ensures { MatchOption result (AreComponents text.now → ⊥) (λ end. length text.now ≤ 255 → Decides (end == length text.now) (AreComponents text.now)) }
{
    let end = word_end(text, 0);
    if !is_plain(&text[..end]) {
        return None;
    }
    Some(pass(text, end, Step::Component).end)
}

/// Whether `text` is plain names parted by `::`.
// And `is_path` beside it: the two are one line, and differ in what is read at the front and in what that proves.
pub fn are_components(text: &[u8]) -> bool
    ensures { Decides result (AreComponents text.now) }
{
    text.len() <= LONGEST_PATH && names_end(text) == Some(text.len())
}

impl Components {
    /// Reads components, or refuses bytes that are none.
    // A method and no `TryFrom`, whose clause would be a ghost member, and not stand here.
    #[tactic(auto, using(crate::proofs::ComponentFacts::test_from_components))]
    pub fn read(text: &[u8]) -> Result<Components, PathFault>
        ensures { MatchResult result (λ m. components_text m ≡ text.now) (λ e. (e ≡ PathFault.Malformed) × (AreComponents text.now → ⊥)) }
    {
        if !are_components(text) {
            return Err(PathFault::Malformed);
        }
        Ok(Components {
            text: text.try_into()?,
        })
    }

    /// The bytes that the components are written as.
    pub fn as_bytes(&self) -> &[u8]
        ensures value { result.now ≡ components_text self.now }
        ensures valid { are_components_text result.now ≡ true }
    {
        self.text.as_slice()
    }

    /// The components as text.
    #[tactic(auto, using(crate::proofs::AsciiFacts::components_utf8))]
    pub fn as_str(&self) -> &str
        ensures { result.now ≡ components_text self.now }
    {
        from_utf8(self.as_bytes()).unwrap()
    }
}

impl fmt::Display for Components {
    ghost output = { λ x. Some (components_text x) };

    fn fmt<W: fmt::Write>(&self, f: &mut fmt::Formatter<W>) -> fmt::Result {
        f.pad(self.as_str())
    }
}
