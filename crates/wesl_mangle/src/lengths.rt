//! The mangling by lengths: each word is led by its length.
ghost use Rattle.std.specs.Prelude.{◌≡◌, [], ◌++◌, take, IfOk};
ghost use Rattle.wesl_path.specs.Texts.{path_value, name_text};
ghost use Rattle.wesl_mangle.specs.Counted.{counted, counted_origin, package_parts, by_lengths, from_lengths};
ghost use Rattle.wesl_mangle.specs.Writes.{Answered};
ghost use Rattle.wesl_mangle.specs.Counts.{lengths_in_words, lengths_back, lengths_apart};
ghost use Rattle.wesl_mangle.specs.CountNames.{lengths_named};

use crate::fault::MangleFault;
use crate::mangler::Mangler;
use crate::wording::{Wording, give_name};
use crate::write::NameText;
use wesl_path::{ModulePath, PathOrigin, PlainName};

/// The Mangler by lengths: `package::cal` and `factor` give `p3_cal6_factor`.
#[derive(Clone, Copy)]
pub struct LengthMangler {}

impl Wording for LengthMangler {
    ghost lead = { counted_origin };

    ghost words_of = { λ p. package_parts p.origin ++ p.components };

    ghost written = { counted };

    ghost end = { [] };

    ghost whole = { by_lengths };

    ghost back = { from_lengths };

    ghost in_words = { lengths_in_words };

    ghost goes_back = { lengths_back };

    ghost named = { lengths_named };

    /// `p`, `r` and how far up, or `k` and how many parts. A package's own name is written too, and that of no other origin.
    fn push_lead<'p>(name: &mut NameText, path: &'p ModulePath) -> &'p [u8] {
        let head = path.head();
        let text = path.as_bytes();
        match head.origin {
            PathOrigin::Absolute => {
                name.push(b"p");
                &text[head.end..]
            }
            PathOrigin::Relative(up) => {
                name.push_numbered(b"r", up);
                &text[head.end..]
            }
            PathOrigin::Package(parts) => {
                name.push_numbered(b"k", parts);
                text
            }
        }
    }

    /// A word is led by its length.
    #[tactic(auto, unfolding(crate::specs::Counted::counted))]
    fn push_word(name: &mut NameText, word: &[u8]) {
        name.push_decimal(word.len());
        name.push(b"_");
        name.push(word);
    }

    /// The next word's length is enough.
    fn ending() -> &'static [u8] {
        b""
    }
}

// One impl over every `Wording` would close the trait to others, and hide the way back, which `back` names.
impl Mangler for LengthMangler {
    ghost meaning = { λ _ p i. by_lengths p i };

    ghost apart = { λ m. lengths_apart };

    ghost named = { λ m. lengths_named };

    fn mangle(
        &self,
        path: &ModulePath,
        item: &PlainName,
        out: &mut [u8],
    ) -> Result<usize, MangleFault>
        ensures answer { Answered (by_lengths (path_value path.now) (name_text item.now)) out.old out.new result }
        ensures back { IfOk result (λ n. from_lengths (take n out.new) ≡ record { path = path_value path.now; name = name_text item.now }) }
    {
        give_name::<LengthMangler>(path, item, out)
    }
}
