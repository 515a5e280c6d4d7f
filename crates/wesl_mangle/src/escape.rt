//! The escape mangling, WESL's own: `_` parts the words, and a word that has underscores is led by `_` and their number.
ghost use Rattle.std.specs.Prelude.{◌≡◌, take, codes, IfOk};
ghost use Rattle.wesl_path.specs.Path.{path_words};
ghost use Rattle.wesl_path.specs.Texts.{path_value, name_text};
ghost use Rattle.wesl_mangle.specs.Escape.{underscores, escape, escaped, package_lead, unescape};
ghost use Rattle.wesl_mangle.specs.Writes.{Answered};
ghost use Rattle.wesl_mangle.specs.Escapes.{escape_as_words, escape_back, escape_apart};
ghost use Rattle.wesl_mangle.specs.EscapeNames.{escape_named};

use crate::fault::MangleFault;
use crate::mangler::Mangler;
use crate::wording::{Wording, give_name};
use crate::write::NameText;
use wesl_path::{ModulePath, PathOrigin, PlainName};

/// The Mangler of WESL: `package::my_mod` and `a_b` give `package__1my_mod__1a_b`.
#[derive(Clone, Copy)]
pub struct EscapeMangler {}

#[tactic(auto, unfolding(crate::specs::Escape::underscores))]
fn count_underscores(word: &[u8]) -> usize
    ensures { result ≡ underscores word.now }
{
    word.iter().filter(|b| **b == b'_').count()
}

impl Wording for EscapeMangler {
    ghost lead = { package_lead };

    ghost words_of = { path_words };

    ghost written = { escaped };

    ghost end = { codes "_" };

    ghost whole = { escape };

    ghost back = { unescape };

    ghost in_words = { escape_as_words };

    ghost goes_back = { escape_back };

    ghost named = { escape_named };

    /// `import` and the number of the parts, before a package of several.
    fn push_lead<'p>(name: &mut NameText, path: &'p ModulePath) -> &'p [u8] {
        match path.origin() {
            PathOrigin::Package(parts) if parts > 1 => name.push_numbered(b"import_", parts),
            _ => {}
        }
        path.as_bytes()
    }

    /// A word with underscores is led by `_` and their number.
    #[tactic(auto, unfolding(crate::specs::Escape::escaped))]
    fn push_word(name: &mut NameText, word: &[u8]) {
        let underscores = count_underscores(word);
        if underscores > 0 {
            name.push(b"_");
            name.push_decimal(underscores);
        }
        name.push(word);
    }

    fn ending() -> &'static [u8] {
        b"_"
    }
}

// One impl over every `Wording` would close the trait to others, and hide the way back, which `back` names.
impl Mangler for EscapeMangler {
    ghost meaning = { λ _ p i. escape p i };

    ghost apart = { λ m. escape_apart };

    ghost named = { λ m. escape_named };

    fn mangle(
        &self,
        path: &ModulePath,
        item: &PlainName,
        out: &mut [u8],
    ) -> Result<usize, MangleFault>
        ensures answer { Answered (escape (path_value path.now) (name_text item.now)) out.old out.new result }
        ensures back { IfOk result (λ n. unescape (take n out.new) ≡ record { path = path_value path.now; name = name_text item.now }) }
    {
        give_name::<EscapeMangler>(path, item, out)
    }
}
