//! How the words of a declaration make its name, the same way for each Mangler of this crate.
ghost use Rattle.std.specs.Prelude.{◌≡◌, ℕ, ◌<◌, not, List, [], ◌∷◌, ◌++◌, length, take, position, MatchOption, IfSome, IfOk};
ghost use Rattle.std.specs.List.{flat_map};
ghost use Rattle.wesl_path.specs.Path.{Origin, Path, parts_words, words};
ghost use Rattle.wesl_path.specs.Texts.{path_value, name_text};
ghost use Rattle.wesl_mangle.specs.Mangle.{Item};
ghost use Rattle.wesl_mangle.specs.Laws.{Mangling, GoesBack, Named};
ghost use Rattle.wesl_mangle.specs.Writes.{HasRoom, Answered};

use crate::fault::MangleFault;
use crate::write::NameText;
use wesl_path::words::{is_parting, word_end};
use wesl_path::{ModulePath, PlainName};

/// A name is what leads it, the words of the path, each with what ends it, and the item's name, written as a word.
pub(crate) trait Wording {
    /// what leads the words
    ghost lead: { Origin → List ℕ };

    /// the words of a path that are written
    ghost words_of: { Path → List (List ℕ) };

    /// a word as it is written
    ghost written: { List ℕ → List ℕ };

    /// what ends a word before the next
    ghost end: { List ℕ };

    /// the whole name
    ghost whole: { Mangling };

    /// the declaration that a name stands for
    ghost back: { List ℕ → Item };

    /// Writes what leads the words, and answers the text whose words are written. One function, as both ask for the path's
    /// origin, which is read from its bytes.
    fn push_lead<'p>(name: &mut NameText, path: &'p ModulePath) -> &'p [u8]
        requires { HasRoom name.old (lead (path_value path.now).origin) }
        ensures leads { name.new ≡ name.old ++ lead (path_value path.now).origin }
        ensures text { words result.now ≡ words_of (path_value path.now) };

    /// Writes a word.
    fn push_word(name: &mut NameText, word: &[u8])
        requires { HasRoom name.old (written word.now) }
        ensures { name.new ≡ name.old ++ written word.now };

    /// What ends a word before the next.
    fn ending() -> &'static [u8]
        ensures { result.now ≡ end };

    // a name is its words
    ghost in_words: { (p : Path) (i : List ℕ) → whole p i ≡ lead p.origin ++ (flat_map (λ w. written w ++ end) (words_of p) ++ written i) };

    // a name tells its declaration
    ghost goes_back: { GoesBack whole back };

    // a name is 1 to 1,024 letters, digits and underscores, no digit first
    ghost named: { Named whole };
}

/// Where the first word of a text begins.
fn word_start(text: &[u8]) -> Option<usize>
    ensures { result ≡ position (λ b. not (parts_words b)) text.now }
{
    text.iter().position(|b| !is_parting(*b))
}

/// The first word of a text, and what follows it.
fn next_word(text: &[u8]) -> Option<(&[u8], &[u8])>
    ensures first { MatchOption result (words text.now ≡ []) (λ x. words text.now ≡ x.0.now ∷ words x.1.now) }
    ensures shorter { IfSome result (λ x. length x.1.now < length text.now) }
{
    let start = word_start(text)?;
    let word = &text[start..];
    Some(word.split_at(word_end(word, 0)))
}

/// Writes the words of a text.
fn push_words<W: Wording>(name: &mut NameText, text: &[u8])
    requires { HasRoom name.old (flat_map (λ w. W.written w ++ W.end) (words text.now)) }
    ensures { name.new ≡ name.old ++ flat_map (λ w. W.written w ++ W.end) (words text.now) }
{
    let mut rest = text;
    // A `for` over `split` was tried: the check refuses the invariant of such a loop in a generic function.
    while let Some((word, more)) = next_word(rest) {
        W::push_word(name, word);
        name.push(W::ending());
        rest = more;
    }
}

/// Writes an item's name where nothing is written yet.
// In place: to hand a name over by value is to copy all of its 1,024 bytes.
fn write_name<W: Wording>(name: &mut NameText, path: &ModulePath, item: &PlainName)
    requires { name.old ≡ [] }
    ensures { name.new ≡ W.whole (path_value path.now) (name_text item.now) }
{
    let text = W::push_lead(name, path);
    push_words::<W>(name, text);
    W::push_word(name, item.as_bytes());
}

/// Writes an item's name to the caller's buffer, where it fits.
pub(crate) fn give_name<W: Wording>(
    path: &ModulePath,
    item: &PlainName,
    out: &mut [u8],
) -> Result<usize, MangleFault>
    ensures answer { Answered (W.whole (path_value path.now) (name_text item.now)) out.old out.new result }
    ensures back { IfOk result (λ n. W.back (take n out.new) ≡ record { path = path_value path.now; name = name_text item.now }) }
{
    let mut name = NameText::new();
    write_name::<W>(&mut name, path, item);
    name.deliver(out)
}
