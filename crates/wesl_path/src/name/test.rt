//! Whether bytes are a plain name.
ghost use Rattle.std.specs.Prelude.{◌≡◌, true, false, MatchResult, Some};
ghost use Rattle.std.specs.List.{list_all};
ghost use Rattle.std.specs.Str.{bytes_eq};
ghost use Rattle.wesl_path.specs.Texts.{name_text};
ghost use Rattle.wesl_path.specs.Name.{word_byte, starts_well_text, reserved, plain};

use crate::fault::PathFault;
use crate::limits::LONGEST_NAME;
use crate::name::PlainName;
use std::fmt;
use std::str::from_utf8;

#[tactic(auto, using(std::proofs::lemmas::Bool::Decides::nat_tests), unfolding(crate::specs::Name::word_byte, crate::specs::Name::letter, crate::specs::Name::digit))]
fn is_word_byte(b: u8) -> bool
    ensures { result ≡ word_byte b }
{
    b.is_ascii_alphanumeric() || b == b'_'
}

/// Whether two texts have the same bytes.
pub fn same_bytes(a: &[u8], b: &[u8]) -> bool
    ensures { result ≡ bytes_eq a.now b.now }
{
    a == b
}

// Not by `matches!`, which was tried: the check then asks of each byte of each word alone, in 28 goals.
#[tactic(auto, unfolding(crate::specs::Name::reserved))]
fn is_reserved(bytes: &[u8]) -> bool
    ensures { result ≡ reserved bytes.now }
{
    same_bytes(bytes, b"package")
        || same_bytes(bytes, b"self")
        || same_bytes(bytes, b"super")
        || same_bytes(bytes, b"import")
}

#[tactic(auto, using(std::proofs::lemmas::Bool::Decides::nat_tests), unfolding(crate::specs::Name::digit))]
fn starts_well(bytes: &[u8]) -> bool
    ensures { result ≡ starts_well_text bytes.now }
{
    matches!(bytes, [first, ..] if !first.is_ascii_digit())
}

fn are_word_bytes(bytes: &[u8]) -> bool
    ensures { result ≡ list_all word_byte bytes.now }
{
    bytes.iter().all(|b| is_word_byte(*b))
}

/// Whether `bytes` are a plain name.
#[tactic(auto, using(crate::proofs::WordFacts::word_bytes_all, std::proofs::lemmas::Bool::Decides::nat_tests), unfolding(crate::specs::Name::plain))]
pub fn is_plain(bytes: &[u8]) -> bool
    ensures { result ≡ plain bytes.now }
{
    starts_well(bytes)
        && bytes.len() <= LONGEST_NAME
        && are_word_bytes(bytes)
        && !is_reserved(bytes)
}

impl PlainName {
    /// Reads a plain name, or refuses bytes that are none.
    // A method and no `TryFrom`, whose clause would be a ghost member, and not stand here.
    #[tactic(auto, using(crate::proofs::WordFacts::plain_short))]
    pub fn read(bytes: &[u8]) -> Result<PlainName, PathFault>
        ensures { MatchResult result (λ n. name_text n ≡ bytes.now) (λ e. (e ≡ PathFault.Malformed) × (plain bytes.now ≡ false)) }
    {
        if !is_plain(bytes) {
            return Err(PathFault::Malformed);
        }
        Ok(PlainName {
            text: bytes.try_into()?,
        })
    }

    /// The name's bytes.
    pub fn as_bytes(&self) -> &[u8]
        ensures value { result.now ≡ name_text self.now }
        ensures valid { plain result.now ≡ true }
    {
        self.text.as_slice()
    }

    /// The name as text.
    #[tactic(auto, using(crate::proofs::AsciiFacts::name_utf8))]
    pub fn as_str(&self) -> &str
        ensures { result.now ≡ name_text self.now }
    {
        from_utf8(self.as_bytes()).unwrap()
    }
}

impl fmt::Display for PlainName {
    ghost output = { λ x. Some (name_text x) };

    fn fmt<W: fmt::Write>(&self, f: &mut fmt::Formatter<W>) -> fmt::Result {
        f.pad(self.as_str())
    }
}
