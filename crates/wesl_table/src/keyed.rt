//! What a record with a key is, and how keys are compared.
ghost use Rattle.std.specs.Prelude.{◌≡◌, ℕ, Bool, List};
ghost use Rattle.std.specs.Str.{bytes_eq};
ghost use Rattle.wesl_table.specs.Keys.{Equivalence, Exact};
ghost use Rattle.wesl_table.specs.KeyFacts.{bytes_equivalence, bytes_exact};

use wesl_path::same_bytes;

/// A comparison of keys, which are byte strings.
pub trait Comparison {
    /// whether two keys are the same
    ghost same: { List ℕ → List ℕ → Bool };

    /// Whether two keys are the same.
    fn same_key(a: &[u8], b: &[u8]) -> bool
        ensures { result ≡ same a.now b.now };

    // it is an equivalence
    ghost equivalence: { Equivalence same };

    // it takes no two keys for one
    ghost exact: { Exact same };
}

/// A record with a key. The record may have it as a place in a text, so the text is given wherever the key is asked for.
pub trait Keyed {
    /// how the keys are compared
    type By: Comparison;

    /// the key of a record, by the text that it may lie in
    ghost key: { Self → List ℕ → List ℕ };

    /// The record's key.
    fn key_in<'k>(&'k self, text: &'k [u8]) -> &'k [u8]
        ensures { result.now ≡ key self.now text.now };
}

/// Keys are the same where their bytes are.
#[derive(Clone, Copy)]
pub struct ByBytes {}

impl Comparison for ByBytes {
    ghost same = { bytes_eq };

    ghost equivalence = { bytes_equivalence };

    ghost exact = { bytes_exact };

    fn same_key(a: &[u8], b: &[u8]) -> bool {
        same_bytes(a, b)
    }
}
