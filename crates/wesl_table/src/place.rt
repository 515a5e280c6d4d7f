//! A place in a text, which stands for the bytes there.
ghost use Rattle.std.specs.Prelude.{◌≡◌};
ghost use Rattle.wesl_table.specs.Places.{part};

use crate::keyed::{ByBytes, Keyed};

/// Where bytes lie in a text: a start and a length.
// And no slice: the records that hold places are kept in lent cells, and their text is lent anew at each call.
#[derive(Clone, Copy, Debug, PartialEq, Eq)]
pub struct Place {
    pub start: usize,
    pub len: usize,
}

impl Place {
    /// The bytes at the place, or as many of them as the text has there.
    #[tactic(auto, unfolding(crate::specs::Places::part))]
    pub fn of(self, text: &[u8]) -> &[u8]
        ensures { result.now ≡ part self text.now }
    {
        let rest = &text[self.start.min(text.len())..];
        &rest[..self.len.min(rest.len())]
    }
}

/// A place is a record with the bytes there as its key.
impl Keyed for Place {
    type By = ByBytes;

    ghost key = { part };

    fn key_in<'k>(&'k self, text: &'k [u8]) -> &'k [u8] {
        self.of(text)
    }
}
