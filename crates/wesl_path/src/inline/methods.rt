//! Reading bytes held in place, and adding to them.
ghost use Rattle.std.specs.Prelude.{◌≡◌, ◌<◌, [], length, take, MatchResult};
ghost use Rattle.wesl_path.specs.Inline.{held, Extended};

use crate::cells::put;
use crate::inline::{InlineBytes, NoRoom};

impl<const N: usize> InlineBytes<N> {
    /// No bytes.
    pub fn new() -> InlineBytes<N>
        ensures { held result ≡ [] }
    {
        InlineBytes {
            cells: [0; N],
            len: 0,
        }
    }

    /// The front of an array: its first `len` bytes, or all where there are no more. Taken whole, so that bytes which a call wrote
    /// need not be pushed again.
    pub fn front_of(cells: [u8; N], len: usize) -> InlineBytes<N>
        ensures { held result ≡ take len cells.entry }
    {
        InlineBytes {
            cells,
            len: len.min(N),
        }
    }

    /// The bytes that are held.
    pub fn as_slice(&self) -> &[u8]
        ensures { result.now ≡ held self.now }
    {
        &self.cells[..self.len]
    }

    /// Adds bytes at the end, where there is room for them.
    pub fn push(&mut self, bytes: &[u8]) -> Result<(), NoRoom>
        ensures { Extended N bytes.now self.old self.new result }
    {
        if bytes.len() > N - self.len {
            return Err(NoRoom {});
        }
        put(&mut self.cells, self.len, bytes);
        self.len += bytes.len();
        Ok(())
    }
}

/// A copy of bytes, where there is room for them.
impl<const N: usize> TryFrom<&[u8]> for InlineBytes<N> {
    type Error = NoRoom;

    ghost try_from_gives = { λ bytes r. MatchResult r (λ x. held x ≡ bytes.now) (λ _. N < length bytes.now) };

    fn try_from(bytes: &[u8]) -> Result<InlineBytes<N>, NoRoom> {
        let mut held = InlineBytes::new();
        held.push(bytes)?;
        Ok(held)
    }
}
