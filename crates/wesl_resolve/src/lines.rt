//! The lines of a text.
ghost use Rattle.std.specs.Prelude.{length};
ghost use Rattle.std.specs.Iterator.{YieldsFirstBy, at_most};
ghost use Rattle.wesl_resolve.specs.Lines.{lines_left};

/// The lines of a text, each with the 0x0A that ends it. Unlike what `split_inclusive` gives, they show what is left.
#[derive(Drop)]
pub(crate) struct Lines<'t> {
    pub(crate) rest: &'t [u8],
}

impl<'t> Iterator for Lines<'t> {
    type Item = &'t [u8];

    ghost next_gives = { YieldsFirstBy (λ line. line.now) lines_left };

    ghost remaining = { λ s. at_most (length s.rest.now) };

    fn next(&mut self) -> Option<&'t [u8]> {
        let line = self.rest.split_inclusive(|b| *b == b'\n').next()?;
        self.rest = &self.rest[line.len()..];
        Some(line)
    }
}
