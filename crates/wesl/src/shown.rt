//! Bytes of an input, shown so that a terminal takes none of them for a command.
use std::fmt;
use std::fmt::Write;

/// As many bytes are shown: a whole path, and no more of a text that is none.
const LONGEST_SHOWN: usize = 255;

/// Printable ASCII as it is, a backslash doubled, and any other byte as `\xNN`.
#[derive(Clone, Copy)]
pub struct Shown<'a>(pub &'a [u8]);

impl fmt::Display for Shown<'_> {
    fn fmt<W: fmt::Write>(&self, f: &mut fmt::Formatter<W>) -> fmt::Result {
        for b in self.0.iter().take(LONGEST_SHOWN) {
            match *b {
                b'\\' => f.write_str("\\\\")?,
                b' '..=b'~' => f.write_char(char::from(*b))?,
                other => write!(f, "\\x{other:02x}")?,
            }
        }
        if self.0.len() > LONGEST_SHOWN {
            f.write_str("...")?;
        }
        Ok(())
    }
}
