//! Why a text is no bundle, in words.
use crate::reason;
use crate::shown::Shown;
use std::fmt;
use wesl_resolve::ListingFault;

/// A text that is no bundle, by the line that breaks it. The library's number stands behind the words.
#[derive(Clone, Copy)]
pub struct BrokenLine<'a> {
    pub text: &'a [u8],
    pub fault: ListingFault,
}

/// The line of a number, counted from 1, with the 0x0A that ends it.
fn line_of(text: &[u8], number: usize) -> &[u8] {
    text.split_inclusive(|b| *b == b'\n')
        .nth(number.saturating_sub(1))
        .unwrap_or(&[])
}

impl fmt::Display for BrokenLine<'_> {
    fn fmt<W: fmt::Write>(&self, f: &mut fmt::Formatter<W>) -> fmt::Result {
        let number = self.fault.number();
        let at = self.fault.line();
        let line = line_of(self.text, at);
        write!(f, "line {at}: ")?;
        write_reason(line, f)?;
        write!(f, " (refusal {number})")
    }
}

/// Why a line leads no module, where it should.
fn write_reason<W: fmt::Write>(line: &[u8], f: &mut fmt::Formatter<W>) -> fmt::Result {
    let Some(ended) = line.strip_suffix(b"\n") else {
        let line = Shown(line);
        return write!(
            f,
            "`{line}` is not ended, and a line that leads a module ends with 0x0A"
        );
    };
    let shown = Shown(ended);
    match ended {
        [b'M', b'\t', path @ ..] => match reason::of_path(path) {
            Some(reason) => {
                let path = Shown(path);
                write!(f, "`{path}` is no path: {reason}")
            }
            None => f.write_str("refused"),
        },
        [b'M', ..] => write!(
            f,
            "`{shown}` begins with `M`, and such a line has to be `M`, a tab and a path"
        ),
        [] => f.write_str(
            "an empty line stands before the first line `M`, tab, path, and so in no module",
        ),
        _ => write!(
            f,
            "`{shown}` stands before the first line `M`, tab, path, and so in no module"
        ),
    }
}
