//! A declaration, and what the Manglers call it.
ghost use Rattle.std.specs.Prelude.{◌≡◌};
ghost use Rattle.wesl_mangle.specs.Names.{mangled_text};
ghost use Rattle.wesl_path.specs.Texts.{path_value, name_text};

use crate::reason;
use crate::reason::Reason;
use crate::shown::Shown;
use bstr::ByteSlice;
use std::fmt;
use wesl_mangle::{MangledName, Mangler};
use wesl_path::{ModulePath, PathFault, PlainName};

/// The module that it stands in, and its own name.
#[derive(Clone, Copy)]
pub struct Declaration {
    pub path: ModulePath,
    pub item: PlainName,
}

impl Declaration {
    /// Reads `PATH tab NAME`.
    pub(crate) fn read(line: &[u8]) -> Result<Declaration, Refusal<'_>> {
        let (path, item) = line.split_once_str(b"\t").ok_or(Refusal {
            text: line,
            refused: Refused::NoTab,
        })?;
        Ok(Declaration {
            path: ModulePath::read(path).map_err(|fault| Refusal {
                text: path,
                refused: Refused::Path(fault),
            })?,
            item: PlainName::read(item).map_err(|fault| Refusal {
                text: item,
                refused: Refused::Item(fault),
            })?,
        })
    }

    /// The name that a Mangler gives it.
    pub fn named<M: Mangler>(&self, mangler: &M) -> MangledName
        ensures { mangled_text result ≡ M.meaning mangler.now (path_value self.now.path) (name_text self.now.item) }
    {
        MangledName::of(mangler, &self.path, &self.item)
    }
}

impl fmt::Display for Declaration {
    fn fmt<W: fmt::Write>(&self, f: &mut fmt::Formatter<W>) -> fmt::Result {
        let Declaration { path, item } = self;
        write!(f, "{path} {item}")
    }
}

/// A line that names no declaration, by the part of it that is refused.
#[derive(Clone, Copy)]
pub struct Refusal<'a> {
    text: &'a [u8],
    refused: Refused,
}

/// What is refused. The library's number stands behind the words; a line that the library was not asked about has none.
#[derive(Clone, Copy)]
enum Refused {
    NoTab,
    Path(PathFault),
    Item(PathFault),
}

impl fmt::Display for Refusal<'_> {
    fn fmt<W: fmt::Write>(&self, f: &mut fmt::Formatter<W>) -> fmt::Result {
        if !self.text.is_empty() {
            let text = Shown(self.text);
            write!(f, "{text}: ")?;
        }
        match self.refused {
            Refused::NoTab => f.write_str("no tab parts a path from a name"),
            Refused::Path(fault) => write_reason(reason::of_path(self.text), fault, f),
            Refused::Item(fault) => write_reason(reason::of_name(self.text), fault, f),
        }
    }
}

fn write_reason<W: fmt::Write>(
    reason: Option<Reason>,
    fault: PathFault,
    f: &mut fmt::Formatter<W>,
) -> fmt::Result {
    match reason {
        Some(reason) => write!(f, "{reason}")?,
        None => f.write_str("refused")?,
    }
    let number = fault.number();
    write!(f, " (refusal {number})")
}
