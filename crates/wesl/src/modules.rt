//! `wesl modules`: lists the modules of a bundle.
use crate::broken::BrokenLine;
use crate::failure::Failure;
use bstr::ByteSlice;
use std::alloc::Global;
use std::collections::BTreeSet;
use std::io::Write;
use std::{fmt, io};
use wesl_resolve::{Bundle, BundleModule};

/// Writes the path, the lines and the bytes of each module, or why the text is no bundle.
pub(crate) fn write_modules<W: Write>(
    heap: Global,
    text: &[u8],
    out: &mut W,
) -> Result<(), Failure> {
    match Bundle::read(text) {
        Ok(bundle) => Ok(write_list(heap, &bundle, out)?),
        Err(fault) => {
            let broken = BrokenLine { text, fault };
            writeln!(out, "{broken}")?;
            Err(Failure::NoBundle)
        }
    }
}

fn write_list<W: Write>(heap: Global, bundle: &Bundle<'_>, out: &mut W) -> io::Result<()> {
    let mut paths = BTreeSet::new(heap);
    // Counted as they are listed, and not by going through the bundle once more, which takes as long as listing them.
    let mut again: usize = 0;
    for module in bundle.modules() {
        let mark = if paths.insert(module.path)? {
            ""
        } else {
            again = again.saturating_add(1);
            "\tagain: the first at this path counts"
        };
        write_module(&module, mark, out)?;
    }
    let count = Counted(paths.len().saturating_add(again), "module");
    match again {
        0 => writeln!(out, "{count}"),
        _ => writeln!(out, "{count}, {again} of them again"),
    }
}

fn write_module<W: Write>(module: &BundleModule<'_>, mark: &str, out: &mut W) -> io::Result<()> {
    let path = module.path.as_bstr();
    // A line is what a 0x0A ends.
    let lines = Counted(module.text.iter().filter(|b| **b == b'\n').count(), "line");
    let bytes = Counted(module.text.len(), "byte");
    writeln!(out, "{path}\t{lines}\t{bytes}{mark}")
}

/// So many things of a kind, in words.
#[derive(Clone, Copy)]
struct Counted(usize, &'static str);

impl fmt::Display for Counted {
    fn fmt<W: fmt::Write>(&self, f: &mut fmt::Formatter<W>) -> fmt::Result {
        let Counted(count, noun) = *self;
        let ending = if count == 1 { "" } else { "s" };
        write!(f, "{count} {noun}{ending}")
    }
}
