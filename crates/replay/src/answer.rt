//! The answer to each command: one function each.
use crate::command::Command;
use bstr::ByteSlice;
use std::alloc::{AllocError, Global};
use std::collections::BTreeSet;
use std::io;
use std::io::Write;
use wesl_mangle::{EscapeMangler, LengthMangler, MangledName};
use wesl_path::{ModulePath, PathFault, PathOrigin, PlainName, is_plain};
use wesl_resolve::{Bundle, BundleModule};

pub(crate) fn answer_to<W: Write>(
    heap: Global,
    command: Command<'_>,
    out: &mut W,
) -> io::Result<()> {
    match command {
        Command::Plain(name) => answer_plain(name, out),
        Command::Path(text) => answer_path(text, out),
        Command::Join(base, suffix) => answer_join(base, suffix, out),
        Command::Mangle(path, item) => answer_mangle(path, item, out),
        Command::Bundle(text) => answer_bundle(heap, text, out),
        Command::Unknown => out.write_all(b"unknown\n"),
    }
}

fn answer_plain<W: Write>(name: &[u8], out: &mut W) -> io::Result<()> {
    let answer = if is_plain(name) { "yes" } else { "no" };
    writeln!(out, "plain\t{answer}")
}

fn answer_path<W: Write>(text: &[u8], out: &mut W) -> io::Result<()> {
    match ModulePath::read(text) {
        Ok(path) => {
            let components = path.component_count();
            match path.origin() {
                PathOrigin::Absolute => writeln!(out, "path\tabsolute\t0\t{components}"),
                PathOrigin::Relative(ups) => writeln!(out, "path\trelative\t{ups}\t{components}"),
                PathOrigin::Package(parts) => writeln!(out, "path\tpackage\t{parts}\t{components}"),
            }
        }
        Err(fault) => answer_refused("path", fault.number(), out),
    }
}

fn answer_join<W: Write>(base: &[u8], suffix: &[u8], out: &mut W) -> io::Result<()> {
    match joined(base, suffix) {
        Ok(path) => writeln!(out, "join\tok\t{path}"),
        Err(PathFault::Long) => writeln!(out, "join\tlong"),
        Err(fault) => answer_refused("join", fault.number(), out),
    }
}

fn joined(base: &[u8], suffix: &[u8]) -> Result<ModulePath, PathFault> {
    let base = ModulePath::read(base)?;
    let suffix = ModulePath::read(suffix)?;
    base.join_path(&suffix)
}

fn answer_mangle<W: Write>(path: &[u8], item: &[u8], out: &mut W) -> io::Result<()> {
    match declared(path, item) {
        Ok((path, item)) => {
            let escaped = MangledName::of(&EscapeMangler {}, &path, &item);
            let lengths = MangledName::of(&LengthMangler {}, &path, &item);
            writeln!(out, "mangle\tok\t{escaped}\t{lengths}")
        }
        Err(fault) => answer_refused("mangle", fault.number(), out),
    }
}

/// The module's path and the name that are mangled.
fn declared(path: &[u8], item: &[u8]) -> Result<(ModulePath, PlainName), PathFault> {
    Ok((ModulePath::read(path)?, PlainName::read(item)?))
}

fn answer_bundle<W: Write>(heap: Global, text: &[u8], out: &mut W) -> io::Result<()> {
    match Bundle::read(text) {
        Ok(bundle) => answer_modules(first_modules(heap, &bundle)?.as_slice(), out),
        Err(fault) => {
            let number = fault.number();
            let line = fault.line();
            writeln!(out, "bundle\trefused\t{number}\t{line}")
        }
    }
}

/// The first module at each path, in their order.
fn first_modules<'t>(
    heap: Global,
    bundle: &Bundle<'t>,
) -> Result<Vec<BundleModule<'t>>, AllocError> {
    let mut seen = BTreeSet::new(heap);
    let mut firsts = Vec::new(heap);
    for module in bundle.modules() {
        if seen.insert(module.path)? {
            firsts.push(module)?;
        }
    }
    Ok(firsts)
}

fn answer_modules<W: Write>(modules: &[BundleModule<'_>], out: &mut W) -> io::Result<()> {
    writeln!(out, "bundle\tok\t{}", modules.len())?;
    for module in modules {
        let path = module.path.as_bstr();
        let bytes = module.text.len();
        writeln!(out, "module\t{path}\t{bytes}")?;
    }
    Ok(())
}

fn answer_refused<W: Write>(word: &str, number: u8, out: &mut W) -> io::Result<()> {
    writeln!(out, "{word}\trefused\t{number}")
}
