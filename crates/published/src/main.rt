//! Runs the examples that were published with the escape Mangler, and some of paths that are put together. What is right
//! stands in the file `stdout`, taken from those examples and not from a run.
#![tactic(auto)]

use std::io::{BufWriter, Write};
use std::{fmt, io};
use wesl_mangle::{EscapeMangler, MangledName};
use wesl_path::{Components, ModulePath, PathFault, PlainName};

/// The paths of the test in mangle.rs, each with the item `item`.
const PUBLISHED: [&str; 8] = [
    "package::bevy_pbr::lighting",
    "a_b::c_d::e",
    "self::a",
    "super::super",
    "package::_a_b__c___",
    "bevy/pbr",
    "bevy/pbr::lighting",
    "bevy_pbr::lighting",
];

/// A path, and what is appended to it.
const APPENDED: [(&str, &str); 4] = [
    ("package", "cal"),
    ("super", "strain::gauge_a"),
    ("sensors/filters", "window"),
    ("package::a", "9"),
];

/// A module's path, and a path that stands in it.
const READ_FROM: [(&str, &str); 6] = [
    ("package::a::b", "super::c"),
    ("p::a", "q::x"),
    ("package::a", "super::super::super::x"),
    ("p/q::a", "package::z"),
    ("package", "q/r::x"),
    ("self::a", "super"),
];

fn main(rt: HostRuntime) -> io::Result<()> {
    let mut out = BufWriter::new(rt.alloc(), rt.stdout())?;
    for path in PUBLISHED {
        write!(out, "{path}::item -> ")?;
        write_answer(named(path), &mut out)?;
    }
    write_results(&APPENDED, "+", appended, &mut out)?;
    write_results(&APPENDED, "push", pushed, &mut out)?;
    write_results(&READ_FROM, "reads", read_from, &mut out)?;
    out.flush()
}

fn named(path: &str) -> Result<MangledName, PathFault> {
    let path = ModulePath::read(path.as_bytes())?;
    let item = PlainName::read(b"item")?;
    Ok(MangledName::of(&EscapeMangler {}, &path, &item))
}

fn appended(path: &str, components: &str) -> Result<ModulePath, PathFault> {
    let path = ModulePath::read(path.as_bytes())?;
    path.join(&Components::read(components.as_bytes())?)
}

fn pushed(path: &str, item: &str) -> Result<ModulePath, PathFault> {
    let mut path = ModulePath::read(path.as_bytes())?;
    path.push(&PlainName::read(item.as_bytes())?)?;
    Ok(path)
}

fn read_from(path: &str, suffix: &str) -> Result<ModulePath, PathFault> {
    let path = ModulePath::read(path.as_bytes())?;
    path.join_path(&ModulePath::read(suffix.as_bytes())?)
}

/// What each path becomes with its text, by `put`.
fn write_results<F: Fn(&str, &str) -> Result<ModulePath, PathFault>, W: Write>(
    pairs: &[(&str, &str)],
    how: &str,
    put: F,
    out: &mut W,
) -> io::Result<()>
    requires { F.IsAlwaysCallable put }
{
    for (path, text) in pairs {
        write!(out, "{path} {how} {text} = ")?;
        write_answer(put(path, text), out)?;
    }
    Ok(())
}

fn write_answer<T: fmt::Display + Drop, W: Write>(
    answer: Result<T, PathFault>,
    out: &mut W,
) -> io::Result<()> {
    match answer {
        Ok(text) => writeln!(out, "{text}"),
        Err(fault) => {
            let number = fault.number();
            writeln!(out, "refused {number}")
        }
    }
}
