//! `wesl demo`: names the declarations of a small package and looks for two of one name.
use crate::failure::Failure;
use crate::naming::Declaration;
use std::alloc::{AllocError, Global};
use std::io;
use std::io::Write;
use wesl_mangle::{EscapeMangler, LengthMangler};

/// The package of a bridge's sensors, and what it uses of the package `sensors`. The last six are
/// three pairs that joining their words with `_` would give one name each.
const EXAMPLE: [&str; 8] = [
    "package::cal\tfactor",
    "package::cal\twindow",
    "package::strain::gauge_a\tmy_max",
    "package::strain::gauge\ta_my_max",
    "package::deck_load\tlimit",
    "package::deck\tload_limit",
    "sensors/filters\twindow",
    "sensors::filters\twindow",
];

/// A declaration with its three names.
#[derive(Drop)]
struct Row {
    declaration: String,
    joined: String,
    escaped: String,
    lengths: String,
}

impl Row {
    fn of(heap: Global, declaration: &Declaration) -> Result<Row, AllocError> {
        let words = declaration.to_string(heap)?;
        Ok(Row {
            joined: joined(heap, words.as_str())?,
            declaration: words,
            escaped: declaration.named(&EscapeMangler {}).to_string(heap)?,
            lengths: declaration.named(&LengthMangler {}).to_string(heap)?,
        })
    }
}

/// The words joined with `_`, and nothing to tell where one ends: what the Manglers are there to avoid.
fn joined(heap: Global, words: &str) -> Result<String, AllocError> {
    let words = words.replace(heap, "::", "_")?;
    words.as_str().replace(heap, ['/', ' '], "_")
}

pub(crate) fn write_demo<W: Write>(heap: Global, out: &mut W) -> Result<(), Failure> {
    let count = EXAMPLE.len();
    writeln!(
        out,
        "Reading the {count} declarations of a bridge's sensor package, line by line:"
    )?;
    let rows = read_example(heap, out)?;
    let rows = rows.as_slice();

    writeln!(out)?;
    writeln!(
        out,
        "Naming each by the escape Mangler and by the length Mangler:"
    )?;
    write_table(rows, out)?;

    writeln!(out)?;
    writeln!(
        out,
        "Comparing every two names, had the words only been joined with `_`:"
    )?;
    write_collisions(rows, |row| row.joined.as_str(), out)?;
    writeln!(out, "Comparing every two names of the escape Mangler:")?;
    write_collisions(rows, |row| row.escaped.as_str(), out)?;
    writeln!(out, "Comparing every two names of the length Mangler:")?;
    write_collisions(rows, |row| row.lengths.as_str(), out)?;
    Ok(())
}

fn read_example<W: Write>(heap: Global, out: &mut W) -> Result<Vec<Row>, Failure> {
    let mut rows = Vec::new(heap);
    for line in EXAMPLE {
        match Declaration::read(line.as_bytes()) {
            Ok(declaration) => {
                writeln!(out, "  read {declaration}")?;
                rows.push(Row::of(heap, &declaration)?)?;
            }
            Err(refusal) => writeln!(out, "  refused {refusal}")?,
        }
    }
    Ok(rows)
}

fn write_table<W: Write>(rows: &[Row], out: &mut W) -> io::Result<()> {
    write_columns("declaration", "escape Mangler", "length Mangler", out)?;
    for row in rows {
        write_columns(
            row.declaration.as_str(),
            row.escaped.as_str(),
            row.lengths.as_str(),
            out,
        )?;
    }
    Ok(())
}

fn write_columns<W: Write>(first: &str, second: &str, third: &str, out: &mut W) -> io::Result<()> {
    writeln!(out, "  {first:<33}{second:<35}{third}")
}

/// Which two rows have one name, where `name` names a row. Each two are compared once, and nothing is kept of them.
fn write_collisions<F: Fn(&Row) -> &str, W: Write>(
    rows: &[Row],
    name: F,
    out: &mut W,
) -> io::Result<()>
    requires { F.IsAlwaysCallable name }
{
    let mut compared: usize = 0;
    let mut equal: usize = 0;
    for (i, row) in rows.iter().enumerate() {
        let others = &rows[..i];
        compared = compared.saturating_add(others.len());
        equal = equal.saturating_add(write_equal(others, row, &name, out)?);
    }
    match equal {
        0 => writeln!(out, "  {compared} pairs compared: none share a name"),
        _ => writeln!(out, "  {compared} pairs compared: {equal} share a name"),
    }
}

/// Tells which of the other rows have the name of a row, and answers how many they are.
fn write_equal<F: Fn(&Row) -> &str, W: Write>(
    others: &[Row],
    row: &Row,
    name: &F,
    out: &mut W,
) -> io::Result<usize>
    requires { F.IsAlwaysCallable name.now }
{
    let mut equal: usize = 0;
    for other in others.iter().filter(|other| name(other) == name(row)) {
        let first = other.declaration.as_str();
        let second = row.declaration.as_str();
        let name = name(row);
        writeln!(out, "  {first} and {second} share the name {name}")?;
        equal = equal.saturating_add(1);
    }
    Ok(equal)
}
