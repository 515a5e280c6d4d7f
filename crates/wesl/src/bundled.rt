//! A built-in bundle, for the demo.
use crate::failure::Failure;
use crate::modules::write_modules;
use bstr::ByteSlice;
use std::alloc::Global;
use std::io;
use std::io::Write;
use wesl_path::ModulePath;
use wesl_resolve::{
    Bundle, FaultCell, ResolveFault, Resolver, VirtualModule, VirtualResolver, find_source,
    first_difference,
};

/// The modules of a bridge's strain gauge. `package::cal` occurs twice, as where an old calibration was left in.
const BUNDLE: &[u8] = b"\
M\tpackage::main
I\t0\t-\tpackage::cal\t-\t-
n\t1\t-\t-\tfactor\t-
F\t0\t-\t-\trun\t-
t\t1\t-\t-\tfactor\t-
M\tpackage::cal
D\t0\t-\t-\tfactor\t-
D\t0\t-\t-\tspare\t-
M\tpackage::cal
D\t0\t-\t-\tfactor\t-
";

/// The calibration that the bundle has, and another.
const CALIBRATION: &[u8] = b"D\t0\t-\t-\tfactor\t-\nD\t0\t-\t-\tspare\t-\n";

const RECALIBRATION: &[u8] = b"D\t0\t-\t-\tfactor\t-\n";

/// A module that the bundle has, and one that it has not.
const HELD: &str = "package::cal";

const LACKING: &str = "package::load";

/// Lists the modules of the bundle, and asks it for two.
pub(crate) fn write_bundled<W: Write>(heap: Global, out: &mut W) -> Result<(), Failure> {
    writeln!(out, "Listing the modules of a bundle:")?;
    write_modules(heap, BUNDLE, out)?;

    let bundle = Bundle::read(BUNDLE).map_err(|_| Failure::Example)?;
    writeln!(out)?;
    writeln!(out, "Asking it for the texts of two modules:")?;
    write_asked(&bundle, HELD, out)?;
    write_asked(&bundle, LACKING, out)?;

    writeln!(out)?;
    writeln!(
        out,
        "Holding a calibration in memory, and comparing it with the bundle's:"
    )?;
    write_compared(&bundle, CALIBRATION, out)?;
    write_compared(&bundle, RECALIBRATION, out)
}

fn path_of(text: &str) -> Result<ModulePath, Failure> {
    ModulePath::read(text.as_bytes()).map_err(|_| Failure::Example)
}

/// Whether a text in memory at the path of the calibration is the bundle's.
fn write_compared<W: Write>(bundle: &Bundle<'_>, text: &[u8], out: &mut W) -> Result<(), Failure> {
    let path = path_of(HELD)?;
    let mut cells = [VirtualModule { path, text }];
    let mut memory = VirtualResolver::new(&mut cells);
    memory
        .add_module(&path, text)
        .map_err(|_| Failure::Example)?;
    let bytes = text.len();
    match first_difference(bundle, &memory, &[path]) {
        None => writeln!(out, "  {bytes} bytes: the same")?,
        Some(_) => writeln!(out, "  {bytes} bytes: another text")?,
    }
    Ok(())
}

fn write_asked<R: Resolver, W: Write>(
    resolver: &R,
    asked: &str,
    out: &mut W,
) -> Result<(), Failure> {
    let path = path_of(asked)?;
    let mut cell = FaultCell::new();
    match find_source(resolver, &path, &mut cell) {
        Ok(text) => {
            let bytes = text.len();
            writeln!(out, "  {asked} has {bytes} bytes")?;
        }
        Err(fault) => write_fault(fault, &cell, out)?,
    }
    Ok(())
}

fn write_fault<W: Write>(fault: ResolveFault, cell: &FaultCell, out: &mut W) -> io::Result<()> {
    let number = fault.number();
    match fault {
        ResolveFault::Missing {
            path: Some(place),
            ..
        } => {
            let path = cell.part(place).as_bstr();
            writeln!(out, "  {path}: there is no such module (refusal {number})")
        }
        _ => writeln!(out, "  refusal {number}"),
    }
}
