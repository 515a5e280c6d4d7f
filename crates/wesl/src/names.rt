//! `wesl names`: names the declarations of a list.
use crate::failure::Failure;
use crate::naming::Declaration;
use std::io;
use std::io::Write;
use wesl_mangle::{EscapeMangler, LengthMangler};

/// Writes both names of each declaration, or why its line is refused. Lines that are refused keep no
/// other from its names, and the failure comes after all of them.
pub(crate) fn write_names<W: Write>(list: &[u8], out: &mut W) -> Result<(), Failure> {
    // Counted saturating: with `+= 1` it stayed open that the sums fit, and the check refuses any invariant over this iterator.
    let mut named: usize = 0;
    let mut refused: usize = 0;
    for (i, line) in list.split_inclusive(|b| *b == b'\n').enumerate() {
        match Declaration::read(line.strip_suffix(b"\n").unwrap_or(line)) {
            Ok(declaration) => {
                write_named(&declaration, out)?;
                named = named.saturating_add(1);
            }
            Err(refusal) => {
                let number = i + 1;
                writeln!(out, "line {number}: {refusal}")?;
                refused = refused.saturating_add(1);
            }
        }
    }
    writeln!(out, "{named} named, {refused} refused")?;
    if refused > 0 {
        return Err(Failure::Refused(refused));
    }
    Ok(())
}

fn write_named<W: Write>(declaration: &Declaration, out: &mut W) -> io::Result<()> {
    let Declaration { path, item } = declaration;
    let escaped = declaration.named(&EscapeMangler {});
    let lengths = declaration.named(&LengthMangler {});
    writeln!(out, "{path}\t{item}\t{escaped}\t{lengths}")
}

#[cfg(test)]
mod tests {
    use super::*;
    use bstr::ByteSlice;
    use std::test::Fail;

    const LIST: &[u8] = b"package::cal\tfactor\nsensors/filters\tmy_max\n";

    const NAMED: &str = "\
package::cal\tfactor\tpackage_cal_factor\tp3_cal6_factor
sensors/filters\tmy_max\timport_2_sensors_filters__1my_max\tk2_7_sensors7_filters6_my_max
2 named, 0 refused
";

    #[test]
    fn names_each_line_of_a_list(rt: HostRuntime) -> Result<(), Fail> {
        let mut out = Vec::new(rt.alloc());
        write_names(LIST, &mut out).map_err(|failure| Fail::new(failure))?;
        assert_eq!(rt; out.as_slice().as_bstr(), NAMED.as_bytes().as_bstr());
        Ok(())
    }
}
