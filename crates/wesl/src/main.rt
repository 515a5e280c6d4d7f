//! `wesl`: names the declarations of shader modules, and lists the modules of a bundle.
#![tactic(auto)]

mod broken;
mod bundled;
mod command;
mod demo;
mod failure;
mod modules;
mod names;
mod naming;
mod reason;
mod shown;

use bundled::write_bundled;
use command::Command;
use demo::write_demo;
use failure::Failure;
use modules::write_modules;
use names::write_names;
use std::io::{BufWriter, Read, Write};
use std::process::ExitCode;
use std::{fs, io};

const USAGE: &str = "\
usage:
  wesl demo             name the declarations of a built-in example; also with no word at all
  wesl demo-bundle      list the modules of a built-in bundle, and ask it for some
  wesl names [FILE]     name each declaration of a list, which is FILE or else standard input.
                        A line is `PATH tab NAME`; it is written with two more fields, what the
                        declaration is called by the escape Mangler and by the length Mangler, or
                        else with why it is refused, and then the status is 1
  wesl modules [FILE]   list the modules of a bundle, which is FILE or else standard input, in
                        their order: path, lines, bytes, and whether the path occurred before.
                        In a bundle a line `M`, tab, path leads each module. Of a text that is
                        none the line that breaks it is told, and then the status is 1
  wesl help             show this
";

fn main(rt: HostRuntime) -> ExitCode {
    match run(&rt) {
        Ok(()) => ExitCode::SUCCESS,
        Err(failure) => {
            // Where standard error cannot be written either, the status still tells.
            let _ = eprintln!(rt; "wesl: {failure}");
            if let Failure::UnknownWord(_) = failure {
                let _ = eprint!(rt; "{USAGE}");
            }
            ExitCode::FAILURE
        }
    }
}

fn run(rt: &HostRuntime) -> Result<(), Failure> {
    let mut out = BufWriter::new(rt.alloc(), rt.stdout())?;
    let result = match Command::of(rt)? {
        Command::Demo => write_demo(rt.alloc(), &mut out),
        Command::DemoBundle => write_bundled(rt.alloc(), &mut out),
        Command::Help => out.write_all(USAGE.as_bytes()).map_err(Failure::Io),
        Command::Names(file) => {
            let list = read_list(rt, file)?;
            write_names(list.as_slice(), &mut out)
        }
        Command::Modules(file) => {
            let bundle = read_list(rt, file)?;
            write_modules(rt.alloc(), bundle.as_slice(), &mut out)
        }
    };
    out.flush()?;
    result
}

fn read_list(rt: &HostRuntime, file: Option<String>) -> Result<Vec<u8>, Failure> {
    match file {
        Some(file) => {
            fs::read(rt, file.as_str()).map_err(|error| Failure::UnreadableFile(file, error))
        }
        None => read_stdin(rt).map_err(Failure::UnreadableInput),
    }
}

fn read_stdin(rt: &HostRuntime) -> io::Result<Vec<u8>> {
    let mut bytes = Vec::new(rt.alloc());
    rt.stdin().read_to_end(&mut bytes)?;
    Ok(bytes)
}
