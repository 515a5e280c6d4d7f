//! Answers the commands of standard input, a line for each, on standard output.
#![tactic(auto)]

mod answer;
mod command;

use answer::answer_to;
use command::Commands;
use std::io;
use std::io::{BufWriter, Read, Write};

fn main(rt: HostRuntime) -> io::Result<()> {
    let mut input = Vec::new(rt.alloc());
    rt.stdin().read_to_end(&mut input)?;
    let mut out = BufWriter::new(rt.alloc(), rt.stdout())?;
    for command in Commands::of(input.as_slice()) {
        answer_to(rt.alloc(), command, &mut out)?;
    }
    out.flush()
}
