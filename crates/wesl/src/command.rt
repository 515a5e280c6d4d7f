//! What the arguments ask for.
use crate::failure::Failure;
use std::env;

#[derive(Drop)]
pub enum Command {
    Demo,
    DemoBundle,
    Help,
    /// Of a file, or of standard input.
    Names(Option<String>),
    /// Likewise.
    Modules(Option<String>),
}

impl Command {
    pub(crate) fn of(rt: &HostRuntime) -> Result<Command, Failure> {
        // Those after the program's own name.
        let mut words = env::args(rt).map_err(Failure::Arguments)?.skip(1);
        let Some(word) = words.next() else {
            return Ok(Command::Demo);
        };
        let command = match word.as_str() {
            "demo" => Command::Demo,
            "demo-bundle" => Command::DemoBundle,
            "help" => Command::Help,
            "names" => Command::Names(words.next()),
            "modules" => Command::Modules(words.next()),
            _ => return Err(Failure::UnknownWord(word)),
        };
        if let Some(extra) = words.next() {
            return Err(Failure::ExtraWord(extra));
        }
        Ok(command)
    }
}
