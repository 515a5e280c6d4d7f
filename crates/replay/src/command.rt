//! The commands, and how they are read from the input.
ghost use Rattle.std.specs.Prelude.{◌<◌, ◌≤◌, length};
ghost use Rattle.std.specs.Iterator.{at_most};

use bstr::ByteSlice;
use std::str::from_utf8;

/// A command with its arguments, which may hold any byte but 0x0A, so they are no text.
#[derive(Clone, Copy)]
pub enum Command<'a> {
    Plain(&'a [u8]),
    Path(&'a [u8]),
    Join(&'a [u8], &'a [u8]),
    Mangle(&'a [u8], &'a [u8]),
    Bundle(&'a [u8]),
    Unknown,
}

/// The commands of an input. It holds the rest of the input, and no lines cut beforehand, so that a
/// command may take a text that follows its line.
#[derive(Drop)]
pub struct Commands<'a> {
    rest: &'a [u8],
}

impl<'a> Commands<'a> {
    pub(crate) fn of(input: &'a [u8]) -> Commands<'a> {
        Commands { rest: input }
    }
}

impl<'a> Iterator for Commands<'a> {
    type Item = Command<'a>;

    ghost remaining = { λ s. at_most (length s.rest.now) };

    fn next(&mut self) -> Option<Command<'a>> {
        let input = self.rest;
        if input.is_empty() {
            return None;
        }
        // A last line that no 0x0A ends is a line all the same.
        let (line, rest) = cut(input, b'\n');
        let (word, arguments) = cut(line, b'\t');
        let (text, rest) = cut_text(text_size(word, arguments), rest);
        self.rest = rest;
        Some(command_of(word, arguments, text))
    }
}

/// How many bytes of text follow the line: as many as the last field of a command says that takes a text.
fn text_size(word: &[u8], arguments: &[u8]) -> Option<usize> {
    let size = match word {
        b"bundle" => arguments,
        // Not answered yet, and its text is no list of commands.
        b"read" => cut(arguments, b'\t').1,
        _ => return None,
    };
    Some(from_utf8(size).unwrap_or("").parse().unwrap_or(0))
}

/// A text, or as much of it as there is, and what follows it and the 0x0A after it.
fn cut_text(size: Option<usize>, rest: &[u8]) -> (&[u8], &[u8])
    ensures { length result.1.now ≤ length rest.now }
{
    let Some(size) = size else {
        return (&[], rest);
    };
    let end = size.min(rest.len());
    let next = (end + 1).min(rest.len());
    (&rest[..end], &rest[next..])
}

/// The command of a word, of what follows it on its line, and of the text that follows the line. An argument that is not there
/// is an empty one: it is then refused as an empty one would be, and every line has an answer.
fn command_of<'a>(word: &[u8], arguments: &'a [u8], text: &'a [u8]) -> Command<'a> {
    match word {
        b"plain" => Command::Plain(arguments),
        b"path" => Command::Path(arguments),
        b"join" => {
            let (base, suffix) = cut(arguments, b'\t');
            Command::Join(base, suffix)
        }
        b"mangle" => {
            let (path, item) = cut(arguments, b'\t');
            Command::Mangle(path, item)
        }
        b"bundle" => Command::Bundle(text),
        _ => Command::Unknown,
    }
}

/// What stands before the first `mark`, and what after it; all and nothing where there is none.
// By `find_byte`: `split_once_str` makes a searcher anew each time, which costs more than the short lines of commands.
fn cut(bytes: &[u8], mark: u8) -> (&[u8], &[u8])
    ensures { 0 < length bytes.now → length result.1.now < length bytes.now }
{
    match bytes.find_byte(mark) {
        Some(at) => (&bytes[..at], &bytes[at + 1..]),
        None => (bytes, &[]),
    }
}
