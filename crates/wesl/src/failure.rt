//! Why the program ends with status 1.
use crate::shown::Shown;
use std::alloc::AllocError;
use std::io;
use thiserror::Error;

const HINT: &str = "`wesl help` shows how it is used";

// An enum, and no `anyhow::Error`: that one keeps 120 bytes of a message, and a word alone may be shown with 255.
#[derive(Debug, Drop, Error)]
pub enum Failure {
    #[error("unknown word: `{word}`", word = Shown(.0.as_bytes()))]
    UnknownWord(String),
    #[error("one word too many: `{word}`; {hint}", word = Shown(.0.as_bytes()), hint = HINT)]
    ExtraWord(String),
    #[error("cannot read the arguments, which are to be UTF-8: {0}; {hint}", hint = HINT)]
    Arguments(io::Error),
    #[error("cannot read `{file}`: {1}; {hint}", file = Shown(.0.as_bytes()), hint = HINT)]
    UnreadableFile(String, io::Error),
    #[error("cannot read standard input: {0}; {hint}", hint = HINT)]
    UnreadableInput(io::Error),
    /// So many lines of a list.
    #[error("lines refused: {0}")]
    Refused(usize),
    #[error("the text is no bundle")]
    NoBundle,
    #[error("a built-in example is refused")]
    Example,
    #[error("cannot go on: {0}")]
    Io(#[from] io::Error),
    #[error("cannot go on: out of memory")]
    Memory(#[from(alloc)] AllocError),
}
