//! Why a text is no module path, or no name.
ghost use Rattle.std.specs.Prelude.{◌≡◌, not, is_some, Decides};
ghost use Rattle.wesl_path.specs.Name.{plain};
ghost use Rattle.wesl_path.specs.Path.{IsPath};

use crate::shown::Shown;
use std::fmt;
use std::str::from_utf8;
use thiserror::Error;
use wesl_path::{LONGEST_NAME, LONGEST_PATH, is_path, is_plain};

#[derive(Clone, Copy, Debug, Error)]
pub enum Reason {
    #[error("the path is empty")]
    EmptyPath,
    #[error("a path may have at most {most} bytes, and this one has {0}", most = LONGEST_PATH)]
    LongPath(usize),
    #[error("a single colon, where only `::` parts components")]
    SingleColon,
    #[error("{0} {1}")]
    Word(Role, WordFault),
    /// Where no better word is found.
    #[error("this is no path")]
    NoPath,
    #[error("this is no name")]
    NoName,
}

/// What a word was to be.
#[derive(Clone, Copy, Debug)]
pub enum Role {
    Path,
    Part,
    Component,
    Name,
}

#[derive(Clone, Copy, Debug, Error)]
pub enum WordFault {
    #[error("may not be empty")]
    Empty,
    #[error("may not begin with a digit")]
    DigitFirst,
    #[error("may have at most {most} bytes, and this one has {0}", most = LONGEST_NAME)]
    Long(usize),
    #[error("may not hold `{byte}`, which is no letter, digit or underscore", byte = Shown(&[*.0]))]
    Stray(u8),
    #[error("may not be the reserved word `{0}`")]
    Reserved(&'static str),
}

/// The reason why `text` is no path, or `None` where it is one.
pub fn of_path(text: &[u8]) -> Option<Reason>
    ensures { Decides (is_some result) (IsPath text.now → ⊥) }
{
    if is_path(text) {
        return None;
    }
    // The tests look for a text for which no reason is found.
    Some(check_path(text).err().unwrap_or(Reason::NoPath))
}

/// The reason why `text` is no name, or `None` where it is one.
pub fn of_name(text: &[u8]) -> Option<Reason>
    ensures { is_some result ≡ not (plain text.now) }
{
    if is_plain(text) {
        return None;
    }
    Some(check_word(text, Role::Name).err().unwrap_or(Reason::NoName))
}

fn check_path(bytes: &[u8]) -> Result<(), Reason> {
    if bytes.is_empty() {
        return Err(Reason::EmptyPath);
    }
    if bytes.len() > LONGEST_PATH {
        return Err(Reason::LongPath(bytes.len()));
    }
    text_of(bytes)?
        .split("::")
        .try_fold(Place::Origin, Place::pass)?;
    Ok(())
}

/// A path is ASCII, so the byte at which it stops being text is one that may not stand in it.
fn text_of(bytes: &[u8]) -> Result<&str, Reason> {
    from_utf8(bytes).map_err(|fault| {
        let stray = bytes[fault.valid_up_to()];
        Reason::Word(Role::Path, WordFault::Stray(stray))
    })
}

/// What the next segment of a path may be.
#[derive(Clone, Copy)]
enum Place {
    Origin,
    /// After `super`: another one, or the first component.
    Supers,
    Components,
}

impl Place {
    /// Checks the segment that stands here, and answers the place of the next one.
    fn pass(self, segment: &str) -> Result<Place, Reason> {
        // The pairs of colons are cut out, so this one has no partner.
        if segment.contains(':') {
            return Err(Reason::SingleColon);
        }
        match (self, segment) {
            (Place::Origin, "package" | "self") => {}
            (Place::Origin | Place::Supers, "super") => return Ok(Place::Supers),
            (Place::Origin, package) => check_parts(package)?,
            (Place::Supers | Place::Components, component) => {
                check_word(component.as_bytes(), Role::Component)?;
            }
        }
        Ok(Place::Components)
    }
}

fn check_parts(package: &str) -> Result<(), Reason> {
    package
        .split('/')
        .try_for_each(|part| check_word(part.as_bytes(), Role::Part))
}

fn check_word(word: &[u8], role: Role) -> Result<(), Reason> {
    check_bytes(word).map_err(|fault| Reason::Word(role, fault))
}

const RESERVED: [&str; 4] = ["package", "self", "super", "import"];

fn check_bytes(word: &[u8]) -> Result<(), WordFault> {
    if let Some(reserved) = RESERVED.iter().find(|reserved| reserved.as_bytes() == word) {
        return Err(WordFault::Reserved(reserved));
    }
    match word {
        [] => return Err(WordFault::Empty),
        [b'0'..=b'9', ..] => return Err(WordFault::DigitFirst),
        _ => {}
    }
    if let Some(stray) = stray_byte(word) {
        return Err(WordFault::Stray(stray));
    }
    if word.len() > LONGEST_NAME {
        return Err(WordFault::Long(word.len()));
    }
    Ok(())
}

/// The first byte that may not stand in a word.
fn stray_byte(word: &[u8]) -> Option<u8> {
    word.iter()
        .copied()
        .find(|b| !b.is_ascii_alphanumeric() && *b != b'_')
}

impl fmt::Display for Role {
    fn fmt<W: fmt::Write>(&self, f: &mut fmt::Formatter<W>) -> fmt::Result {
        f.write_str(match *self {
            Role::Path => "a path",
            Role::Part => "a part of a package's name",
            Role::Component => "a component",
            Role::Name => "a name",
        })
    }
}

#[cfg(test)]
mod tests {
    use super::*;
    use std::alloc::{AllocError, Global};
    use std::test::Fail;

    const PATHS: [(&[u8], &str); 18] = [
        (b"", "the path is empty"),
        (b"a::::b", "a component may not be empty"),
        (b"a::", "a component may not be empty"),
        (b"::a", "a part of a package's name may not be empty"),
        (b"p//q", "a part of a package's name may not be empty"),
        (b"p/", "a part of a package's name may not be empty"),
        (b"a:b", "a single colon, where only `::` parts components"),
        (b"a:::b", "a single colon, where only `::` parts components"),
        (b"package::9a", "a component may not begin with a digit"),
        (
            b"p/9::a",
            "a part of a package's name may not begin with a digit",
        ),
        (
            b"package::a-b",
            "a component may not hold `-`, which is no letter, digit or underscore",
        ),
        (
            b"package::a/b",
            "a component may not hold `/`, which is no letter, digit or underscore",
        ),
        (
            b"p\r",
            "a part of a package's name may not hold `\\x0d`, which is no letter, digit or underscore",
        ),
        (
            b"a::\xff",
            "a path may not hold `\\xff`, which is no letter, digit or underscore",
        ),
        (
            b"self::super",
            "a component may not be the reserved word `super`",
        ),
        (
            b"super::a::super",
            "a component may not be the reserved word `super`",
        ),
        (
            b"package/a",
            "a part of a package's name may not be the reserved word `package`",
        ),
        (
            b"import",
            "a part of a package's name may not be the reserved word `import`",
        ),
    ];

    #[test]
    fn says_why_a_text_is_no_path(rt: HostRuntime) -> Result<(), Fail> {
        for (text, expected) in PATHS {
            let reason = of_path(text).ok_or(expected)?;
            let found = format!(in rt.alloc(); "{reason}")?;
            assert_eq!(rt; found.as_str(), expected);
        }
        Ok(())
    }

    const NAMES: [(&[u8], &str); 5] = [
        (b"", "a name may not be empty"),
        (b"9", "a name may not begin with a digit"),
        (
            b"a:b",
            "a name may not hold `:`, which is no letter, digit or underscore",
        ),
        (
            b"a\xff",
            "a name may not hold `\\xff`, which is no letter, digit or underscore",
        ),
        (b"self", "a name may not be the reserved word `self`"),
    ];

    #[test]
    fn says_why_a_text_is_no_name(rt: HostRuntime) -> Result<(), Fail> {
        for (text, expected) in NAMES {
            let reason = of_name(text).ok_or(expected)?;
            let found = format!(in rt.alloc(); "{reason}")?;
            assert_eq!(rt; found.as_str(), expected);
        }
        Ok(())
    }

    // Words, separators and what is neither, to be put together in every way.
    const PIECES: [&str; 12] = [
        "", "a", "9", "_", "-", ":", "::", "/", "super", "self", "package", "import",
    ];

    // Five pieces: the digits of `code` in base 12.
    fn spelled(heap: Global, code: usize) -> Result<String, AllocError> {
        let mut text = String::new(heap);
        let mut rest = code;
        for _ in 0..5 {
            text.push_str(PIECES[rest % 12])?;
            rest /= 12;
        }
        Ok(text)
    }

    fn check_agrees(text: &str) -> Result<(), Fail> {
        let bytes = text.as_bytes();
        if check_path(bytes).is_ok() != is_path(bytes) {
            return Err(Fail::new("a reason, and no refusal of a path, or the other way round"));
        }
        if check_word(bytes, Role::Name).is_ok() != is_plain(bytes) {
            return Err(Fail::new("a reason, and no refusal of a name, or the other way round"));
        }
        Ok(())
    }

    #[test]
    fn finds_one_just_where_the_library_refuses(rt: HostRuntime) -> Result<(), Fail> {
        for code in 0..248832 {
            let text = spelled(rt.alloc(), code)?;
            check_agrees(text.as_str())?;
        }
        Ok(())
    }

    // Adds a piece over and over, past the longest path.
    fn check_lengths(heap: Global, start: &str, piece: &str) -> Result<(), Fail> {
        let mut text = String::from_str(heap, start)?;
        for _ in 0..260 {
            check_agrees(text.as_str())?;
            text.push_str(piece)?;
        }
        Ok(())
    }

    #[test]
    fn finds_one_just_where_a_text_is_too_long(rt: HostRuntime) -> Result<(), Fail> {
        check_lengths(rt.alloc(), "", "a")?;
        check_lengths(rt.alloc(), "package::", "a")?;
        // These come to 255 and to 256 bytes.
        check_lengths(rt.alloc(), "abc", "::a")?;
        check_lengths(rt.alloc(), "a", "::a")
    }
}
