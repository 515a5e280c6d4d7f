//! Where a path starts.
ghost use Rattle.std.specs.Prelude.{◌+◌, MatchOption};
ghost use Rattle.wesl_path.specs.Heads.{Headed, Headless};

use crate::name::test::{is_plain, same_bytes};
use crate::words::{Step, pass, word_end};

/// Where a path starts.
#[derive(Clone, Copy, Debug, PartialEq, Eq)]
pub enum PathOrigin {
    /// `package`: the root of the package that the module is in
    Absolute,
    /// `self`, or so many times `super`
    Relative(usize),
    /// another package, by the number of its parts
    Package(usize),
}

/// The origin of a path, and where its bytes end.
// An end, and no rest: a module's path is cut there from the front, the path read from it from the back.
#[derive(Clone, Copy, Debug, PartialEq, Eq)]
pub struct Head {
    pub origin: PathOrigin,
    pub end: usize,
}

/// Reads the origin at the front of `text`.
pub(crate) fn read_origin(text: &[u8]) -> Option<Head>
    ensures { MatchOption result (Headless text.now) (λ h. Headed text.now h) }
{
    let end = word_end(text, 0);
    let first = &text[..end];
    let (origin, end) = if same_bytes(first, b"package") {
        (PathOrigin::Absolute, end)
    } else if same_bytes(first, b"self") {
        (PathOrigin::Relative(0), end)
    } else if same_bytes(first, b"super") {
        let more = pass(text, end, Step::Super);
        (PathOrigin::Relative(1 + more.count), more.end)
    } else if is_plain(first) {
        let more = pass(text, end, Step::Part);
        (PathOrigin::Package(1 + more.count), more.end)
    } else {
        return None;
    };
    Some(Head { origin, end })
}
