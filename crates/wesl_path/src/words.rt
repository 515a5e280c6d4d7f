//! The words of a text, parted by `:` and `/`, and those that follow one another, each after its lead.
ghost use Rattle.std.specs.Prelude.{◌≡◌, ℕ, ◌+◌, ◌≤◌, List, ◌++◌, length, drop, MatchOption, ◌≢◌};
ghost use Rattle.std.specs.List.{position};
ghost use Rattle.wesl_path.specs.Path.{parts_words};
ghost use Rattle.wesl_path.specs.Words.{first_word, Boundary, NotLed, LedWord, Passing, lead_of, fitting};

use crate::name::test::{is_plain, same_bytes};

/// A kind of words in a path, with what stands before each.
// An enum and no trait: one value names the lead and the test together, and the definitions match on it too.
#[derive(Clone, Copy)]
pub(crate) enum Step {
    /// `/` and a part of a package's name
    Part,
    /// `::` and `super`
    Super,
    /// `::` and a component
    Component,
}

impl Step {
    fn lead(self) -> &'static [u8]
        ensures { result.now ≡ lead_of self }
    {
        match self {
            Step::Part => b"/",
            Step::Super | Step::Component => b"::",
        }
    }

    fn fits(self, word: &[u8]) -> bool
        ensures { result ≡ fitting self word.now }
    {
        match self {
            Step::Part | Step::Component => is_plain(word),
            Step::Super => same_bytes(word, b"super"),
        }
    }
}

/// How many words were passed, and where the last of them ends.
// An end in the whole text, and no rest: a join cuts the text there, and a rest would have to be measured first.
#[derive(Clone, Copy)]
pub(crate) struct Passed {
    pub count: usize,
    pub end: usize,
}

/// Whether a byte parts words.
pub fn is_parting(b: u8) -> bool
    ensures { result ≡ parts_words b }
{
    b == b':' || b == b'/'
}

/// The first byte that parts words.
fn first_parting(text: &[u8]) -> Option<usize>
    ensures { result ≡ position parts_words text.now }
{
    text.iter().position(|b| is_parting(*b))
}

/// Where the word that begins at `at` ends.
// A place in the whole text, as in `Passed`; so below.
pub fn word_end(text: &[u8], at: usize) -> usize
    ensures value { result ≡ at + length (first_word (drop at text.now)) }
    ensures bound { at ≤ length text.now → result ≤ length text.now }
{
    let Some(rest) = text.get(at..) else {
        return at;
    };
    at + first_parting(rest).unwrap_or(rest.len())
}

/// Where the word ends that stands at `at`, after its lead.
fn led_word(text: &[u8], at: usize, step: Step) -> Option<usize>
    requires { at ≤ length text.now }
    ensures { MatchOption result (NotLed step (drop at text.now)) (λ end. LedWord step text.now at end) }
{
    let rest = text[at..].strip_prefix(step.lead())?;
    let end = word_end(rest, 0);
    step.fits(&rest[..end])
        .then_some(text.len() - rest.len() + end)
}

/// Passes the words of a kind that follow one another from `at` on, or the first `most` of them.
pub(crate) fn pass_at_most(text: &[u8], at: usize, step: Step, most: usize) -> Passed
    requires within { at ≤ length text.now }
    requires edge { Boundary (drop at text.now) }
    ensures { Passing step most text.now at result.count result.end }
{
    let mut end = at;
    for count in 0..most {
        match led_word(text, end, step) {
            Some(next) => end = next,
            None => return Passed { count, end },
        }
    }
    Passed { count: most, end }
}

/// Passes all words of a kind that follow one another from `at` on: there is none more.
pub(crate) fn pass(text: &[u8], at: usize, step: Step) -> Passed
    requires within { at ≤ length text.now }
    requires edge { Boundary (drop at text.now) }
    ensures { Passing step (result.count + 1) text.now at result.count result.end }
{
    pass_at_most(text, at, step, usize::MAX)
}
