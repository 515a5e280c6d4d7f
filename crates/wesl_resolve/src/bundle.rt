//! Bundles: one text with the texts of several modules.
ghost use Rattle.std.specs.Prelude.{◌≡◌, ◌-◌, ◌≤◌, length, Decides, MatchOption};
ghost use Rattle.std.specs.Option.{option_map};
ghost use Rattle.wesl_path.specs.Path.{IsPath};
ghost use Rattle.wesl_path.specs.Texts.{path_text};
ghost use Rattle.wesl_resolve.specs.Sources.{text_at};
ghost use Rattle.wesl_resolve.specs.Bundles.{lead, Leads, modules, Strays, IsBody, Unbroken, BrokenAt, Made, Advances};
ghost use Rattle.std.specs.Iterator.{at_most};

use crate::fault::ListingFault;
use crate::lines::Lines;
use crate::resolver::Resolver;
use wesl_path::{ModulePath, is_path};

/// One text in which a line `M`, tab, path leads each module.
#[derive(Clone, Copy)]
pub struct Bundle<'t> {
    text: &'t [u8],
}

/// A module of a bundle: its path, its text, and where the next module is sought.
#[derive(Clone, Copy)]
pub struct BundleModule<'t> {
    pub path: &'t [u8],
    pub text: &'t [u8],
    pub end: usize,
}

/// The modules of a bundle that are yet to come, from a place in its text on. Callers know the place, as a module's `end`,
/// so it is kept, and not what is left of the text.
#[derive(Drop)]
pub struct Modules<'t> {
    text: &'t [u8],
    at: usize,
}

/// The path in a line that leads a module.
fn path_led(line: &[u8]) -> Option<&[u8]>
    ensures { MatchOption result (Leads line.now → ⊥) (λ p. IsPath p.now × (line.now ≡ lead p.now)) }
{
    let path = line.strip_prefix(b"M\t")?.strip_suffix(b"\n")?;
    is_path(path).then_some(path)
}

/// The lines that stand before the next that leads a module.
fn body_of(text: &[u8]) -> &[u8]
    ensures { IsBody text.now result.now }
{
    let mut lines = Lines { rest: text };
    match lines.find(|line| path_led(line).is_some()) {
        Some(line) => &text[..text.len() - lines.rest.len() - line.len()],
        None => text,
    }
}

/// Whether a line begins with `M` and leads no module.
fn is_stray(line: &[u8]) -> bool
    ensures { Decides result (Strays line.now) }
{
    line.starts_with(b"M") && path_led(line).is_none()
}

/// The index of the first line that may not stand where it stands: the first of all is to lead a module, and any other
/// only if it begins with `M`.
fn first_broken(text: &[u8]) -> Option<usize>
    ensures { MatchOption result (Unbroken text.now) (λ i. BrokenAt text.now i) }
{
    let mut lines = Lines { rest: text };
    let first = lines.next()?;
    if path_led(first).is_none() {
        return Some(0);
    }
    lines.position(is_stray).map(|i| i + 1)
}

impl<'t> Bundle<'t> {
    /// Reads a bundle, or refuses a text that is none, at the first line that breaks it. The bundle borrows the text.
    pub fn read(text: &'t [u8]) -> Result<Bundle<'t>, ListingFault>
        ensures { Made text.now result }
    {
        if let Some(i) = first_broken(text) {
            return Err(ListingFault::Broken {
                module: None,
                line: i + 1,
            });
        }
        Ok(Bundle { text })
    }

    /// The text of the first module at a path.
    pub fn source(&self, path: &ModulePath) -> Option<&'t [u8]>
        ensures { option_map (λ x. x.now) result ≡ text_at (modules self.now.text.now) (path_text path.now) }
    {
        self.modules()
            .find(|module| module.path == path.as_bytes())
            .map(|module| module.text)
    }

    /// The modules in their order, those at a path that occurred before too.
    pub fn modules(&self) -> Modules<'t>
        ensures text { result.text ≡ self.now.text }
        ensures start { result.at ≡ 0 }
    {
        Modules {
            text: self.text,
            at: 0,
        }
    }
}

impl Resolver for Bundle<'_> {
    ghost texts = { λ b. text_at (modules b.text.now) };

    // The bundle's own method lends the text for as long as it lives, which the trait's cannot promise.
    fn resolve_source(&self, path: &ModulePath) -> Option<&[u8]> {
        self.source(path)
    }
}

impl<'t> Iterator for Modules<'t> {
    type Item = BundleModule<'t>;

    ghost next_gives = { λ s r t. Advances s r t };

    ghost remaining = { λ s. at_most (length s.text.now - s.at) };

    fn next(&mut self) -> Option<BundleModule<'t>> {
        let mut lines = Lines {
            rest: self.text.get(self.at..)?,
        };
        let path = lines.find_map(path_led)?;
        let text = body_of(lines.rest);
        let end = self.text.len() - lines.rest.len() + text.len();
        self.at = end;
        Some(BundleModule { path, text, end })
    }
}
