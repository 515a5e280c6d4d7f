//! Paths made of paths: appended components, and a path read from a module.
ghost use Rattle.std.specs.Prelude.{◌≡◌, ◌≤◌, true, [], ◌∷◌, ◌++◌, length, take, codes};
ghost use Rattle.wesl_path.specs.Path.{path_of, is_path_text, shown, shown_origin, led, without_last_names, join_path, extended};
ghost use Rattle.wesl_path.specs.Heads.{HeadOf};
ghost use Rattle.wesl_path.specs.Texts.{path_text, path_value, components_value, name_text};
ghost use Rattle.wesl_path.specs.Joins.{Given, Joined, Pushed, read_from};

use crate::components::Components;
use crate::fault::PathFault;
use crate::module_path::ModulePath;
use crate::module_path::methods::written;
use crate::name::PlainName;
use crate::origin::{Head, PathOrigin};
use crate::words::{Step, pass, pass_at_most};

/// How two paths are put together: a front of the one, a slash or nothing, and a back of the other.
#[derive(Clone, Copy)]
struct Seam<'a> {
    front: &'a [u8],
    separator: &'static [u8],
    back: &'a [u8],
}

/// Where a path ends without its last `n` components.
fn without_last(text: &[u8], head: Head, n: usize) -> usize
    requires valid { is_path_text text.now ≡ true }
    requires own { HeadOf text.now head }
    ensures front { take result text.now ≡ shown_origin (path_of text.now).origin ++ led (codes "::") (without_last_names n (path_of text.now).components) }
    ensures within { result ≤ length text.now }
{
    let all = pass(text, head.end, Step::Component).count;
    pass_at_most(text, head.end, Step::Component, all.saturating_sub(n)).end
}

/// A package read from inside another is one part further down.
fn package_seam<'a>(origin: PathOrigin, outer: &'a [u8], inner: &'a [u8]) -> Seam<'a>
    ensures { result.front.now ++ (result.separator.now ++ result.back.now) ≡ read_from origin outer.now inner.now }
{
    match origin {
        PathOrigin::Package(_) => Seam {
            front: outer,
            separator: b"/",
            back: inner,
        },
        PathOrigin::Absolute | PathOrigin::Relative(_) => Seam {
            front: b"",
            separator: b"",
            back: inner,
        },
    }
}

/// Where a module's path and a path read from that module are put together.
fn find_seam<'a>(base: &'a ModulePath, suffix: &'a ModulePath) -> Seam<'a>
    ensures { result.front.now ++ (result.separator.now ++ result.back.now) ≡ shown (join_path (path_value base.now) (path_value suffix.now)) }
{
    let front = base.as_bytes();
    let back = suffix.as_bytes();
    let head = base.head();
    let tail = suffix.head();
    match tail.origin {
        PathOrigin::Absolute => Seam {
            front: &front[..head.end],
            separator: b"",
            back: &back[tail.end..],
        },
        PathOrigin::Relative(n) => Seam {
            front: &front[..without_last(front, head, n)],
            separator: b"",
            back: &back[tail.end..],
        },
        PathOrigin::Package(_) => package_seam(head.origin, &front[..head.end], back),
    }
}

/// The two paths put together, unless the path would pass 255 bytes.
fn sewn(base: &ModulePath, suffix: &ModulePath) -> Result<ModulePath, PathFault>
    ensures { Given (join_path (path_value base.now) (path_value suffix.now)) result }
{
    let seam = find_seam(base, suffix);
    written(seam.front, seam.separator, seam.back)
}

impl ModulePath {
    /// The path with more components, unless it would pass 255 bytes.
    pub fn join(&self, suffix: &Components) -> Result<ModulePath, PathFault>
        ensures { Given (extended (path_value self.now) (components_value suffix.now)) result }
    {
        written(self.as_bytes(), b"::", suffix.as_bytes())
    }

    /// Appends a component, unless the path would pass 255 bytes.
    pub fn push(&mut self, item: &PlainName) -> Result<(), PathFault>
        ensures { Pushed (extended (path_value self.old) (name_text item.now ∷ [])) self.old self.new result }
    {
        *self = written(self.as_bytes(), b"::", item.as_bytes())?;
        Ok(())
    }

    /// The path that `suffix` means in the module of this path, which is not relative.
    pub fn join_path(&self, suffix: &ModulePath) -> Result<ModulePath, PathFault>
        ensures { Joined (path_value self.now) (path_value suffix.now) result }
    {
        match self.origin() {
            PathOrigin::Relative(_) => Err(PathFault::Relative),
            PathOrigin::Absolute | PathOrigin::Package(_) => sewn(self, suffix),
        }
    }
}
