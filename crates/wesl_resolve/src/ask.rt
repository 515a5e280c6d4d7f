//! Asking Resolvers, whichever they are.
ghost use Rattle.std.specs.Option.{option_map};
ghost use Rattle.wesl_path.specs.Texts.{path_text};
ghost use Rattle.wesl_resolve.specs.Cells.{Sourced};
ghost use Rattle.wesl_resolve.specs.Asked.{Differs, FoundIn};

use crate::bundle::Bundle;
use crate::cell::FaultCell;
use crate::fault::ResolveFault;
use crate::resolver::Resolver;
use wesl_path::ModulePath;

/// The text that was found at a path, or the fault that there is none.
fn or_not_found<'r>(
    found: Option<&'r [u8]>,
    path: &ModulePath,
    cell: &mut FaultCell,
) -> Result<&'r [u8], ResolveFault>
    ensures { Sourced (λ _. option_map (λ x. x.now) found.entry) (path_text path.now) cell.old cell.new result }
{
    // After `ok_or_else` nothing would be known of a cell that its closure borrows and, not called, leaves as it was.
    match found {
        Some(text) => Ok(text),
        None => Err(cell.not_found(path)),
    }
}

/// The text of a module that is wanted, or the fault that there is none.
pub fn find_source<'r, R: Resolver>(
    resolver: &'r R,
    path: &ModulePath,
    cell: &mut FaultCell,
) -> Result<&'r [u8], ResolveFault>
    ensures { Sourced (R.texts resolver.now) (path_text path.now) cell.old cell.new result }
{
    or_not_found(resolver.resolve_source(path), path, cell)
}

/// The text of a module in the text of a bundle.
pub fn find_in_bundle<'t>(
    text: &'t [u8],
    path: &ModulePath,
    cell: &mut FaultCell,
) -> Result<&'t [u8], ResolveFault>
    ensures { FoundIn text.now (path_text path.now) cell.old cell.new result }
{
    or_not_found(Bundle::read(text)?.source(path), path, cell)
}

/// The index of the first path for which two Resolvers give different answers. Those that agree on the paths asked give
/// the same.
pub fn first_difference<A: Resolver, B: Resolver>(
    a: &A,
    b: &B,
    paths: &[ModulePath],
) -> Option<usize>
    ensures { Differs (A.Resolver.texts a.now) (B.Resolver.texts b.now) paths.now result }
{
    paths
        .iter()
        .position(|path| a.resolve_source(path) != b.resolve_source(path))
}
