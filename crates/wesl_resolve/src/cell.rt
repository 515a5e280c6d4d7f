//! The bytes of a fault.
ghost use Rattle.std.specs.Prelude.{◌≡◌, replicate};
ghost use Rattle.wesl_path.specs.Texts.{path_text};
ghost use Rattle.wesl_table.specs.Places.{part};
ghost use Rattle.wesl_resolve.specs.Cells.{Missed};

use crate::fault::ResolveFault;
use wesl_path::cells::put;
use wesl_path::{LONGEST_PATH, ModulePath};
use wesl_table::Place;

const CELL_SIZE: usize = 2558;

const PATH_START: usize = LONGEST_PATH;

/// The cell that the bytes of a fault lie in, lent to each call that may refuse: the path of a module in the first 255,
/// a path that was not found in the next 255, and two names in 1,024 each. The library allocates nothing, and callers
/// read these places, so it is one array.
#[derive(Clone, Copy)]
pub struct FaultCell {
    bytes: [u8; CELL_SIZE],
}

impl FaultCell {
    /// A cell without bytes of a fault.
    pub fn new() -> FaultCell
        ensures { result.bytes ≡ replicate 2558 0 }
    {
        FaultCell {
            bytes: [0; CELL_SIZE],
        }
    }

    /// The bytes at a place that a fault names.
    pub fn part(&self, place: Place) -> &[u8]
        ensures { result.now ≡ part place self.now.bytes }
    {
        place.of(&self.bytes)
    }

    /// The fault that there is no module at a path, where no module holds the reference to it. The path's bytes lie in
    /// the cell then.
    pub fn not_found(&mut self, path: &ModulePath) -> ResolveFault
        ensures { Missed (path_text path.now) self.old self.new result }
    {
        let bytes = path.as_bytes();
        put(&mut self.bytes, PATH_START, bytes);
        let path = Some(Place {
            start: PATH_START,
            len: bytes.len(),
        });
        ResolveFault::Missing { module: None, path }
    }
}
