//! Modules in memory.
ghost use Rattle.std.specs.Prelude.{◌≡◌, [], length};
ghost use Rattle.std.specs.Option.{option_map};
ghost use Rattle.wesl_path.specs.Texts.{path_text};
ghost use Rattle.wesl_table.specs.Tables.{room};
ghost use Rattle.wesl_resolve.specs.Sources.{text_at};
ghost use Rattle.wesl_resolve.specs.Virtual.{held, Added, Remaps};

use crate::fault::ResolveFault;
use crate::resolver::Resolver;
use wesl_path::ModulePath;
use wesl_table::{ByBytes, Keyed, Table};

const MOST_MODULES: usize = 64;

/// A module in memory: its path and its text. What a cell holds before it is lent does not matter.
#[derive(Clone, Copy)]
pub struct VirtualModule<'t> {
    pub path: ModulePath,
    pub text: &'t [u8],
}

impl Keyed for VirtualModule<'_> {
    type By = ByBytes;

    ghost key = { λ m _. path_text m.path };

    fn key_in<'k>(&'k self, _text: &'k [u8]) -> &'k [u8] {
        self.path.as_bytes()
    }
}

/// Up to 64 modules in memory, in cells that the caller lends.
#[derive(Drop)]
pub struct VirtualResolver<'a, 't> {
    modules: Table<'a, VirtualModule<'t>>,
}

impl<'a, 't> VirtualResolver<'a, 't> {
    /// No modules, and room for as many as there are cells, or for 64.
    pub fn new(cells: &'a mut [VirtualModule<'t>]) -> VirtualResolver<'a, 't>
        ensures empty { held result ≡ [] }
        ensures room { room result.modules ≡ length cells.old }
        ensures cells { result.modules.cells.ghost_name ≡ cells.entry.ghost_name }
    {
        VirtualResolver {
            modules: Table::new(cells),
        }
    }

    /// Holds a module's text, in the place of the text that its path had, if it had one.
    pub fn add_module(&mut self, path: &ModulePath, text: &'t [u8]) -> Result<(), ResolveFault>
        ensures added { Added (path_text path.now) text.now self.old.modules self.new.modules result }
        ensures meaning { Remaps (path_text path.now) text.now (text_at (held self.old)) (text_at (held self.new)) result }
    {
        let module = VirtualModule { path: *path, text };
        if let Some(i) = self.modules.find(b"", path.as_bytes()) {
            self.modules.replace(i, module);
            return Ok(());
        }
        if self.modules.len() >= MOST_MODULES {
            return Err(ResolveFault::NoRoom);
        }
        self.modules.push(module)?;
        Ok(())
    }
}

impl Resolver for VirtualResolver<'_, '_> {
    ghost texts = { λ v. text_at (held v) };

    fn resolve_source(&self, path: &ModulePath) -> Option<&[u8]> {
        let i = self.modules.find(b"", path.as_bytes())?;
        Some(self.modules.at(i).text)
    }
}
