//! What a Resolver is.
ghost use Rattle.std.specs.Prelude.{◌≡◌};
ghost use Rattle.std.specs.Option.{option_map};
ghost use Rattle.wesl_path.specs.Texts.{path_text};
ghost use Rattle.wesl_resolve.specs.Sources.{Texts};

use wesl_path::ModulePath;

/// Where the texts of modules come from.
pub trait Resolver {
    /// the text of the module at each path, or none
    ghost texts: { Self → Texts };

    /// The text of the module at a path, or that there is none.
    fn resolve_source(&self, path: &ModulePath) -> Option<&[u8]>
        ensures { option_map (λ x. x.now) result ≡ texts self.now (path_text path.now) };
}
