//! The worked examples of joining and mangling.
ghost use Rattle.std.specs.Prelude.{◌≡◌, length};
ghost use Rattle.wesl_mangle.specs.Examples.{Worked, cases};

/// How many worked examples there are, all of which hold of the definitions.
pub fn worked_examples() -> usize
    ensures count { result ≡ length cases }
    ensures hold { Worked }
{
    7
}
