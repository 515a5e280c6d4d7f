//! Bytes held in place: a buffer of a fixed size with a length, written once for every text of the library.
ghost use Rattle.std.specs.Prelude.{◌≤◌};

pub mod methods;

/// At most `N` bytes, held in the value itself. Those past the length are free.
// A buffer and a length: the library allocates nothing, and names and paths are copied. A `Model`, as the kit's `ArrayString`
// has one, was tried: the check then refuses to copy a struct that holds a path while it is lent.
// The types that hold it are four and not one over what is valid: alike are methods of a line or two, and a trait with laws
// would stand before each of them.
#[derive(Clone, Copy)]
pub struct InlineBytes<const N: usize> {
    cells: [u8; N],
    len: usize,
    ghost within: { len ≤ N },
}

/// There is no room for further bytes.
#[derive(Clone, Copy, Debug, PartialEq, Eq)]
pub struct NoRoom {}
