//! Why a module is not found, not held or not read.
ghost use Rattle.std.specs.Prelude.{◌≡◌};
ghost use Rattle.wesl_resolve.specs.Faults.{listing_number, listing_line, resolve_number, resolve_line};
ghost use Rattle.wesl_resolve.specs.declared.fault.ResolveFault.TheVariants.{NoRoom, Listing};

use wesl_table::{Place, TableFault};

/// Why a listing is not read, or a bundle is none. The places are of the bytes in the cell of the call: the path of the
/// module that was read, which a bundle has not, and a name.
#[derive(Clone, Copy, Debug, PartialEq, Eq)]
pub enum ListingFault {
    /// a line breaks the format
    Broken {
        module: Option<Place>,
        line: usize,
    },
    /// a name that the module has already
    Repeated {
        module: Option<Place>,
        line: usize,
        name: Place,
    },
    /// a line is conditional
    Conditional {
        module: Option<Place>,
        line: usize,
    },
}

impl ListingFault {
    /// The number that users know the refusal by.
    // A method: an enum whose cases have contents can have no numbers of its own.
    pub fn number(self) -> u8
        ensures { result ≡ listing_number self }
    {
        match self {
            ListingFault::Broken { .. } => 1,
            ListingFault::Repeated { .. } => 2,
            ListingFault::Conditional { .. } => 3,
        }
    }

    /// The line, counted from 1.
    pub fn line(self) -> usize
        ensures { result ≡ listing_line self }
    {
        match self {
            ListingFault::Broken { line, .. }
            | ListingFault::Repeated { line, .. }
            | ListingFault::Conditional { line, .. } => line,
        }
    }
}

/// Why a module cannot be had. A listing fault lies whole inside it.
#[derive(Clone, Copy, Debug, PartialEq, Eq)]
pub enum ResolveFault {
    /// there is no such module, or its path would pass 255 bytes: the module that holds the reference or the import, but
    /// for the root, and the path, if it is one
    Missing {
        module: Option<Place>,
        path: Option<Place>,
    },
    /// a table is too small
    NoRoom,
    /// the module's listing is not read
    Listing(ListingFault),
}

impl ResolveFault {
    /// The number that users know the refusal by.
    // A method: an enum whose cases have contents can have no numbers of its own.
    pub fn number(self) -> u8
        ensures { result ≡ resolve_number self }
    {
        match self {
            ResolveFault::Missing { .. } => 4,
            ResolveFault::NoRoom => 14,
            ResolveFault::Listing(fault) => fault.number(),
        }
    }

    /// The line, counted from 1, or 0 where no line is meant.
    pub fn line(self) -> usize
        ensures { result ≡ resolve_line self }
    {
        match self {
            ResolveFault::Missing { .. } | ResolveFault::NoRoom => 0,
            ResolveFault::Listing(fault) => fault.line(),
        }
    }
}

impl From<ListingFault> for ResolveFault {
    ghost from_gives = { λ e r. r ≡ Listing e };

    fn from(listing: ListingFault) -> ResolveFault {
        ResolveFault::Listing(listing)
    }
}

impl From<TableFault> for ResolveFault {
    ghost from_gives = { λ e r. r ≡ NoRoom };

    fn from(fault: TableFault) -> ResolveFault {
        match fault {
            TableFault::Full => ResolveFault::NoRoom,
        }
    }
}
