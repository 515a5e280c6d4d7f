//! Why a record is not added.
ghost use Rattle.std.specs.Prelude.{◌≡◌};
ghost use Rattle.wesl_table.specs.Faults.{number_of};

/// Why a record is not added.
#[derive(Clone, Copy, Debug, PartialEq, Eq)]
pub enum TableFault {
    /// every cell of the table is taken
    Full,
}

impl TableFault {
    /// The number that users know the refusal by.
    // A method, as for the refusals with contents, whose enums can have no numbers of their own.
    pub fn number(self) -> u8
        ensures { result ≡ number_of self }
    {
        match self {
            TableFault::Full => 14,
        }
    }
}
