//! Why a name is not written.
ghost use Rattle.std.specs.Prelude.{◌≡◌};
ghost use Rattle.wesl_mangle.specs.Faults.{number_of};

/// Why a name is not written.
#[derive(Clone, Copy, Debug, PartialEq, Eq)]
pub enum MangleFault {
    /// the buffer is too small for the name
    NoRoom,
}

impl MangleFault {
    /// The number that users know the refusal by.
    // A method, as for the refusals with contents, whose enums can have no numbers of their own.
    pub fn number(self) -> u8
        ensures { result ≡ number_of self }
    {
        match self {
            MangleFault::NoRoom => 14,
        }
    }
}
