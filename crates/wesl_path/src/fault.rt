//! Why a path or a name is refused.
ghost use Rattle.std.specs.Prelude.{◌≡◌};
ghost use Rattle.wesl_path.specs.Faults.{number_of};
ghost use Rattle.wesl_path.specs.declared.fault.PathFault.TheVariants.{Long};

use crate::inline::NoRoom;

/// Why a path or a name is refused.
#[derive(Clone, Copy, Debug, PartialEq, Eq)]
pub enum PathFault {
    /// the bytes are no path, no name or no components
    Malformed,
    /// the path to join to is relative itself
    Relative,
    /// the path would have more than 255 bytes
    Long,
}

impl PathFault {
    /// The number that users know the refusal by.
    // A method, as two refusals have one number, and the enum's own discriminants may not be equal.
    pub fn number(self) -> u8
        ensures { result ≡ number_of self }
    {
        match self {
            PathFault::Malformed | PathFault::Relative => 8,
            PathFault::Long => 4,
        }
    }
}

impl From<NoRoom> for PathFault {
    ghost from_gives = { λ _ e. e ≡ Long };

    fn from(_: NoRoom) -> Self {
        Self::Long
    }
}
