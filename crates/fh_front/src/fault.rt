// Why a request is no command.
use fh_base::NoMemory;
use std::alloc::AllocError;

/// Why a request is no command, or why it can't be had. The first in this order is told.
#[derive(Clone, Copy, Debug, PartialEq, Eq)]
pub enum FrontFault {
    /// No row of the table has the path.
    NoRoute,
    /// No row with the path has the method.
    BadMethod,
    /// A number is missing that has no default, or isn't 1 to 15 digits.
    BadQuery,
    /// The body or a text of the path isn't UTF-8.
    BadBody,
    NoMemory,
}

impl From<NoMemory> for FrontFault {
    ghost use Rattle.std.specs.Prelude.{◌≡◌};
    ghost use Rattle.fh_front.specs.declared.fault.FrontFault.TheVariants.{NoMemory as WithoutMemory};

    ghost from_gives = { λ _ fault. fault ≡ WithoutMemory };

    fn from(_refused: NoMemory) -> FrontFault {
        FrontFault::NoMemory
    }
}

impl From<AllocError> for FrontFault {
    ghost use Rattle.std.specs.Prelude.{◌≡◌};
    ghost use Rattle.fh_front.specs.declared.fault.FrontFault.TheVariants.{NoMemory as WithoutMemory};

    ghost from_gives = { λ _ fault. fault ≡ WithoutMemory };

    fn from(_refused: AllocError) -> FrontFault {
        FrontFault::NoMemory
    }
}
