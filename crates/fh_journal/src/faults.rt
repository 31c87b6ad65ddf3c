// Why a journal isn't mounted, and why a payload isn't added.
use fh_base::Failed;
use std::alloc::{AllocError, AllocFailed};

/// Which rule of the format a frame breaks.
#[derive(Clone, Copy, Debug, PartialEq, Eq)]
pub enum FrameRule {
    /// The file ends inside the frame, or before the gate that must follow it.
    Cut,
    /// The length that it gives is greater than 16,777,216.
    Length { given: u32 },
}

/// Why a file isn't mounted as a journal.
#[derive(Clone, Copy, Debug, PartialEq, Eq)]
pub enum MountFault {
    /// The file has more than 7 bytes and doesn't begin with the header.
    BadHeader,
    /// The frame whose gate is at this place is the first that breaks a rule.
    BadFrame { at: u64, rule: FrameRule },
    DiskFault,
    NoMemory,
}

impl From<Failed> for MountFault {
    ghost use Rattle.std.specs.Prelude.{◌≡◌};
    ghost use Rattle.fh_journal.specs.declared.faults.MountFault.TheVariants.{DiskFault};

    ghost from_gives = { λ _ fault. fault ≡ DiskFault };

    fn from(_failed: Failed) -> MountFault {
        MountFault::DiskFault
    }
}

impl From<AllocError> for MountFault {
    ghost use Rattle.std.specs.Prelude.{◌≡◌};
    ghost use Rattle.fh_journal.specs.declared.faults.MountFault.TheVariants.{NoMemory as OfMemory};

    ghost from_gives = { λ _ fault. fault ≡ OfMemory };

    fn from(_refused: AllocError) -> MountFault {
        MountFault::NoMemory
    }
}

impl<T: Drop> From<AllocFailed<T>> for MountFault {
    ghost use Rattle.std.specs.Prelude.{◌≡◌};
    ghost use Rattle.fh_journal.specs.declared.faults.MountFault.TheVariants.{NoMemory as OfMemory};

    ghost from_gives = { λ _ fault. fault ≡ OfMemory };

    fn from(_refused: AllocFailed<T>) -> MountFault {
        MountFault::NoMemory
    }
}

/// Why a payload isn't added, or a journal isn't mended.
#[derive(Clone, Copy, Debug, PartialEq, Eq)]
pub enum AppendFault {
    DiskFault,
}

impl From<Failed> for AppendFault {
    fn from(_failed: Failed) -> AppendFault {
        AppendFault::DiskFault
    }
}
