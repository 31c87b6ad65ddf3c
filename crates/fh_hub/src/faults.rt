// Why a journal isn't mounted.
use fh_base::NoMemory;
use fh_event::{EventFault, PlanFault};
use fh_journal::{FrameRule, MountFault};

/// What is wrong with a frame of a journal.
#[derive(Clone, Copy, Debug, PartialEq, Eq)]
pub enum HubRule {
    Frame(FrameRule),
    /// Its payload is no entry; never for want of memory.
    Event(EventFault),
    /// Its entry isn't recorded behind those before it, or not at its own moment.
    Refused,
}

/// Why a file isn't mounted. Faults of frames are sought over the whole file before those of entries.
#[derive(Clone, Copy, Debug, PartialEq, Eq)]
pub enum HubFault {
    /// The file has more than 7 bytes and doesn't begin with the header.
    BadHeader,
    /// The frame whose gate is at this place is the first that is wrong.
    BadFrame { at: u64, rule: HubRule },
    DiskFault,
    NoMemory,
}

impl From<MountFault> for HubFault {
    ghost use Rattle.std.specs.Prelude.{◌≡◌};
    ghost use Rattle.fh_hub.specs.Mounting.{fault_of_mount};

    ghost from_gives = { λ mounted fault. fault ≡ fault_of_mount mounted };

    fn from(mounted: MountFault) -> HubFault {
        match mounted {
            MountFault::BadHeader => HubFault::BadHeader,
            MountFault::BadFrame { at, rule } => HubFault::BadFrame {
                at,
                rule: HubRule::Frame(rule),
            },
            MountFault::DiskFault => HubFault::DiskFault,
            MountFault::NoMemory => HubFault::NoMemory,
        }
    }
}

/// Why one entry isn't replayed.
#[derive(Clone, Copy, Debug, PartialEq, Eq)]
pub(crate) enum EntryFault {
    Event(EventFault),
    Refused,
    NoMemory,
}

impl From<NoMemory> for EntryFault {
    ghost use Rattle.std.specs.Prelude.{◌≡◌};
    ghost use Rattle.fh_hub.specs.declared.faults.EntryFault.TheVariants.{NoMemory as WithoutMemory};

    ghost from_gives = { λ _ fault. fault ≡ WithoutMemory };

    fn from(_refused: NoMemory) -> EntryFault {
        EntryFault::NoMemory
    }
}

impl From<PlanFault> for EntryFault {
    ghost use Rattle.std.specs.Prelude.{◌≡◌};
    ghost use Rattle.fh_hub.specs.Mounting.{fault_of_plan};

    ghost from_gives = { λ planned fault. fault ≡ fault_of_plan planned };

    fn from(planned: PlanFault) -> EntryFault {
        match planned {
            PlanFault::Rule(_) => EntryFault::Refused,
            PlanFault::NoMemory => EntryFault::NoMemory,
        }
    }
}

impl EntryFault {
    ghost use Rattle.std.specs.Prelude.{◌≡◌};
    ghost use Rattle.fh_hub.specs.Mounting.{fault_of_entry};

    /// The fault of the frame at this place.
    pub(crate) fn at(self, at: u64) -> HubFault
        ensures { result ≡ fault_of_entry at self }
    {
        match self {
            EntryFault::Event(fault) => HubFault::BadFrame {
                at,
                rule: HubRule::Event(fault),
            },
            EntryFault::Refused => HubFault::BadFrame {
                at,
                rule: HubRule::Refused,
            },
            EntryFault::NoMemory => HubFault::NoMemory,
        }
    }
}
