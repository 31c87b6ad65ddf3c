// Why a command, or a reading of bytes, has no answer.
use fh_base::{NoMemory, Rule};
use std::alloc::{AllocError, AllocFailed};

/// Why a store has no change to make.
#[derive(Clone, Copy, Debug, PartialEq, Eq)]
pub enum PlanFault {
    Rule(Rule),
    NoMemory,
}

impl From<NoMemory> for PlanFault {
    ghost use Rattle.std.specs.Prelude.{◌≡◌};
    ghost use Rattle.fh_event.specs.declared.faults.PlanFault.TheVariants.{NoMemory as WithoutMemory};

    ghost from_gives = { λ _ fault. fault ≡ WithoutMemory };

    fn from(_refused: NoMemory) -> PlanFault {
        PlanFault::NoMemory
    }
}

/// Why a step was not made. The world and the history are as before it.
#[derive(Clone, Copy, Debug, PartialEq, Eq)]
pub enum StepFault {
    Rule(Rule),
    NoMemory,
    /// A call on the disk failed.
    DiskFault,
}

impl From<NoMemory> for StepFault {
    ghost use Rattle.std.specs.Prelude.{◌≡◌};
    ghost use Rattle.fh_event.specs.declared.faults.StepFault.TheVariants.{NoMemory as WithoutMemory};

    ghost from_gives = { λ _ fault. fault ≡ WithoutMemory };

    fn from(_refused: NoMemory) -> StepFault {
        StepFault::NoMemory
    }
}

impl From<PlanFault> for StepFault {
    ghost use Rattle.std.specs.Prelude.{◌≡◌};
    ghost use Rattle.fh_event.specs.Faults.{step_fault_of};

    ghost from_gives = { λ planned fault. fault ≡ step_fault_of planned };

    fn from(planned: PlanFault) -> StepFault {
        match planned {
            PlanFault::Rule(rule) => StepFault::Rule(rule),
            PlanFault::NoMemory => StepFault::NoMemory,
        }
    }
}

/// Why bytes are no entry: the first fault from the left. Field 0 is the moment with the kind, and field 1
/// the first field of the command.
#[derive(Clone, Copy, Debug, PartialEq, Eq)]
pub enum EventFault {
    /// No command has this kind.
    BadKind { kind: u8 },
    /// The bytes end inside this field.
    ShortField { field: u8 },
    /// A text of this field has more than 16,777,216 bytes, or its list more than 65,536 items.
    LongField { field: u8 },
    /// A moment is too late, a text is no UTF-8, a byte is none of those that may stand there, or a mask is
    /// empty or has a number outside its field of a schedule.
    BadField { field: u8 },
    /// So many bytes are left behind the last field.
    Trailing { left: u64 },
    NoMemory,
}

impl From<AllocError> for EventFault {
    ghost use Rattle.std.specs.Prelude.{◌≡◌};
    ghost use Rattle.fh_event.specs.declared.faults.EventFault.TheVariants.{NoMemory as WithoutMemory};

    ghost from_gives = { λ _ fault. fault ≡ WithoutMemory };

    fn from(_refused: AllocError) -> EventFault {
        EventFault::NoMemory
    }
}

impl<T: Drop> From<AllocFailed<T>> for EventFault {
    ghost use Rattle.std.specs.Prelude.{◌≡◌};
    ghost use Rattle.fh_event.specs.declared.faults.EventFault.TheVariants.{NoMemory as WithoutMemory};

    ghost from_gives = { λ _ fault. fault ≡ WithoutMemory };

    fn from(_refused: AllocFailed<T>) -> EventFault {
        EventFault::NoMemory
    }
}

impl From<NoMemory> for EventFault {
    ghost use Rattle.std.specs.Prelude.{◌≡◌};
    ghost use Rattle.fh_event.specs.declared.faults.EventFault.TheVariants.{NoMemory as WithoutMemory};

    ghost from_gives = { λ _ fault. fault ≡ WithoutMemory };

    fn from(_refused: NoMemory) -> EventFault {
        EventFault::NoMemory
    }
}
