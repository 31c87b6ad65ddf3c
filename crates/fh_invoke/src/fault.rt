// Why a reply gives no outputs.
ghost use Rattle.std.specs.Prelude.{◌≡◌};
ghost use Rattle.fh_invoke.specs.declared.fault.AnswerFault.TheVariants.{NoMemory as WantOfMemory};
ghost use Rattle.fh_invoke.specs.declared.fault.OutputFault.TheVariants.{NoMemory as NoOutputMemory};

use fh_base::{NoMemory, Text};
use std::alloc::{AllocError, AllocFailed};

/// Why a reply isn't read as an answer.
#[derive(Clone, Copy, Debug, PartialEq, Eq)]
pub enum AnswerFault {
    /// The status isn't one of success.
    Status { given: u16 },
    /// The body is there, and no JSON text.
    NotJson,
    /// The body is no object, or its `Outputs` are neither an object nor null.
    NotObject,
    NoMemory,
}

impl From<NoMemory> for AnswerFault {
    ghost from_gives = { λ _ e. e ≡ WantOfMemory };

    fn from(_refused: NoMemory) -> AnswerFault {
        AnswerFault::NoMemory
    }
}

impl From<AllocError> for AnswerFault {
    ghost from_gives = { λ _ e. e ≡ WantOfMemory };

    fn from(_refused: AllocError) -> AnswerFault {
        AnswerFault::NoMemory
    }
}

impl<T: Drop> From<AllocFailed<T>> for AnswerFault {
    ghost from_gives = { λ _ e. e ≡ WantOfMemory };

    fn from(_refused: AllocFailed<T>) -> AnswerFault {
        AnswerFault::NoMemory
    }
}

/// Why an answer gives no outputs.
#[derive(Debug, Drop)]
pub enum OutputFault {
    /// The template of the binding with this name doesn't resolve.
    Expression { binding: Text },
    NoMemory,
}

impl From<NoMemory> for OutputFault {
    ghost from_gives = { λ _ e. e ≡ NoOutputMemory };

    fn from(_refused: NoMemory) -> OutputFault {
        OutputFault::NoMemory
    }
}
