// Why the words of a line ask for nothing, why a line isn't read, and why one has no answer.
use fh_base::NoMemory;
use std::alloc::AllocError;

/// Why the words of a line ask for nothing.
#[derive(Clone, Copy, Debug, PartialEq, Eq)]
pub enum WordFault {
    /// The line isn't UTF-8, or a word for a text or a name isn't once its escapes are replaced.
    BadText,
    /// No command begins with this word.
    BadWord,
    /// The command has another number of words.
    BadCount,
    /// A word for a number is none.
    BadNumber,
    /// A word for a schedule is none.
    BadSchedule,
    NoMemory,
}

impl From<AllocError> for WordFault {
    ghost use Rattle.std.specs.Prelude.{◌≡◌};
    ghost use Rattle.fh_script.specs.declared.faults.WordFault.TheVariants.{NoMemory as WithoutMemory};

    ghost from_gives = { λ _ fault. fault ≡ WithoutMemory };

    fn from(_refused: AllocError) -> WordFault {
        WordFault::NoMemory
    }
}

impl From<NoMemory> for WordFault {
    ghost use Rattle.std.specs.Prelude.{◌≡◌};
    ghost use Rattle.fh_script.specs.declared.faults.WordFault.TheVariants.{NoMemory as WithoutMemory};

    ghost from_gives = { λ _ fault. fault ≡ WithoutMemory };

    fn from(_refused: NoMemory) -> WordFault {
        WordFault::NoMemory
    }
}

/// Why no line is read.
#[derive(Clone, Copy, Debug, PartialEq, Eq)]
pub(crate) enum LineFault {
    ReadFault,
    /// The line has more than 140,000 bytes before its line feed.
    TooLong,
    NoMemory,
}

/// Why a line has no answer.
#[derive(Clone, Copy, Debug, PartialEq, Eq)]
pub(crate) enum AnswerFault {
    DiskFault,
    NoMemory,
}

impl From<AllocError> for AnswerFault {
    ghost use Rattle.std.specs.Prelude.{◌≡◌};
    ghost use Rattle.fh_script.specs.declared.faults.AnswerFault.TheVariants.{NoMemory as WithoutMemory};

    ghost from_gives = { λ _ fault. fault ≡ WithoutMemory };

    fn from(_refused: AllocError) -> AnswerFault {
        AnswerFault::NoMemory
    }
}

impl From<NoMemory> for AnswerFault {
    ghost use Rattle.std.specs.Prelude.{◌≡◌};
    ghost use Rattle.fh_script.specs.declared.faults.AnswerFault.TheVariants.{NoMemory as WithoutMemory};

    ghost from_gives = { λ _ fault. fault ≡ WithoutMemory };

    fn from(_refused: NoMemory) -> AnswerFault {
        AnswerFault::NoMemory
    }
}
