// How a run ends at a line that isn't read or answered.
use crate::faults::{AnswerFault, LineFault};
use fh_base::PlainEnd;

impl From<LineFault> for PlainEnd {
    ghost use Rattle.std.specs.Prelude.{◌≡◌};
    ghost use Rattle.fh_script.specs.Ends.{end_of_line};

    ghost from_gives = { λ fault end. end ≡ end_of_line fault };

    fn from(fault: LineFault) -> PlainEnd {
        match fault {
            LineFault::ReadFault => PlainEnd::ReadFault,
            LineFault::TooLong => PlainEnd::LongLine,
            LineFault::NoMemory => PlainEnd::NoMemory,
        }
    }
}

impl From<AnswerFault> for PlainEnd {
    ghost use Rattle.std.specs.Prelude.{◌≡◌};
    ghost use Rattle.fh_script.specs.Ends.{end_of_answer};

    ghost from_gives = { λ fault end. end ≡ end_of_answer fault };

    fn from(fault: AnswerFault) -> PlainEnd {
        match fault {
            AnswerFault::DiskFault => PlainEnd::DiskFault,
            AnswerFault::NoMemory => PlainEnd::NoMemory,
        }
    }
}
