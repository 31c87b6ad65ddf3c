//! Why a text is no template or pattern, or a template has no text.

ghost use Rattle.std.specs.Prelude.{◌≡◌};
ghost use Rattle.fh_exprs.specs.declared.fault.ExprFault.TheVariants.{NoMemory as WantOfMemory};

use fh_base::{NoMemory, Text};
use std::alloc::{AllocError, AllocFailed};

/// The first fault of an expression.
#[derive(Debug, Drop)]
pub enum ExprFault {
    /// A brace that is neither doubled nor part of a `{name}`. The place is in bytes, in the text
    /// with its settings replaced.
    OpenBrace { at: u64 },
    /// No app setting has this name.
    NoSetting { name: Text },
    /// Nothing has this name.
    NoValue { name: Text },
    /// The message's member of this name is no text, whole number or truth value.
    NotText { name: Text },
    /// A pattern has this name twice, or it is one of the two that the host takes for itself.
    SameName { name: Text },
    NoMemory,
}

impl From<NoMemory> for ExprFault {
    ghost from_gives = { λ _ e. e ≡ WantOfMemory };

    fn from(_e: NoMemory) -> ExprFault {
        ExprFault::NoMemory
    }
}

impl From<AllocError> for ExprFault {
    ghost from_gives = { λ _ e. e ≡ WantOfMemory };

    fn from(_e: AllocError) -> ExprFault {
        ExprFault::NoMemory
    }
}

impl<T: Drop> From<AllocFailed<T>> for ExprFault {
    ghost from_gives = { λ _ e. e ≡ WantOfMemory };

    fn from(_e: AllocFailed<T>) -> ExprFault {
        ExprFault::NoMemory
    }
}
