// The row of a function.
use fh_base::Text;
use fh_event::FunctionSettings;
use fh_rows::{Key, Row};
use std::cmp::Ordering;

/// A function as it was configured.
#[derive(Drop)]
pub struct Function {
    /// Its number, which it keeps.
    pub number: u64,
    pub name: Text,
    pub settings: FunctionSettings,
}

impl Row for Function {
    ghost use Rattle.std.proofs.Common.{rules};
    ghost use Rattle.std.specs.Cmp.Rules.{comparing};
    ghost use Rattle.fh_dispatch.specs.Part.{by_name};

    ghost order = { λ a b. by_name b.name a };

    ghost total = { Prim.search (comparing, rules) };

    fn compare(&self, other: &Function) -> Ordering {
        self.name.as_str().cmp(other.name.as_str())
    }
}

/// The name of a function.
#[derive(Clone, Copy)]
pub(crate) struct Name<'a> {
    pub(crate) name: &'a str,
}

impl<'a> Key<Function> for Name<'a> {
    ghost use Rattle.fh_event.specs.declared.settings.FunctionSettings.TheVariants.{Blob};

    ghost as_row = { λ key. record { number = 0; name = key.name.now; settings = Blob 0 0 0 0 0 } };

    fn compare(&self, row: &Function) -> Ordering {
        row.name.as_str().cmp(self.name)
    }
}
