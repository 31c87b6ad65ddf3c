//! The names that a pattern has already.

ghost use Rattle.std.specs.Prelude.{◌≡◌, ◌||◌, not, false, List, ℕ, IfOk, OnOk};
ghost use Rattle.std.specs.Str.{bytes_eq};
ghost use Rattle.fh_exprs.specs.Names.{has_name};

use fh_base::NoMemory;
use std::alloc::Global;
use std::collections::HashSet;

/// Names, each of them once.
#[derive(Drop)]
pub struct Taken<'t> {
    names: HashSet<&'t str>,
}

impl<'t> Taken<'t> {
    /// No name yet. Takes no memory.
    pub fn new(alloc: Global) -> Taken<'t>
        ensures { (q : List ℕ) → has_name result q ≡ false }
    {
        Taken {
            names: HashSet::new(alloc),
        }
    }

    /// Whether the name is new; from now on it isn't.
    pub fn add(&mut self, name: &'t str) -> Result<bool, NoMemory>
        ensures added { IfOk result (λ is_new. is_new ≡ not (has_name self.old name.now)) }
        ensures names { OnOk result ((q : List ℕ) → has_name self.new q
            ≡ (has_name self.old q || bytes_eq name.now q)) }
    {
        let is_new = self.names.insert(name)?;
        Ok(is_new)
    }
}
