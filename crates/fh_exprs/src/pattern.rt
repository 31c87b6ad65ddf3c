//! Patterns: texts with names that a given name is read by.

ghost use Rattle.std.specs.Prelude.{◌≡◌, Ok, IfOk, MatchOption, option_map, List, ℕ};
ghost use Rattle.fh_exprs.specs.Answers.{Gives};

use crate::fault::ExprFault;
use crate::form::{Form, Naming};
use crate::matching;
use crate::settings::Settings;
use fh_base::{NoMemory, Text};
use std::alloc::Global;
use std::marker::Model;

/// A text in which `{name}` stands for one or more characters and `%name%` for an app setting.
/// Contracts see its plain texts and names.
#[derive(Debug, Drop)]
pub struct Pattern {
    form: Form,
}

impl Model for Pattern {
    ghost use Rattle.fh_exprs.specs.Layout.{Layout};

    ghost Value = { Layout };

    ghost view = { λ p. p.form };
}

impl Pattern {
    ghost use Rattle.fh_exprs.specs.declared.form.Naming.TheVariants.{Distinct};
    ghost use Rattle.fh_exprs.specs.Form.{reading, reading_of};
    ghost use Rattle.fh_exprs.specs.Written.{written};
    ghost use Rattle.fh_exprs.specs.Settings.{replaced};
    ghost use Rattle.fh_exprs.specs.Matching.{matched, IsReading, ReadsAs};

    /// Reads a pattern. The faults are `NoSetting`, `OpenBrace` and `SameName`, and want of memory.
    pub fn read(alloc: Global, text: &str, settings: &Settings) -> Result<Pattern, ExprFault>
        ensures exact { Gives (λ p. p) result
            (reading_of Distinct (replaced settings.now.pairs text.now)) }

        // What is read is written so.
        ensures written { IfOk result
            (λ p. replaced settings.now.pairs text.now ≡ Ok (written p)) }
    {
        let form = Form::read_with_settings(alloc, text, settings, Naming::Distinct)?;
        Ok(Pattern { form })
    }

    /// Reads a pattern from a text whose settings were replaced already, as what stands behind the
    /// container in a blob's path. The faults are `OpenBrace` and `SameName`, and want of memory.
    pub fn read_replaced(alloc: Global, text: &str) -> Result<Pattern, ExprFault>
        ensures exact { Gives (λ p. p) result (reading Distinct text.now) }

        // What is read is written so.
        ensures written { IfOk result (λ p. text.now ≡ written p) }
    {
        let form = Form::read(alloc, text, Naming::Distinct)?;
        Ok(Pattern { form })
    }

    /// The pattern's names with their texts, in order. Where the name can be read in several ways,
    /// the first name has the longest text, then the second, and so on.
    pub fn matches(&self, alloc: Global, name: &str) -> Result<Option<Vec<(Text, Text)>>, NoMemory>
        ensures exact { IfOk result (λ found.
            option_map (λ pairs. pairs.items) found ≡ matched self.now name.now) }

        // That is the greatest reading, and none where there is no reading.
        ensures greatest { IfOk result (λ found. MatchOption found
            ((texts : List (List ℕ)) → IsReading self.now name.now texts → ⊥)
            (λ pairs. ReadsAs self.now name.now pairs.items)) }
    {
        matching::read_by(alloc, self.form.places(), self.form.last(), name)
    }
}
