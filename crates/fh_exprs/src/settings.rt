//! App settings, and a text with its settings replaced.

ghost use Rattle.std.specs.Prelude.{◌<◌, length, string_bytes, MatchOption, IfSome};
ghost use Rattle.fh_exprs.specs.Answers.{Gives};
ghost use Rattle.fh_exprs.specs.Settings.{replaced, replacement};
ghost use Rattle.fh_exprs.specs.Steps.{IsWithoutSettings, BeginsWithSetting};

use crate::fault::ExprFault;
use crate::pairs::Pairs;
use fh_base::Text;
use std::alloc::Global;

/// The app's settings.
#[derive(Debug, Drop)]
pub struct Settings {
    pub pairs: Pairs,
}

impl Settings {
    /// The text with each `%name%` replaced once, from the left: what a setting's value holds isn't
    /// read again. The faults are `NoSetting` and want of memory.
    pub fn replace(&self, alloc: Global, text: &str) -> Result<String, ExprFault>
        ensures { Gives string_bytes result (replaced self.now.pairs text.now) }
    {
        let mut done = String::new(alloc);
        let mut rest = text;
        while let Some((before, name, tail)) = next_setting(rest) {
            let value = self.value(alloc, name)?;
            done.push_str(before)?;
            done.push_str(value)?;
            rest = tail;
        }
        done.push_str(rest)?;
        Ok(done)
    }

    // What stands for two percent signs with this name between them.
    fn value(&self, alloc: Global, name: &str) -> Result<&str, ExprFault>
        ensures { Gives (λ s. s.now) result (replacement self.now.pairs name.now) }
    {
        if name.is_empty() {
            return Ok("%%");
        }
        match self.pairs.get(name) {
            Some(value) => Ok(value),
            None => {
                let name = Text::from_str(alloc, name)?;
                Err(ExprFault::NoSetting { name })
            }
        }
    }
}

// The first two percent signs: what comes before them, between them and behind them.
fn next_setting(text: &str) -> Option<(&str, &str, &str)>
    ensures reads { MatchOption result (IsWithoutSettings text.now)
        (λ r. BeginsWithSetting text.now r.0.now r.1.now r.2.now) }
    ensures shorter { IfSome result (λ r. length r.2.now < length text.now) }
{
    let (before, after) = text.split_once('%')?;
    let (name, tail) = after.split_once('%')?;
    Some((before, name, tail))
}
