//! Templates: texts with named values.

ghost use Rattle.std.specs.Prelude.{◌≡◌, IfOk, Ok, string_bytes};
ghost use Rattle.fh_exprs.specs.Answers.{Gives};
ghost use Rattle.fh_exprs.specs.Values.{filled};

use crate::fault::ExprFault;
use crate::form::{Form, Naming, Place};
use crate::settings::Settings;
use crate::values::Values;
use std::alloc::Global;
use std::marker::Model;

/// A text in which `{name}` stands for a value and `%name%` for an app setting. Contracts see its
/// plain texts and names.
#[derive(Debug, Drop)]
pub struct Template {
    form: Form,
}

impl Model for Template {
    ghost use Rattle.fh_exprs.specs.Layout.{Layout};

    ghost Value = { Layout };

    ghost view = { λ t. t.form };
}

impl Template {
    ghost use Rattle.fh_exprs.specs.declared.form.Naming.TheVariants.{Free};
    ghost use Rattle.fh_exprs.specs.Form.{reading_of};
    ghost use Rattle.fh_exprs.specs.Layout.{Layout};
    ghost use Rattle.fh_exprs.specs.Written.{written, HasNames};
    ghost use Rattle.fh_exprs.specs.Settings.{replaced};
    ghost use Rattle.fh_exprs.specs.Values.{resolved};

    /// Reads a template. The faults are `NoSetting` and `OpenBrace`, and want of memory.
    pub fn read(alloc: Global, text: &str, settings: &Settings) -> Result<Template, ExprFault>
        ensures exact { Gives (λ t. t) result (reading_of Free (replaced settings.now.pairs text.now)) }

        // What is read is written so, and what is written so is read.
        ensures written { IfOk result
            (λ t. replaced settings.now.pairs text.now ≡ Ok (written t)) }
        ensures every { (layout : Layout) → HasNames layout
            → replaced settings.now.pairs text.now ≡ Ok (written layout)
            → Gives (λ t. t) result (Ok layout) }
    {
        let form = Form::read_with_settings(alloc, text, settings, Naming::Free)?;
        Ok(Template { form })
    }

    /// The text that the template stands for. The faults are `NoValue` and `NotText`, and want of
    /// memory.
    pub fn resolve(&self, alloc: Global, values: &Values) -> Result<String, ExprFault>
        ensures { Gives string_bytes result (resolved values.now self.now) }
    {
        fill(alloc, self.form.places(), self.form.last(), values)
    }
}

fn fill(alloc: Global, places: &[Place], last: &str, values: &Values) -> Result<String, ExprFault>
    ensures { Gives string_bytes result (filled values.now places.now last.now) }
{
    let mut text = String::new(alloc);
    for place in places {
        let value = values.value(alloc, place.1.as_str())?;
        text.push_str(place.0.as_str())?;
        text.push_str(value.as_str())?;
    }
    text.push_str(last)?;
    Ok(text)
}
