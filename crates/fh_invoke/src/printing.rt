// How an output's value is written.
ghost use Rattle.std.specs.Prelude.{IfOk};
ghost use Rattle.serde_json.specs.View.{view};
ghost use Rattle.fh_invoke.specs.Printing.{IsPrinted, IsJsonOf};

use fh_base::{NoMemory, Text};
use serde_json::Value;
use std::alloc::Global;

/// A text as it is, and any other value as compact JSON.
pub(crate) fn printed(alloc: Global, value: &Value) -> Result<Text, NoMemory>
    ensures { IfOk result (λ t. IsPrinted (view value.now) t) }
{
    match value {
        Value::String(text) => Text::from_str(alloc, text.as_str()),
        _ => json_text(alloc, value),
    }
}

fn json_text(alloc: Global, value: &Value) -> Result<Text, NoMemory>
    ensures { IfOk result (λ t. IsJsonOf (view value.now) t) }
{
    let text = value.to_string(alloc)?;
    Ok(Text::new(text))
}
