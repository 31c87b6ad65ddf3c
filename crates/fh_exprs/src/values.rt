//! The values that a template's names stand for.

ghost use Rattle.std.specs.Prelude.{◌≡◌, ◌==◌, IfOk, option_map};
ghost use Rattle.std.specs.List.{slice_split};
ghost use Rattle.serde_json.specs.View.{view};
ghost use Rattle.fh_exprs.specs.Answers.{Gives};
ghost use Rattle.fh_exprs.specs.Json.{member_at, json_text as json_text_lem, dot};

use crate::fault::ExprFault;
use crate::pairs::Pairs;
use fh_base::{NoMemory, Text};
use serde_json::Value;
use std::alloc::Global;

/// What is known when a template is resolved.
#[derive(Drop)]
pub struct Values {
    /// Named values, of which the first of a name counts.
    pub known: Pairs,
    /// A queue message that is a JSON object; its members are sought where no known value has the
    /// name.
    pub message: Option<Value>,
}

impl Values {
    ghost use Rattle.fh_exprs.specs.Values.{value_of, found_text, in_message};

    /// The text that the name stands for.
    #[tactic(auto, unfolding(crate::specs::Values::value_of))]
    pub(crate) fn value(&self, alloc: Global, name: &str) -> Result<Text, ExprFault>
        ensures { Gives (λ t. t) result (value_of self.now name.now) }
    {
        match self.known.get(name) {
            Some(text) => Ok(Text::from_str(alloc, text)?),
            None => self.found(alloc, name),
        }
    }

    // The text of the message's member of this name.
    fn found(&self, alloc: Global, name: &str) -> Result<Text, ExprFault>
        ensures { Gives (λ t. t) result (found_text name.now (in_message name.now self.now.message)) }
    {
        let Some(value) = self.member(name) else {
            let name = Text::from_str(alloc, name)?;
            return Err(ExprFault::NoValue { name });
        };
        match json_text(alloc, value)? {
            Some(text) => Ok(text),
            None => {
                let name = Text::from_str(alloc, name)?;
                Err(ExprFault::NotText { name })
            }
        }
    }

    // The message's member of this name, in which dots lead from member to member.
    fn member(&self, name: &str) -> Option<&Value>
        ensures { option_map (λ v. view v.now) result ≡ in_message name.now self.now.message }
    {
        match &self.message {
            Some(message) => member_of(message, name),
            None => None,
        }
    }
}

/// The value at a path in a JSON value: the names of members with dots between them. A value on the way
/// that is no object has no members.
pub fn member_of<'v>(message: &'v Value, name: &str) -> Option<&'v Value>
    ensures { option_map (λ v. view v.now) result
        ≡ member_at (slice_split (λ b. b == dot) name.now) (view message.now) }
{
    let mut found = message;
    let mut rest = name;
    while let Some((first, names)) = rest.split_once('.') {
        found = found.get(first)?;
        rest = names;
    }
    found.get(rest)
}

// A text as it is, a whole number in decimal, `true` or `false`.
fn json_text(alloc: Global, value: &Value) -> Result<Option<Text>, NoMemory>
    ensures { IfOk result (λ o. o ≡ json_text_lem (view value.now)) }
{
    if let Some(text) = value.as_str() {
        return Ok(Some(Text::from_str(alloc, text)?));
    }
    if let Some(truth) = value.as_bool() {
        let text = if truth { "true" } else { "false" };
        return Ok(Some(Text::from_str(alloc, text)?));
    }
    if let Some(number) = value.as_u64() {
        let text = format!(in alloc; "{number}")?;
        return Ok(Some(Text::new(text)));
    }
    if let Some(number) = value.as_i64() {
        let text = format!(in alloc; "{number}")?;
        return Ok(Some(Text::new(text)));
    }
    Ok(None)
}
