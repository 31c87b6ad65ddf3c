// Reading one row of a table of members.
ghost use Rattle.std.specs.Prelude.{◌≡◌, Some, None, [], Bool, IfOk, option_map};
ghost use Rattle.serde_json.specs.View.{view, items_view};
ghost use Rattle.fh_app.specs.Answers.{Answers, Tells};
ghost use Rattle.fh_app.specs.declared.fault.AppFault.TheVariants.{BadValue};
ghost use Rattle.fh_app.specs.Kinds.{text as text_lem, filled_text as filled_text_lem, is_text as is_text_lem, truth as truth_lem, number_in as number_in_lem, encoding as encoding_lem, duration_in as duration_in_lem};
ghost use Rattle.fh_app.specs.Rows.{row, at, needed, texts_row, texts_behind, item_of as item_of_lem};

use crate::fault::{AppFault, bad_value, missing};
use crate::kinds;
use fh_base::{NoMemory, Text, Texts};
use fh_exprs::member_of;
use serde_json::Value;
use std::alloc::Global;

/// A JSON file of the app, with the name that its faults tell.
#[derive(Clone, Copy)]
pub(crate) struct File<'a> {
    pub name: &'a str,
    pub root: &'a Value,
}

impl File<'_> {
    // This very text.
    #[tactic(auto, unfolding(crate::specs::Rows::at))]
    pub(crate) fn the_text(&self, alloc: Global, path: &str, word: &str) -> Result<(), AppFault>
        ensures { Answers result (needed self.now.name.now path.now
            (option_map (is_text_lem word.now) (at path.now (view self.now.root.now)))) }
    {
        let Some(value) = member_of(self.root, path) else {
            return Err(missing(alloc, self.name, path));
        };
        if kinds::is_text(value, word) {
            Ok(())
        } else {
            Err(bad_value(alloc, self.name, path))
        }
    }

    // A text that isn't empty.
    #[tactic(auto, unfolding(crate::specs::Rows::row, crate::specs::Rows::at))]
    pub(crate) fn filled_text(&self, alloc: Global, path: &str) -> Result<Text, AppFault>
        ensures { Answers result (row filled_text_lem None
            self.now.name.now path.now (at path.now (view self.now.root.now))) }
    {
        let Some(value) = member_of(self.root, path) else {
            return Err(missing(alloc, self.name, path));
        };
        match kinds::filled_text(value) {
            Some(text) => Ok(Text::from_str(alloc, text)?),
            None => Err(bad_value(alloc, self.name, path)),
        }
    }

    #[tactic(auto, unfolding(crate::specs::Rows::row, crate::specs::Rows::at))]
    pub(crate) fn text_or_empty(&self, alloc: Global, path: &str) -> Result<Text, AppFault>
        ensures { Answers result (row text_lem (Some [])
            self.now.name.now path.now (at path.now (view self.now.root.now))) }
    {
        let Some(value) = member_of(self.root, path) else {
            return Ok(Text::from_str(alloc, "")?);
        };
        match value.as_str() {
            Some(text) => Ok(Text::from_str(alloc, text)?),
            None => Err(bad_value(alloc, self.name, path)),
        }
    }

    #[tactic(auto, unfolding(crate::specs::Rows::texts_row, crate::specs::Rows::at))]
    pub(crate) fn texts_or_none(&self, alloc: Global, path: &str) -> Result<Texts, AppFault>
        ensures { Answers result (texts_row
            self.now.name.now path.now (at path.now (view self.now.root.now))) }
    {
        let Some(value) = member_of(self.root, path) else {
            return Ok(Texts::new(alloc));
        };
        match value.as_array() {
            Some(values) => self.texts(alloc, path, values.as_slice()),
            None => Err(bad_value(alloc, self.name, path)),
        }
    }

    // The items of the member at the path, which are texts.
    fn texts(&self, alloc: Global, path: &str, values: &[Value]) -> Result<Texts, AppFault>
        ensures { Answers result
            (texts_behind self.now.name.now path.now [] (items_view values.now)) }
    {
        let mut texts = Vec::new(alloc);
        for value in values {
            let Some(text) = value.as_str() else {
                return Err(bad_item(alloc, self.name, path, texts.len()));
            };
            let text = Text::from_str(alloc, text)?;
            texts.push(text)?;
        }
        Ok(Texts::from_vec(texts))
    }

    #[tactic(auto, unfolding(crate::specs::Rows::row, crate::specs::Rows::at))]
    pub(crate) fn truth(&self, alloc: Global, path: &str, default: bool) -> Result<bool, AppFault>
        ensures { Answers result (row truth_lem (Some default)
            self.now.name.now path.now (at path.now (view self.now.root.now))) }
    {
        let Some(value) = member_of(self.root, path) else {
            return Ok(default);
        };
        match value.as_bool() {
            Some(truth) => Ok(truth),
            None => Err(bad_value(alloc, self.name, path)),
        }
    }

    #[tactic(auto, unfolding(crate::specs::Rows::row, crate::specs::Rows::at))]
    pub(crate) fn encoding(&self, alloc: Global, path: &str) -> Result<bool, AppFault>
        ensures { Answers result (row encoding_lem (Some Bool.true)
            self.now.name.now path.now (at path.now (view self.now.root.now))) }
    {
        let Some(value) = member_of(self.root, path) else {
            return Ok(true);
        };
        match kinds::encoding(value) {
            Some(base64) => Ok(base64),
            None => Err(bad_value(alloc, self.name, path)),
        }
    }

    #[tactic(auto, unfolding(crate::specs::Rows::row, crate::specs::Rows::at))]
    pub(crate) fn number(
        &self,
        alloc: Global,
        path: &str,
        least: u64,
        most: u64,
        default: u64,
    ) -> Result<u64, AppFault>
        ensures { Answers result (row (number_in_lem least most) (Some default)
            self.now.name.now path.now (at path.now (view self.now.root.now))) }
    {
        let Some(value) = member_of(self.root, path) else {
            return Ok(default);
        };
        match kinds::number_in(value, least, most) {
            Some(number) => Ok(number),
            None => Err(bad_value(alloc, self.name, path)),
        }
    }

    // In milliseconds.
    #[tactic(auto, unfolding(crate::specs::Rows::row, crate::specs::Rows::at))]
    pub(crate) fn duration(
        &self,
        alloc: Global,
        path: &str,
        least: u64,
        most: u64,
        default: u64,
    ) -> Result<u64, AppFault>
        ensures { Answers result (row (duration_in_lem least most) (Some default)
            self.now.name.now path.now (at path.now (view self.now.root.now))) }
    {
        let Some(value) = member_of(self.root, path) else {
            return Ok(default);
        };
        match kinds::duration_in(value, least, most) {
            Some(length) => Ok(length),
            None => Err(bad_value(alloc, self.name, path)),
        }
    }
}

fn bad_item(alloc: Global, file: &str, member: &str, place: usize) -> AppFault
    ensures { Tells result (BadValue file.now (item_of_lem member.now place)) }
{
    match item_of(alloc, member, place) {
        Ok(member) => bad_value(alloc, file, member.as_str()),
        Err(_) => AppFault::NoMemory,
    }
}

fn item_of(alloc: Global, member: &str, place: usize) -> Result<Text, NoMemory>
    ensures { IfOk result (λ t. t ≡ item_of_lem member.now place) }
{
    let text = format!(in alloc; "{member}.{place}")?;
    Ok(Text::new(text))
}
