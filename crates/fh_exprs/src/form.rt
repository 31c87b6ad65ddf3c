//! Reading a text as plain text with named places.

ghost use Rattle.std.specs.Prelude.{◌≡◌, ◌≢◌, ◌<◌, ◌||◌, ◌∷◌, [], List, ℕ, length, Ok, IfNone, IfSome, OnOk};
ghost use Rattle.std.specs.List.{list_all, position, position_or_len};
ghost use Rattle.std.specs.Str.{bytes_eq};
ghost use Rattle.fh_exprs.specs.Form.{is_word_byte as is_word_byte_lem, is_host_name as is_host_name_lem, is_brace, open_brace};
ghost use Rattle.fh_exprs.specs.Names.{has_name, spots_have, KnowsNames};
ghost use Rattle.fh_exprs.specs.Answers.{Gives};
ghost use Rattle.fh_exprs.specs.Steps.{BeginsWith, BeginsWithFault, Leaves};

use crate::fault::ExprFault;
use crate::settings::Settings;
use crate::taken::Taken;
use fh_base::Text;
use std::alloc::Global;
use std::marker::Model;

/// Which names a text may have.
#[derive(Clone, Copy, Debug, PartialEq, Eq)]
pub enum Naming {
    /// Any, as in a template.
    Free,
    /// Words of ASCII letters, digits and `_` that differ from each other, as in a pattern.
    Distinct,
}

/// A plain text and the name behind it.
pub type Place = (Text, Text);

/// Places, and the plain text behind the last one.
#[derive(Debug, Drop)]
pub struct Form {
    places: Vec<Place>,
    last: Text,
}

impl Model for Form {
    ghost use Rattle.fh_exprs.specs.Layout.{Layout};

    ghost Value = { Layout };

    ghost view = { λ f. record { spots = f.places.items; last = f.last } };
}

/// What a text begins with.
pub enum Element<'a> {
    Plain(&'a str),
    Name(&'a str),
}

impl Form {
    ghost use Rattle.fh_exprs.specs.Settings.{replaced};
    ghost use Rattle.fh_exprs.specs.Form.{reading, reading_of, blank, with_plain, with_name, name_fault, unless};

    /// What the text reads as once its settings are replaced.
    pub fn read_with_settings(
        alloc: Global,
        text: &str,
        settings: &Settings,
        naming: Naming,
    ) -> Result<Form, ExprFault>
        ensures { Gives (λ f. f) result (reading_of naming (replaced settings.now.pairs text.now)) }
    {
        let text = settings.replace(alloc, text)?;
        Form::read(alloc, text.as_str(), naming)
    }

    /// What the text reads as, from the left.
    pub fn read(alloc: Global, text: &str, naming: Naming) -> Result<Form, ExprFault>
        ensures { Gives (λ f. f) result (reading naming text.now) }
    {
        let mut form = Form::new(alloc);
        let mut taken = Taken::new(alloc);
        let mut rest = text;
        while !rest.is_empty() {
            let at = (text.len() - rest.len()) as u64;
            let Some((element, after)) = first_element(rest) else {
                return Err(ExprFault::OpenBrace { at });
            };
            match element {
                Element::Plain(plain) => form.add_plain(plain)?,
                Element::Name(name) => form.add_name(alloc, name, at, naming, &mut taken)?,
            }
            rest = after;
        }
        Ok(form)
    }

    pub fn places(&self) -> &[Place]
        ensures { result.now ≡ self.now.spots }
    {
        self.places.as_slice()
    }

    pub fn last(&self) -> &str
        ensures { result.now ≡ self.now.last }
    {
        self.last.as_str()
    }

    fn new(alloc: Global) -> Form
        ensures { result ≡ blank }
    {
        Form {
            places: Vec::new(alloc),
            last: Text::empty(alloc),
        }
    }

    fn add_plain(&mut self, plain: &str) -> Result<(), ExprFault>
        ensures { Leaves result self.new (Ok (with_plain plain.now self.old)) }
    {
        self.last.push_str(plain)?;
        Ok(())
    }

    // `taken` has the names so far, where they have to differ.
    fn add_name<'t>(
        &mut self,
        alloc: Global,
        name: &'t str,
        at: u64,
        naming: Naming,
        taken: &mut Taken<'t>,
    ) -> Result<(), ExprFault>
        requires { KnowsNames naming taken.old self.old.spots }
        ensures leaves { Leaves result self.new
            (unless (name_fault naming self.old at name.now) (Ok (with_name name.now self.old))) }
        ensures names { OnOk result (KnowsNames naming taken.new self.new.spots) }
    {
        if naming == Naming::Distinct {
            self.judge(alloc, name, at, taken)?;
        }
        let name = Text::from_str(alloc, name)?;
        let before = std::mem::replace(&mut self.last, Text::empty(alloc));
        self.places.push((before, name))?;
        Ok(())
    }

    // The fault of one more name of a pattern, whose brace stands at this byte.
    fn judge<'t>(
        &self,
        alloc: Global,
        name: &'t str,
        at: u64,
        taken: &mut Taken<'t>,
    ) -> Result<(), ExprFault>
        requires { (other : List ℕ) → has_name taken.old other ≡ spots_have self.now.spots other }
        ensures leaves { Leaves result self.now
            (unless (name_fault Naming.Distinct self.now at name.now) (Ok self.now)) }
        ensures names { OnOk result ((other : List ℕ) → has_name taken.new other
            ≡ (spots_have self.now.spots other || bytes_eq name.now other)) }
    {
        if !is_word(name) {
            return Err(ExprFault::OpenBrace { at });
        }
        if is_host_name(name) || !taken.add(name)? {
            let name = Text::from_str(alloc, name)?;
            return Err(ExprFault::SameName { name });
        }
        Ok(())
    }
}

fn is_word(name: &str) -> bool
    ensures { result ≡ list_all is_word_byte_lem name.now }
{
    name.bytes().all(is_word_byte)
}

fn is_word_byte(b: u8) -> bool
    ensures { result ≡ is_word_byte_lem b }
{
    b.is_ascii_alphanumeric() || b == b'_'
}

fn is_host_name(name: &str) -> bool
    ensures { result ≡ is_host_name_lem name.now }
{
    name == "BlobTrigger" || name == "sys"
}

// What the text begins with and what is left, or `None` where it begins with a brace of another use.
fn first_element(text: &str) -> Option<(Element<'_>, &str)>
    ensures none { IfNone result (BeginsWithFault text.now) }
    ensures some { IfSome result (λ r. BeginsWith text.now r.0 r.1.now) }
    ensures shorter { IfSome result (λ r. text.now ≢ [] → length r.1.now < length text.now) }
{
    if let Some(after) = text.strip_prefix('{') {
        return match after.strip_prefix('{') {
            Some(rest) => Some((Element::Plain("{"), rest)),
            None => first_name(after),
        };
    }
    if let Some(after) = text.strip_prefix('}') {
        let rest = after.strip_prefix('}')?;
        return Some((Element::Plain("}"), rest));
    }
    let (plain, rest) = text.split_at(plain_length(text));
    Some((Element::Plain(plain), rest))
}

// Behind an opening brace: the name and what follows its closing brace, or `None` where there is no
// name.
fn first_name(text: &str) -> Option<(Element<'_>, &str)>
    requires { (rest : List ℕ) → text.now ≢ open_brace ∷ rest }
    ensures none { IfNone result (BeginsWithFault (open_brace ∷ text.now)) }
    ensures some { IfSome result (λ r. BeginsWith (open_brace ∷ text.now) r.0 r.1.now) }
    ensures shorter { IfSome result (λ r. length r.1.now < length text.now) }
{
    let (name, rest) = text.split_once('}')?;
    if name.is_empty() || name.contains('{') {
        return None;
    }
    Some((Element::Name(name), rest))
}

// How many bytes come before the first brace.
fn plain_length(text: &str) -> usize
    ensures { result ≡ position_or_len is_brace text.now }
{
    first_brace(text.as_bytes()).unwrap_or(text.len())
}

fn first_brace(bytes: &[u8]) -> Option<usize>
    ensures { result ≡ position is_brace bytes.now }
{
    bytes.iter().position(|b| *b == b'{' || *b == b'}')
}
