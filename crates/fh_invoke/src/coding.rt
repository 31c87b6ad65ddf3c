// Texts of queues: base64, or plain.
ghost use Rattle.std.specs.Prelude.{◌≡◌, IfOk, if◌then◌else◌};
ghost use Rattle.std.specs.Str.{is_utf8};
ghost use Rattle.base64.specs.GeneralPurpose.{encode_of};
ghost use Rattle.fh_invoke.specs.Texts.{decoded as decoded_lem, decoded_by as decoded_by_lem};
ghost use Rattle.fh_invoke.specs.Texts.{plain_text as plain_text_lem, coded as coded_lem};
ghost use Rattle.fh_invoke.specs.Texts.{standard_text as standard_text_lem};

use base64::DecodeAllocError;
use base64::engine::general_purpose::{GeneralPurpose, STANDARD};
use fh_base::{NoMemory, Text, utf8_text};
use std::alloc::Global;

/// What a queue's stored text stands for. One that is no base64 of UTF-8 stands for itself.
pub(crate) fn decoded(alloc: Global, base64: bool, stored: &str) -> Result<Text, NoMemory>
    ensures { IfOk result (λ t. t ≡ decoded_lem base64 stored.now) }
{
    if base64 {
        plain_text(alloc, stored)
    } else {
        Text::from_str(alloc, stored)
    }
}

#[tactic(auto, unfolding(crate::specs::Texts::plain_text))]
fn plain_text(alloc: Global, stored: &str) -> Result<Text, NoMemory>
    ensures { IfOk result (λ t. t ≡ plain_text_lem stored.now) }
{
    decoded_by(alloc, &STANDARD, stored)
}

#[tactic(auto, unfolding(crate::specs::Texts::decoded_by))]
fn decoded_by(alloc: Global, engine: &GeneralPurpose, stored: &str) -> Result<Text, NoMemory>
    ensures { IfOk result (λ t. t ≡ decoded_by_lem engine.now stored.now) }
{
    match engine.decode(alloc, stored.as_bytes()) {
        Ok(bytes) => text_or(alloc, bytes.as_slice(), stored),
        Err(DecodeAllocError::OutOfMemory) => Err(NoMemory),
        Err(_) => Text::from_str(alloc, stored),
    }
}

fn text_or(alloc: Global, bytes: &[u8], stored: &str) -> Result<Text, NoMemory>
    ensures { IfOk result (λ t. t ≡ (if is_utf8 bytes.now then bytes.now else stored.now)) }
{
    match utf8_text(bytes) {
        Some(text) => Text::from_str(alloc, text),
        None => Text::from_str(alloc, stored),
    }
}

/// A text as a queue stores it.
pub(crate) fn coded(alloc: Global, base64: bool, text: Text) -> Result<Text, NoMemory>
    ensures { IfOk result (λ t. t ≡ coded_lem base64 text) }
{
    if base64 {
        standard_text(alloc, text.as_str())
    } else {
        Ok(text)
    }
}

#[tactic(auto, unfolding(crate::specs::Texts::standard_text))]
fn standard_text(alloc: Global, text: &str) -> Result<Text, NoMemory>
    ensures { IfOk result (λ t. t ≡ standard_text_lem text.now) }
{
    encoded_by(alloc, &STANDARD, text)
}

fn encoded_by(alloc: Global, engine: &GeneralPurpose, text: &str) -> Result<Text, NoMemory>
    ensures { IfOk result (λ t. t ≡ encode_of engine.now text.now) }
{
    let code = engine.encode(alloc, text.as_bytes())?;
    Ok(Text::new(code))
}
