// The parts of a request's target.
ghost use Rattle.std.specs.Prelude.{◌≡◌};
ghost use Rattle.form_urlencoded.specs.Form.{split_once};
ghost use Rattle.fh_front.specs.Answers.{Answers};
ghost use Rattle.fh_front.specs.Paths.{path_of, query_of, up_to_slash, behind_slash, behind_word, name_part, blob_part, message_part, text_of, text_of_part};

use crate::fault::FrontFault;
use fh_base::{Text, utf8_text};
use percent_encoding::percent_decode;
use std::alloc::Global;

/// What stands before the first question mark.
pub(crate) fn path_of(target: &[u8]) -> &[u8]
    ensures { result.now ≡ path_of target.now }
{
    split_once(target, b'?').0
}

/// What stands behind the first question mark.
pub(crate) fn query_of(target: &[u8]) -> &[u8]
    ensures { result.now ≡ query_of target.now }
{
    split_once(target, b'?').1
}

/// The first parameter of a path.
pub(crate) fn name_part(path: &[u8]) -> &[u8]
    ensures { result.now ≡ name_part path.now }
{
    split_once(behind_word(path), b'/').0
}

/// The name of a blob in its path, with its slashes.
pub(crate) fn blob_part(path: &[u8]) -> &[u8]
    ensures { result.now ≡ blob_part path.now }
{
    behind_slash(behind_word(path))
}

/// The number of a message in its path.
pub(crate) fn message_part(path: &[u8]) -> &[u8]
    ensures { result.now ≡ message_part path.now }
{
    behind_slash(behind_slash(behind_word(path)))
}

/// What stands behind the word of a path.
pub(crate) fn behind_word(path: &[u8]) -> &[u8]
    ensures { result.now ≡ behind_word path.now }
{
    behind_slash(behind_slash(path))
}

fn behind_slash(path: &[u8]) -> &[u8]
    ensures { result.now ≡ behind_slash path.now }
{
    split_once(path, b'/').1
}

// The bytes before the first separator, and those behind it.
fn split_once(bytes: &[u8], separator: u8) -> (&[u8], &[u8])
    ensures before { result.0.now ≡ (split_once separator bytes.now).0 }
    ensures behind { result.1.now ≡ (split_once separator bytes.now).1 }
{
    match bytes.iter().position(|&byte| byte == separator) {
        Some(place) => (&bytes[..place], &bytes[place + 1..]),
        None => (bytes, &[]),
    }
}

/// Bytes as a text of their own.
#[tactic(auto, unfolding(crate::specs::Paths::text_of))]
pub(crate) fn text_of(alloc: Global, bytes: &[u8]) -> Result<Text, FrontFault>
    ensures { Answers result (text_of bytes.now) }
{
    match utf8_text(bytes) {
        Some(text) => Ok(Text::from_str(alloc, text)?),
        None => Err(FrontFault::BadBody),
    }
}

/// A part of a path as a text: each escape stands for its byte.
pub(crate) fn text_of_part(alloc: Global, part: &[u8]) -> Result<Text, FrontFault>
    ensures { Answers result (text_of_part part.now) }
{
    let mut bytes = Vec::new(alloc);
    percent_decode(part).append_to(&mut bytes)?;
    text_of(alloc, bytes.as_slice())
}
