// Ids as texts.
ghost use Rattle.std.specs.Prelude.{◌≡◌, IfOk};
ghost use Rattle.uuid.specs.Text.{hyphenated_text, lower};
ghost use Rattle.fh_invoke.specs.Texts.{message_id as message_id_lem, rand_guid as rand_guid_lem};
ghost use Rattle.fh_invoke.specs.Texts.{random_id as random_id_lem};

use fh_base::{NoMemory, Text};
use std::alloc::Global;
use uuid::{Builder, Uuid};

/// A message's number as a UUID of 128 bits.
pub(crate) fn message_id(alloc: Global, number: u64) -> Result<Text, NoMemory>
    ensures { IfOk result (λ t. t ≡ message_id_lem number) }
{
    uuid_text(alloc, Uuid::from_u128(number as u128))
}

/// The UUID of version 4 of two random words, the high one first.
pub(crate) fn rand_guid(alloc: Global, high: u64, low: u64) -> Result<Text, NoMemory>
    ensures { IfOk result (λ t. t ≡ rand_guid_lem high low) }
{
    uuid_text(alloc, random_id(high, low))
}

#[tactic(auto, unfolding(crate::specs::Texts::random_id))]
fn random_id(high: u64, low: u64) -> Uuid
    ensures { result ≡ random_id_lem high low }
{
    let bytes = Uuid::from_u64_pair(high, low).into_bytes();
    Builder::from_random_bytes(bytes).into_uuid()
}

fn uuid_text(alloc: Global, id: Uuid) -> Result<Text, NoMemory>
    ensures { IfOk result (λ t. t ≡ hyphenated_text lower id) }
{
    let mut buffer = Uuid::encode_buffer();
    let text = id.hyphenated().encode_lower(&mut buffer);
    Text::from_str(alloc, text)
}
