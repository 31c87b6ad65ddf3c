// One of the files that a crash may leave.
ghost use Rattle.std.specs.Prelude.{◌≡◌, ℕ, ◌+◌, ◌<◌, ◌≤◌, [], ◌∷◌, length, slice_index, IfOk, OnOk};
ghost use Rattle.fh_disk.specs.Disk.{written_at, Torn};
ghost use Rattle.fh_disk.specs.Images.{synced_by};
ghost use Rattle.fh_disk.specs.Recorded.{replayed, Leaves};

use crate::Call;
use crate::content::{lengthen, put};
use crate::draw::{Draw, Fate};
use std::alloc::{AllocError, Global};

/// One of the images of a disk that held a file, all of it synced, before these calls.
pub(crate) fn image_of(
    alloc: Global,
    first: &[u8],
    calls: &[Call],
    choice: u64,
) -> Result<Vec<u8>, AllocError>
    ensures left { IfOk result (λ image. Leaves first.now (λ c. c ≡ first.now) calls.now image.items) }
    ensures lost { choice ≡ 0 → IfOk result (λ image. image.items ≡ synced_by first.now first.now calls.now) }
    ensures whole { choice ≡ 1 → IfOk result (λ image. image.items ≡ replayed first.now calls.now) }
{
    let mut draw = Draw::new(choice);
    let mut file = Vec::from_slice(alloc, first)?;
    let mut image = Vec::from_slice(alloc, first)?;
    for call in calls {
        go_on(alloc, call, &mut file, &mut image, &mut draw)?;
    }
    Ok(image)
}

// What reads give after one call more, and one of the images after it.
fn go_on(
    alloc: Global,
    call: &Call,
    file: &mut Vec<u8>,
    image: &mut Vec<u8>,
    draw: &mut Draw,
) -> Result<(), AllocError>
    ensures file { OnOk result (file.new.items ≡ replayed file.old.items (call.now ∷ [])) }
    ensures image { OnOk result (Leaves file.old.items (λ c. c ≡ image.old.items) (call.now ∷ []) image.new.items) }
    ensures lost { draw.old.choice ≡ 0 → OnOk result (image.new.items ≡ synced_by image.old.items file.old.items (call.now ∷ [])) }
    ensures whole { draw.old.choice ≡ 1 → image.old.items ≡ file.old.items → OnOk result (image.new.items ≡ replayed file.old.items (call.now ∷ [])) }
    ensures choice { draw.new.choice ≡ draw.old.choice }
{
    match call {
        Call::Write { at, bytes } => {
            put(file, *at, bytes.as_slice())?;
            tear(image, *at, bytes.as_slice(), draw)
        }
        Call::Sync => {
            *image = Vec::from_slice(alloc, file)?;
            Ok(())
        }
    }
}

fn tear(image: &mut Vec<u8>, at: u64, bytes: &[u8], draw: &mut Draw) -> Result<(), AllocError>
    ensures torn { OnOk result (Torn at (length bytes.now) image.old.items image.new.items) }
    ensures lost { draw.old.choice ≡ 0 → OnOk result (image.new.items ≡ image.old.items) }
    ensures whole { draw.old.choice ≡ 1 → OnOk result (image.new.items ≡ written_at at bytes.now image.old.items) }
    ensures choice { draw.new.choice ≡ draw.old.choice }
{
    match draw.fate() {
        Fate::Lost => Ok(()),
        Fate::Whole => put(image, at, bytes),
        Fate::Torn => tear_to_pieces(image, at, bytes, draw),
    }
}

fn tear_to_pieces(
    image: &mut Vec<u8>,
    at: u64,
    bytes: &[u8],
    draw: &mut Draw,
) -> Result<(), AllocError>
    ensures torn { OnOk result (Torn at (length bytes.now) image.old.items image.new.items) }
    ensures choice { draw.new.choice ≡ draw.old.choice }
{
    let start = at as usize;
    let Some(end) = start.checked_add(bytes.len()) else {
        return Err(AllocError);
    };
    let length = image.len();
    let grown = length + draw.up_to(end.saturating_sub(length));
    lengthen(image, grown)?;
    scatter(image, start, end, start, bytes, draw);
    scatter(image, length, grown, start, bytes, draw);
    Ok(())
}

// Draws each byte of a range from what was there, what the write brought, and any other.
fn scatter(image: &mut [u8], from: usize, to: usize, start: usize, bytes: &[u8], draw: &mut Draw)
    ensures before { (i : ℕ) → i < from → slice_index image.new i ≡ slice_index image.old i }
    ensures behind { (i : ℕ) → to ≤ i → slice_index image.new i ≡ slice_index image.old i }
    ensures choice { draw.new.choice ≡ draw.old.choice }
{
    for i in from..to.min(image.len()) {
        let new = match bytes.get(i.wrapping_sub(start)) {
            Some(byte) => *byte,
            None => 0,
        };
        image[i] = draw.byte(image[i], new);
    }
}
