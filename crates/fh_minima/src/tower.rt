// Levels of keys, each key of an upper one at most those of its block of the level below.
ghost use Rattle.std.specs.Prelude.{◌≡◌, ◌+◌, ◌<◌, ◌≤◌, ◌∷◌, ◌++◌, [], length, slice_set, OnOk, OnErr};
ghost use Rattle.fh_minima.specs.Tower.{IsFirst, IsFirstInBlock, IsTower, Covers, IsBlockEnd};

use crate::NoMemory;
use crate::level::Level;

/// How many keys one key of the level above stands for.
pub(crate) const BLOCK: usize = 32;

/// The first place from `from` on whose key is at most the bound.
pub(crate) fn first(keys: &Level, above: &[Level], from: usize, most: u64) -> Option<usize>
    requires tower { IsTower keys.now above.now }
    requires within { from ≤ length keys.now }
    ensures { IsFirst keys.now from (length keys.now) most result }
{
    let Some((blocks, rest)) = above.split_first() else {
        return keys.scan(from, keys.len(), most);
    };
    let mut start = from;
    loop {
        if let Some(place) = first_in_block(keys, blocks, start, most) {
            return Some(place);
        }
        let block = start / BLOCK + 1;
        if blocks.len() < block {
            return None;
        }
        let Some(next) = first(blocks, rest, block, most) else {
            return None;
        };
        if keys.len() / BLOCK < next {
            return None;
        }
        start = next * BLOCK;
    }
}

// The first place from `start` to the end of its block whose key is at most the bound.
fn first_in_block(keys: &Level, blocks: &Level, start: usize, most: u64) -> Option<usize>
    requires covers { Covers keys.now blocks.now }
    requires within { start ≤ length keys.now }
    ensures { IsFirstInBlock keys.now start most result }
{
    let block = start / BLOCK;
    if blocks.len() <= block || most < blocks.get(block) {
        return None;
    }
    keys.scan(start, end_of_block(start, keys.len()), most)
}

// Where the block of that place ends.
fn end_of_block(place: usize, len: usize) -> usize
    requires { place ≤ len }
    ensures low { place ≤ result }
    ensures high { result ≤ len }
    ensures block { IsBlockEnd place len result }
{
    let left = BLOCK - place % BLOCK;
    if len - place < left {
        len
    } else {
        place + left
    }
}

/// Changes the key of a place.
pub(crate) fn set(keys: &mut Level, above: &mut [Level], place: usize, key: u64)
    requires tower { IsTower keys.old above.old }
    requires within { place < length keys.old }
    ensures keys { keys.new ≡ slice_set keys.old place key }
    ensures tower { IsTower keys.new above.new }
{
    let old = keys.get(place);
    keys.set(place, key);
    let Some((blocks, rest)) = above.split_first_mut() else {
        return;
    };
    let block = place / BLOCK;
    let low = blocks.get(block);
    if key < low {
        set(blocks, rest, block, key);
    } else if old <= low && low < key {
        let start = block * BLOCK;
        let least = keys.least(start, end_of_block(start, keys.len()));
        if low < least {
            set(blocks, rest, block, least);
        }
    }
}

/// Adds a key.
pub(crate) fn push(keys: &mut Level, above: &mut [Level], key: u64) -> Result<(), NoMemory>
    requires tower { IsTower keys.old above.old }
    ensures tower { IsTower keys.new above.new }
    ensures ok { OnOk result (keys.new ≡ keys.old ++ key ∷ []) }
    ensures err { OnErr result (keys.new ≡ keys.old) }
{
    let Some((blocks, rest)) = above.split_first_mut() else {
        return keys.push(key);
    };
    let block = keys.len() / BLOCK;
    if block < blocks.len() {
        if key < blocks.get(block) {
            set(blocks, rest, block, key);
        }
    } else {
        match push(blocks, rest, key) {
            Ok(()) => (),
            Err(fault) => return Err(fault),
        }
    }
    keys.push(key)
}
