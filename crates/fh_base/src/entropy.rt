// Words that nobody foresees.
ghost use Rattle.std.specs.Prelude.{◌≡◌, ℕ, ◌≤◌, List, length, drop, slice_index, Option, None, Some, IfSome, option_map};

use std::random::RandomSource;

/// Gives words of 64 bits that nobody foresees.
pub trait Entropy {
    /// The words to come, where it tells them. Behind the last of them only 0 comes.
    ghost words: { Self → Option (List ℕ) };

    fn next(&mut self) -> u64
        ensures word { IfSome (words self.old) (λ to_come. result ≡ slice_index to_come 0) }
        ensures rest { words self.new ≡ option_map (drop 1) (words self.old) };
}

/// Gives these words in order, and 0 after the last of them.
#[derive(Drop)]
pub struct MemoryEntropy {
    words: Vec<u64>,
    place: usize,
    ghost within: { place ≤ length words.items },
}

impl MemoryEntropy {
    ghost use Rattle.fh_base.specs.MemoryEntropy.{words_left};

    pub fn new(words: Vec<u64>) -> MemoryEntropy
        ensures { words_left result ≡ words.items }
    {
        MemoryEntropy { words, place: 0 }
    }
}

impl Entropy for MemoryEntropy {
    ghost use Rattle.fh_base.specs.MemoryEntropy.{words_left};

    ghost words = { λ e. Some (words_left e) };

    fn next(&mut self) -> u64 {
        match self.words.get(self.place) {
            Some(word) => {
                let word = *word;
                self.place += 1;
                word
            }
            None => 0,
        }
    }
}

/// The host's random bytes, which tells nothing. It gives 0 where the host gives none.
#[derive(Drop)]
pub struct HostEntropy<R: RandomSource> {
    runtime: R,
}

impl<R: RandomSource> HostEntropy<R> {
    pub fn new(runtime: R) -> HostEntropy<R>
        ensures { result.runtime ≡ runtime }
    {
        HostEntropy { runtime }
    }
}

impl<R: RandomSource> Entropy for HostEntropy<R> {
    ghost words = { λ e. None };

    fn next(&mut self) -> u64 {
        let mut bytes = [0; 8];
        match self.runtime.fill_bytes(&mut bytes) {
            Ok(()) => u64::from_le_bytes(bytes),
            Err(_) => 0,
        }
    }
}
