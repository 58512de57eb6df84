// SPDX-License-Identifier: MIT OR Apache-2.0
ghost use Rattle.std.specs.Prelude.{◌≡◌, ◌%◌, ◌^◌, ◌*◌, slice_index_or};
ghost use Rattle.ruled_relay.specs.Among.{IsAmong, OthersStay, among};

use octets::Memory;
use std::alloc::Global;

/// The number of sources in one word of a set.
pub(crate) const WIDTH: usize = 64;

/// A set of sources with one bit for each source, 64 bits to a word.
#[derive(Drop)]
pub(crate) struct Sources {
    words: Vec<u64>,
}

impl Sources {
    /// An empty set with capacity for the sources below `count`. Returns `Err` if memory runs out.
    pub(crate) fn new(alloc: Global, count: u16) -> Result<Sources, Memory> {
        let count = usize::from(count).div_ceil(WIDTH);
        let mut words = Vec::with_capacity(alloc, count)?;
        for _ in 0..count {
            words.push(0)?;
        }
        Ok(Sources { words })
    }

    /// Adds the source. A no-op if the set has no capacity for the source.
    pub(crate) fn insert(&mut self, source: u16)
        ensures in_it { IsAmong source self.new.words.items }
        ensures others { OthersStay source self.old.words.items self.new.words.items }
    {
        if let Some(word) = self.words.get_mut(usize::from(source) / WIDTH) {
            *word |= bit_of(source);
        }
    }

    /// Removes the source.
    pub(crate) fn remove(&mut self, source: u16)
        ensures out { among self.new.words.items source ≡ 0 }
        ensures others { OthersStay source self.old.words.items self.new.words.items }
    {
        if let Some(word) = self.words.get_mut(usize::from(source) / WIDTH) {
            *word &= !bit_of(source);
        }
    }

    /// The word of the 64 sources from `64 * place` on; 0 past the end of the set.
    pub(crate) fn word(&self, place: usize) -> u64
        ensures { result ≡ slice_index_or self.now.words.items place 0 }
    {
        match self.words.get(place) {
            Some(word) => *word,
            None => 0,
        }
    }
}

/// A word in which only the bit of this source is set.
pub(crate) fn bit_of(source: u16) -> u64
    ensures { result ≡ 1 * 2 ^ (source % 64) % 2 ^ 64 }
{
    1 << (usize::from(source) % WIDTH)
}
