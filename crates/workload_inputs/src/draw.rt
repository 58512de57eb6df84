// SPDX-License-Identifier: MIT OR Apache-2.0
ghost use Rattle.std.specs.Prelude.{◌<◌, ◌≤◌};

/// Pseudorandom numbers (SplitMix64, by Steele, Lea and Flood). The same seed gives the same
/// numbers.
#[derive(Clone, Copy)]
pub struct Draw {
    state: u64,
}

impl Draw {
    /// The sequence of numbers that a seed gives.
    pub fn new(seed: u64) -> Draw {
        Draw { state: seed }
    }

    /// The next number.
    pub fn next(&mut self) -> u64 {
        self.state = self.state.wrapping_add(0x9e37_79b9_7f4a_7c15);
        let mixed = (self.state ^ (self.state >> 30)).wrapping_mul(0xbf58_476d_1ce4_e5b9);
        let mixed = (mixed ^ (mixed >> 27)).wrapping_mul(0x94d0_49bb_1331_11eb);
        mixed ^ (mixed >> 31)
    }

    /// The next octet.
    pub(crate) fn octet(&mut self) -> u8 {
        (self.next() & 0xff) as u8
    }

    /// The next number from 0 to `limit` - 1.
    pub(crate) fn below(&mut self, limit: u16) -> u16
        requires { 0 < limit }
        ensures { result < limit }
    {
        (self.next() % u64::from(limit)) as u16
    }

    /// Draws whether something happens that happens in one of `count` cases.
    pub(crate) fn is_one_in(&mut self, count: u16) -> bool
        requires { 0 < count }
    {
        self.below(count) == 0
    }

    /// The size of a layer 3 message in octets: 251 in one of 64 cases, else 3 to 40.
    pub(crate) fn message_size(&mut self) -> usize
        ensures { result ≤ 251 }
    {
        if self.is_one_in(64) {
            251
        } else {
            usize::from(3 + self.below(38))
        }
    }

    /// Fills `octets` with drawn octets.
    pub(crate) fn fill(&mut self, octets: &mut [u8]) {
        let mut word = 0;
        for (place, octet) in octets.iter_mut().enumerate() {
            if place % 8 == 0 {
                word = self.next();
            }
            *octet = (word & 0xff) as u8;
            word >>= 8;
        }
    }
}
