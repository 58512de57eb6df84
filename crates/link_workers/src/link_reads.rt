// SPDX-License-Identifier: MIT OR Apache-2.0
ghost use Rattle.std.specs.Prelude.{◌≡◌, ◌+◌, ◌<◌, ◌↔◌, IsTrue};
ghost use Rattle.std.specs.Io.{ReadsAtMost};
ghost use Rattle.std.specs.Io.KnownBytes.{ReadConsumes};

use std::io::{self, Read};

/// The largest number of reads of a link. If that many reads don't reach the end of the octets, the
/// link counts as a failed device.
pub(crate) const MOST_READS: u64 = 1 << 40;

/// The number of reads of a link. Only `read` increases the number.
#[derive(Clone, Copy)]
pub(crate) struct LinkReads {
    made: u64,
}

impl LinkReads {
    pub fn none() -> LinkReads
        ensures { result.made ≡ 0 }
    {
        LinkReads { made: 0 }
    }

    /// Whether `MOST_READS` reads were made.
    pub fn is_spent(&self) -> bool
        ensures { IsTrue result ↔ (self.now.made ≡ MOST_READS) }
    {
        self.made == MOST_READS
    }

    /// Reads once into the front of `block` and returns the number of octets that were read. Counts
    /// the read, also if the read fails.
    pub fn read<I: Read>(&mut self, reader: &mut I, block: &mut [u8]) -> io::Result<usize>
        requires { self.old.made < MOST_READS }
        ensures counted { self.new.made ≡ self.old.made + 1 }
        ensures bound { ReadsAtMost result block.new }
        ensures octets { ReadConsumes (I.remaining reader.old) (I.remaining reader.new)
            result block.new }
    {
        self.made += 1;
        reader.read(block)
    }
}
