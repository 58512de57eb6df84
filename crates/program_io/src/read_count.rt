// SPDX-License-Identifier: MIT OR Apache-2.0
ghost use Rattle.std.specs.Prelude.{◌≡◌, ◌+◌, ◌^◌, ◌-◌, ◌<◌};
ghost use Rattle.std.specs.Io.{ReadsAtMost};
ghost use Rattle.std.specs.Io.KnownBytes.{ReadConsumes};

use std::io::{self, Read};

/// The number of reads of an input. Only `read` increases the number.
#[derive(Drop)]
pub struct ReadCount {
    made: u64,
}

impl ReadCount {
    pub fn none() -> ReadCount
        ensures { result.made ≡ 0 }
    {
        ReadCount { made: 0 }
    }

    /// Reads once into the front of `block` and returns the number of octets that were read. Counts
    /// the read, also if the read fails.
    pub fn read<R: Read>(&mut self, input: &mut R, block: &mut [u8]) -> io::Result<usize>
        requires { self.old.made < 2 ^ 64 - 1 }
        ensures counted { self.new.made ≡ self.old.made + 1 }
        ensures bound { ReadsAtMost result block.new }
        ensures octets { ReadConsumes (R.remaining input.old) (R.remaining input.new)
            result block.new }
    {
        self.made += 1;
        input.read(block)
    }
}
