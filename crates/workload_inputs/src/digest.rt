// SPDX-License-Identifier: MIT OR Apache-2.0
use std::io::{self, Write};

/// A digest of all octets that are written to it (FNV-1a, 64 bits). The sizes of the pieces don't
/// matter.
#[derive(Clone, Copy)]
pub struct Digest {
    sum: u64,
}

impl Digest {
    /// The digest of no octets.
    pub fn new() -> Digest {
        Digest {
            sum: 0xcbf2_9ce4_8422_2325,
        }
    }

    /// Takes octets into the digest.
    pub fn add(&mut self, octets: &[u8]) {
        for octet in octets {
            self.sum = (self.sum ^ u64::from(*octet)).wrapping_mul(0x0100_0000_01b3);
        }
    }

    /// Takes a number into the digest, as eight octets, the most significant first.
    pub fn add_number(&mut self, number: u64) {
        self.add(&number.to_be_bytes());
    }

    /// The digest of all octets that were taken in.
    pub fn sum(&self) -> u64 {
        self.sum
    }
}

impl Write for Digest {
    fn write(&mut self, buf: &[u8]) -> io::Result<usize> {
        self.add(buf);
        Ok(buf.len())
    }

    fn flush(&mut self) -> io::Result<()> {
        Ok(())
    }
}
