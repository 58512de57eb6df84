// SPDX-License-Identifier: MIT OR Apache-2.0
use crate::draw::Draw;
use std::io::{self, Read};

/// A reader that gives octets in pieces of a limited size. With one octet in each piece, it is like
/// a slow link.
#[derive(Drop)]
pub struct Pieces<'a> {
    octets: &'a [u8],
    size: usize,
}

impl<'a> Pieces<'a> {
    /// A reader of these octets, in pieces of at most `size` octets.
    pub fn new(octets: &'a [u8], size: usize) -> Pieces<'a> {
        Pieces { octets, size }
    }
}

impl Read for Pieces<'_> {
    fn read(&mut self, buf: &mut [u8]) -> io::Result<usize> {
        let count = self.octets.len().min(self.size).min(buf.len());
        let (front, back) = self.octets.split_at(count);
        buf[..count].copy_from_slice(front);
        self.octets = back;
        Ok(count)
    }
}
