// SPDX-License-Identifier: MIT OR Apache-2.0
use octets::Memory;
use std::alloc::Global;

/// A chunk with so many octets is handed over.
pub(crate) const CHUNK: usize = 65536;

/// The room of a new chunk in octets. It grows for a step that needs more.
const ROOM: usize = CHUNK + 8192;

/// Octets on their way to a file.
#[derive(Drop)]
pub(crate) struct Chunk {
    /// The number of the part that the octets belong to, from 1.
    pub(crate) part: u32,
    pub(crate) octets: Vec<u8>,
    /// The packet `Lost`, for a record that ends before these octets. Empty for the first octets
    /// of the first part.
    pub(crate) instead: Vec<u8>,
    /// Whether the record ends with these octets although the run goes on.
    pub(crate) is_last: bool,
}

impl Chunk {
    /// A chunk without octets and without room for any.
    pub(crate) fn empty(alloc: Global) -> Chunk {
        Chunk {
            part: 1,
            octets: Vec::new(alloc),
            instead: Vec::new(alloc),
            is_last: false,
        }
    }

    /// A chunk without octets, with room for them.
    pub(crate) fn new(alloc: Global) -> Result<Chunk, Memory> {
        Ok(Chunk {
            part: 1,
            octets: Vec::with_capacity(alloc, ROOM)?,
            instead: Vec::with_capacity(alloc, 64)?,
            is_last: false,
        })
    }

    /// Drops the octets and keeps their room.
    pub(crate) fn clear(&mut self) {
        self.octets.clear();
        self.instead.clear();
    }
}
