// SPDX-License-Identifier: MIT OR Apache-2.0
use octets::{Memory, Octets};
use run_record::MAX_HEAD;
use std::alloc::Global;

/// The head of the parts of a record.
#[derive(Drop)]
pub(crate) struct Head {
    alloc: Global,
    version: String,
    /// The line of the current part, then the text of the settings.
    pieces: Vec<Octets>,
}

impl Head {
    /// The head of the parts of this record. Fails only if an allocation fails.
    pub(crate) fn new(alloc: Global, version: String, settings: &str) -> Result<Head, Memory> {
        let mut pieces = Vec::new(alloc);
        pieces.push(Octets::new(Vec::new(alloc)))?;
        for piece in settings.as_bytes().chunks(MAX_HEAD) {
            pieces.push(Octets::copy(alloc, piece)?)?;
        }
        Ok(Head {
            alloc,
            version,
            pieces,
        })
    }

    /// The pieces of the head of this part. Fails only if an allocation fails.
    pub(crate) fn of_part(&mut self, part: u32) -> Result<&[Octets], Memory> {
        let line = format!(in self.alloc; "{} part {part}", self.version)?;
        if let Some(first) = self.pieces.get_mut(0) {
            *first = Octets::new(line.into_bytes());
        }
        Ok(self.pieces.as_slice())
    }
}
