// SPDX-License-Identifier: MIT OR Apache-2.0
use crate::chunk::Chunk;
use std::alloc::Global;
use std::fs::{File, OpenOptions};
use std::io::{self, ErrorKind, Write};
use std::os::unix::fs::OpenOptionsExt;

/// The permissions of the files: only their owner reads and writes them.
const MODE: u32 = 0o600;

/// The files of a record, of which the last is open.
#[derive(Drop)]
pub(crate) struct RecordFiles {
    files: HostRuntime,
    alloc: Global,
    /// The beginning of the files' names.
    stem: String,
    /// The number of the part whose file is open.
    part: u32,
    file: File,
    /// The length of the open file in octets.
    length: u64,
}

impl RecordFiles {
    /// Makes the file of the first part. Fails if there is one already, or if it can't be made.
    pub(crate) fn new(files: HostRuntime, alloc: Global, stem: String) -> io::Result<RecordFiles> {
        let file = made(&files, alloc, stem.as_str(), 1)?;
        Ok(RecordFiles {
            files,
            alloc,
            stem,
            part: 1,
            file,
            length: 0,
        })
    }

    /// Writes the octets of a chunk, which may begin the file of the next part.
    pub(crate) fn write(&mut self, chunk: &Chunk) -> io::Result<()> {
        let octets = chunk.octets.as_slice();
        if chunk.part == self.part {
            self.file.write_all(octets)?;
            self.length = self.length.saturating_add(octets.len() as u64);
            return Ok(());
        }
        let mut file = made(&self.files, self.alloc, self.stem.as_str(), chunk.part)?;
        file.write_all(octets)?;
        self.file = file;
        self.part = chunk.part;
        self.length = octets.len() as u64;
        Ok(())
    }

    /// After a write that failed: ends the open file before the chunk, with the packet `instead`,
    /// as far as the device permits.
    pub(crate) fn end_with(&mut self, instead: &[u8]) {
        if instead.is_empty() {
            return;
        }
        if self.file.set_len(self.length).is_ok() {
            let _ = self.file.write_all(instead);
        }
    }

    /// The beginning of the files' names.
    pub(crate) fn stem(&self) -> &str {
        self.stem.as_str()
    }

    /// The number of the part whose file is open.
    pub(crate) fn part(&self) -> u32 {
        self.part
    }
}

/// Makes the file of a part, to append to it.
fn made(files: &HostRuntime, alloc: Global, stem: &str, part: u32) -> io::Result<File> {
    let Ok(name) = format!(in alloc; "{stem}-{part}.pcap") else {
        return Err(io::Error::from(ErrorKind::OutOfMemory));
    };
    OpenOptions::new()
        .append(true)
        .create_new(true)
        .mode(MODE)
        .open(files, name.as_str())
}
