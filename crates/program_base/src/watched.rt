// SPDX-License-Identifier: MIT OR Apache-2.0
ghost use Rattle.std.specs.Prelude.{◌<◌, IfSome, length};

use crate::complaint::{Complaint, complaint_of};
use memchr::{memchr, memrchr};
use std::alloc::Global;
use std::io::{self, ErrorKind, Read, Write};

/// An input that remembers whether its device failed. It also remembers the octets of its last
/// read, from the beginning of the line in which that read began.
#[derive(Drop)]
pub struct WatchedInput<'a, R> {
    input: &'a mut R,
    octets: Vec<u8>,
    /// The number of octets at the end of `octets` that belong to a line whose line feed hasn't
    /// been read.
    started: usize,
    /// The number of lines before `octets`; `None` after an allocation failure.
    lines: Option<u64>,
    has_failed: bool,
}

impl<'a, R: Read> WatchedInput<'a, R> {
    pub fn new(alloc: Global, input: &'a mut R) -> WatchedInput<'a, R> {
        WatchedInput {
            input,
            octets: Vec::new(alloc),
            started: 0,
            lines: Some(0),
            has_failed: false,
        }
    }

    /// Whether the device failed in the last read that answered an error. An interruption and an
    /// allocation failure don't count as failures of the device.
    pub fn has_failed(&self) -> bool {
        self.has_failed
    }

    /// The number, from 1, of the first remembered line that isn't the text of an event, and what
    /// is wrong with it. `None` if there is no such line, or after an allocation failure.
    pub fn bad_line(&self, cells: u16) -> Option<(u64, Complaint)> {
        let mut number = self.lines?;
        let mut rest = self.octets.as_slice();
        while let Some((line, others)) = split_line(rest) {
            number = number.saturating_add(1);
            if let Some(complaint) = complaint_of(cells, line) {
                return Some((number, complaint));
            }
            rest = others;
        }
        if rest.is_empty() {
            return None;
        }
        let complaint = complaint_of(cells, rest)?;
        Some((number.saturating_add(1), complaint))
    }

    /// Remembers the octets of `block`, and forgets the lines that ended before it. If a line spans
    /// several blocks, only the new octets are searched for its line feed.
    fn remember(&mut self, block: &[u8]) {
        self.forget_ended();
        match self.octets.extend_from_slice(block) {
            Ok(()) => self.started = behind_feed(block).unwrap_or(self.octets.len()),
            Err(_) => self.lines = None,
        }
    }

    /// Forgets the lines that have ended.
    fn forget_ended(&mut self) {
        let ended = self.octets.len().saturating_sub(self.started);
        if ended == 0 {
            return;
        }
        let count = lines_in(&self.octets[..ended]);
        self.lines = self.lines.map(|lines| lines.saturating_add(count));
        self.octets.drain(..ended);
    }
}

/// The number of octets after the last line feed; `None` if there is no line feed.
fn behind_feed(octets: &[u8]) -> Option<usize> {
    let place = memrchr(b'\n', octets)?;
    Some(octets.len() - (place + 1))
}

/// The first line of the octets, and the octets after that line's feed; `None` if there is no line
/// feed.
fn split_line(octets: &[u8]) -> Option<(&[u8], &[u8])>
    ensures { IfSome result (λ parts. length parts.1.now < length octets.now) }
{
    let end = memchr(b'\n', octets)?;
    Some((&octets[..end], &octets[end + 1..]))
}

/// How many lines end in these octets.
fn lines_in(octets: &[u8]) -> u64 {
    let mut count = 0_u64;
    for octet in octets {
        if *octet == b'\n' {
            count = count.saturating_add(1);
        }
    }
    count
}

impl<R: Read> Read for WatchedInput<'_, R> {
    fn read(&mut self, room: &mut [u8]) -> io::Result<usize> {
        match self.input.read(room) {
            Ok(count) => {
                self.remember(&room[..count]);
                Ok(count)
            }
            Err(error) => {
                self.has_failed = is_of_device(error.kind());
                Err(error)
            }
        }
    }
}

/// An output that remembers whether its device failed.
#[derive(Drop)]
pub struct WatchedOutput<'a, W> {
    output: &'a mut W,
    has_failed: bool,
}

impl<'a, W: Write> WatchedOutput<'a, W> {
    pub fn new(output: &'a mut W) -> WatchedOutput<'a, W> {
        WatchedOutput {
            output,
            has_failed: false,
        }
    }

    /// Whether the device failed in a write or a flush. A write that takes nothing counts as a
    /// failure; an interruption and an allocation failure don't count.
    pub fn has_failed(&self) -> bool {
        self.has_failed
    }
}

impl<W: Write> Write for WatchedOutput<'_, W> {
    #[inline]
    fn write(&mut self, octets: &[u8]) -> io::Result<usize> {
        match self.output.write(octets) {
            Ok(count) => {
                self.has_failed = self.has_failed || (count == 0 && !octets.is_empty());
                Ok(count)
            }
            Err(error) => {
                self.has_failed = self.has_failed || is_of_device(error.kind());
                Err(error)
            }
        }
    }

    fn flush(&mut self) -> io::Result<()> {
        match self.output.flush() {
            Ok(()) => Ok(()),
            Err(error) => {
                self.has_failed = self.has_failed || is_of_device(error.kind());
                Err(error)
            }
        }
    }
}

/// Whether an error of this kind is a device's failure: any but `Interrupted` and `OutOfMemory`.
fn is_of_device(kind: ErrorKind) -> bool {
    match kind {
        ErrorKind::Interrupted | ErrorKind::OutOfMemory => false,
        _ => true,
    }
}
