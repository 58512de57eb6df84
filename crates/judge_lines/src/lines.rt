// SPDX-License-Identifier: MIT OR Apache-2.0
ghost use Rattle.std.specs.Prelude.{◌≡◌, ◌-◌, ◌^◌, ◌<◌, ◌≤◌, drop, length, take};
ghost use Rattle.std.specs.Prelude.{IfSome, MatchResult};
ghost use Rattle.memchr.specs.Find.{IsFirstByte, is_byte};
ghost use Rattle.judge_lines.specs.Line.{Reads, line_said};
ghost use Rattle.judge_lines.specs.Lines.{Counts, Feeds, HasNoFeed, Takes, TakesAtEnd};
ghost use Rattle.judge_lines.specs.Lines.{new_lines, place_behind};

use crate::{Line, LineFault, MAX_LINE, read_frame_line};
use bytes::BytesMut;
use memchr::memchr;
use octets::Memory;
use std::alloc::Global;
use std::marker::Model;

/// Splits octets, which arrive in pieces of any size, into lines of frames.
#[derive(Drop)]
pub struct FrameLines {
    alloc: Global,
    buffer: BytesMut,
    /// The number of octets at the front that were searched and have no line feed.
    searched: usize,
    count: u64,
}

impl Model for FrameLines {
    ghost use Rattle.std.specs.Prelude.{◌≤◌, length, take};
    ghost use Rattle.judge_lines.specs.Lines.{HasNoFeed, LinesState};

    ghost Value = { LinesState };

    ghost view = { λ lines. record { octets = lines.buffer.items; count = lines.count } };

    ghost invariant = { λ lines. (lines.searched ≤ length lines.buffer.items)
        × HasNoFeed (take lines.searched lines.buffer.items) };
}

impl FrameLines {
    /// A reader without octets. Allocates nothing.
    pub fn new(alloc: Global) -> FrameLines
        ensures { result ≡ new_lines }
    {
        FrameLines {
            alloc,
            buffer: BytesMut::new(alloc),
            searched: 0,
            count: 0,
        }
    }

    /// Appends the next octets. If the allocation fails, nothing changes.
    pub fn feed(&mut self, piece: &[u8]) -> Result<(), Memory>
        ensures { Feeds self.old piece.now result self.new }
    {
        self.buffer.extend_from_slice(piece)?;
        Ok(())
    }

    /// Takes the next line. `Ok(None)` if the line feed of the line hasn't arrived. `Err` if the
    /// line is refused; a line that is too long is refused before its line feed arrives. Don't ask
    /// for another line after an `Err`.
    pub fn next(&mut self) -> Result<Option<Line>, LineFault>
        ensures { Takes self.old result self.new }
    {
        match self.find_feed() {
            Some(end) => {
                let line = self.take_line(end, end + 1)?;
                Ok(Some(line))
            }
            None => {
                if self.buffer.len() > MAX_LINE {
                    self.count = self.count.saturating_add(1);
                    return Err(LineFault::TooLong);
                }
                Ok(None)
            }
        }
    }

    /// Takes the next line when no more octets come: the last line may lack its line feed.
    /// `Ok(None)` if no octet is left. `Err` if the line is refused. Don't ask for another line
    /// after an `Err`.
    pub fn next_at_end(&mut self) -> Result<Option<Line>, LineFault>
        ensures { TakesAtEnd self.old result self.new }
    {
        match self.next()? {
            Some(line) => Ok(Some(line)),
            None => self.take_rest(),
        }
    }

    /// The number of lines taken so far, including a refused line. The number saturates.
    pub fn count(&self) -> u64
        ensures { result ≡ self.now.count }
    {
        self.count
    }

    /// The place of the first line feed; `None` if there is no line feed.
    fn find_feed(&mut self) -> Option<usize>
        ensures first { IsFirstByte (is_byte 10) self.old.octets result }
        ensures bound { IfSome result (λ end. end < 2 ^ 64 - 1) }
        ensures same { self.new ≡ self.old }
    {
        let unsearched = &self.buffer.as_slice()[self.searched..];
        match memchr(b'\n', unsearched) {
            Some(end) => Some(self.searched + end),
            None => {
                self.searched = self.buffer.len();
                None
            }
        }
    }

    /// Takes the remaining octets as the last line. `Ok(None)` if no octet is left.
    fn take_rest(&mut self) -> Result<Option<Line>, LineFault>
        requires { HasNoFeed self.old.octets }
        ensures { TakesAtEnd self.old result self.new }
    {
        let size = self.buffer.len();
        if size == 0 {
            return Ok(None);
        }
        let line = self.take_line(size, size)?;
        Ok(Some(line))
    }

    /// Reads the first `size` octets as a line. Drops the first `end` octets unless the line is
    /// refused.
    fn take_line(&mut self, size: usize, end: usize) -> Result<Line, LineFault>
        requires { (size ≤ end) × (end ≤ length self.old.octets) }
        ensures said { Reads result
            (line_said (place_behind self.old.count) (take size self.old.octets)) }
        ensures counted { Counts self.old self.new }
        ensures left { MatchResult result (λ _. self.new.octets ≡ drop end self.old.octets)
            (λ _. self.new.octets ≡ self.old.octets) }
    {
        self.count = self.count.saturating_add(1);
        let octets = self.buffer.as_slice();
        let line = read_frame_line(self.alloc, self.count, &octets[..size])?;
        self.buffer.advance(end);
        self.searched = 0;
        Ok(line)
    }
}
