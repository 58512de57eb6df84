// SPDX-License-Identifier: MIT OR Apache-2.0
ghost use Rattle.std.specs.Prelude.{◌≡◌, ◌≢◌, ℕ, ◌++◌, [], Err, IfOk, IfSome};
ghost use Rattle.std.specs.Prelude.{OnOk};
ghost use Rattle.std.specs.Io.KnownBytes.{IsAtEnd};
ghost use Rattle.program_base.specs.WholeScript.{AddsLine, Finishes, HasBadLineAt, IsScript};
ghost use Rattle.program_base.specs.WholeScript.{RefusesLine};
ghost use Rattle.program_io.specs.declared.failure.Failure.TheVariants.{BadEvent};

use crate::line_fault::LineFault;
use crate::script::read_octets;
use memchr::memchr;
use octets::Memory;
use program_io::{Failure, Sink, read_all, room_for};
use std::alloc::Global;
use std::io::Read;
use std::mem;
use world_model::Event;

/// The number of octets that one read asks for.
pub(crate) const BLOCK: usize = 65536;

/// A script that is being read, and its events so far. It is read in blocks, which may end within a
/// line.
#[derive(Drop)]
pub(crate) struct Script {
    alloc: Global,
    pub(crate) cells: u16,
    pub(crate) events: Vec<Event>,
    /// The beginning of a line whose end hasn't been read.
    pub(crate) started: Vec<u8>,
    /// The number of lines that were read. Saturates.
    pub(crate) lines: u64,
}

impl Script {
    pub(crate) fn new(alloc: Global, cells: u16) -> Script
        ensures cells { result.cells ≡ cells }
        ensures events { result.events.items ≡ [] }
        ensures started { result.started.items ≡ [] }
        ensures lines { result.lines ≡ 0 }
    {
        Script {
            alloc,
            cells,
            events: Vec::new(alloc),
            started: Vec::new(alloc),
            lines: 0,
        }
    }

    /// Reads the line whose octets are `started`, followed by `end`.
    fn end_line(&mut self, end: &[u8]) -> Result<(), Failure>
        ensures line { OnOk result
            (AddsLine self.old self.new (self.old.started.items ++ end.now)) }
        ensures started { OnOk result (self.new.started.items ≡ []) }
        ensures bad { (n : ℕ) → result ≡ Err (BadEvent n)
            → RefusesLine self.old (self.old.started.items ++ end.now) n }
    {
        if self.started.is_empty() {
            return self.line(end);
        }
        self.started.extend_from_slice(end).map_err(Memory::from)?;
        let started = mem::replace(&mut self.started, Vec::new(self.alloc));
        self.line(&started)
    }

    /// Reads a whole line. Answers `BadEvent` with the line's number if the line isn't UTF-8 or
    /// isn't the text of an event.
    fn line(&mut self, line: &[u8]) -> Result<(), Failure>
        ensures line { OnOk result (AddsLine self.old self.new line.now) }
        ensures started { self.new.started.items ≡ self.old.started.items }
        ensures bad { (n : ℕ) → result ≡ Err (BadEvent n) → RefusesLine self.old line.now n }
    {
        self.lines = self.lines.saturating_add(1);
        let bad_event = Failure::BadEvent(self.lines);
        match read_octets(self.alloc, self.cells, line) {
            Ok(event) => {
                self.events.push(event).map_err(Memory::from)?;
                Ok(())
            }
            Err(LineFault::BadEvent) => Err(bad_event),
            Err(LineFault::Memory) => Err(Failure::Memory),
        }
    }

    /// Ends the script, and answers its events. The last line may lack its line feed.
    pub(crate) fn finish(mut self) -> Result<Vec<Event>, Failure>
        ensures ok { IfOk result (λ events. Finishes self events.items) }
        ensures bad { (n : ℕ) → result ≡ Err (BadEvent n) →
            (self.started.items ≢ []) × RefusesLine self self.started.items n }
    {
        if !self.started.is_empty() {
            self.end_line(&[])?;
        }
        Ok(self.events)
    }
}

impl Sink for Script {
    ghost use Rattle.std.specs.Prelude.{◌≡◌, ℕ};
    ghost use Rattle.program_base.specs.WholeScript.{Reads, RefusesAt};
    ghost use Rattle.program_io.specs.declared.failure.Failure.TheVariants.{BadEvent};
    ghost use Rattle.program_base.specs.WholeScriptLaws.{reads_nothing, reads_both, refuses_behind};

    type Fault = Failure;

    ghost takes = { λ old octets new. Reads old new octets };

    ghost refuses = { λ old octets new failure.
        (n : ℕ) → failure ≡ BadEvent n → RefusesAt old octets n };

    ghost takes_none = { reads_nothing };

    ghost takes_both = { reads_both };

    ghost refuses_later = { λ old mid new first second failure some refuses.
        λ n is. refuses_behind old mid first second n some (refuses n is) };

    /// Reads the lines that end in this piece, and keeps the octets after the piece's last line
    /// feed.
    fn take(&mut self, piece: &[u8]) -> Result<(), Failure> {
        let mut rest = piece;
        while let Some(end) = memchr(b'\n', rest) {
            self.end_line(&rest[..end])?;
            rest = &rest[end + 1..];
        }
        self.started.extend_from_slice(rest).map_err(Memory::from)?;
        Ok(())
    }
}

/// Reads a script of a world of `cells` cells to its end. The first line that isn't the text of an
/// event ends the read with `BadEvent` and the line's number, from 1. An allocation failure is
/// `Memory`, and a failed read is `Device`.
pub fn read_script<R: Read>(alloc: Global, cells: u16, input: &mut R) -> Result<Vec<Event>, Failure>
    ensures read { OnOk result (IsAtEnd (R.remaining input.new)) }
    ensures events { IfOk result (λ events.
        IfSome (R.remaining input.old) (λ octets. IsScript cells octets events.items)) }
    ensures bad { (n : ℕ)
        → result ≡ Err (BadEvent n) → HasBadLineAt cells (R.remaining input.old) n }
{
    let mut script = Script::new(alloc, cells);
    let mut room = room_for(alloc, BLOCK)?;
    read_all(input, room.as_mut_slice(), &mut script)?;
    script.finish()
}
