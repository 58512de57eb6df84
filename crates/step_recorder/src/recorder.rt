// SPDX-License-Identifier: MIT OR Apache-2.0
use crate::chunk::{CHUNK, Chunk};
use crate::chunk_link::ChunkGiver;
use crate::head::Head;
use crate::step_writer::{StepWriter, Unrecorded};
use crate::telling::tell_end;
use conn_messages::Outputs;
use controller_model::Step;
use log::Log;
use octets::Memory;
use ruled_relay::What;
use run_record::Stamp;
use std::alloc::Global;
use std::mem;
use std::time::{Clock, Duration};

/// Why a record ends: no chunk is free.
const TOO_SLOW: &str = "the device is too slow";

/// Why a record ends: an allocation failed, or a link's number exceeds 255.
const NO_MEMORY: &str = "out of memory";

/// Encodes the steps of a controller, and hands the octets to the thread that writes them. It never
/// waits for that thread. If no chunk is free, or an allocation fails, the record ends.
#[derive(Drop)]
pub struct Recorder<R> {
    rt: R,
    alloc: Global,
    writer: StepWriter,
    head: Head,
    /// A part with so many octets is full.
    size: u64,
    /// How many octets of the current part were handed over.
    handed: u64,
    /// The octets that aren't handed over yet.
    chunk: Chunk,
    giver: ChunkGiver,
    /// The beginning of the files' names.
    stem: String,
    /// Whether the record has ended.
    is_over: bool,
}

/// A new recorder, which has begun part 1 and handed its head over. Fails only if an allocation
/// fails.
pub(crate) fn begun<R: Clock + Log + Drop>(
    rt: R,
    alloc: Global,
    giver: ChunkGiver,
    head: Head,
    stem: String,
    size: u64,
) -> Result<Recorder<R>, Memory> {
    let chunk = Chunk::new(alloc)?;
    let mut recorder = Recorder {
        rt,
        alloc,
        writer: StepWriter::new(alloc),
        head,
        size,
        handed: 0,
        chunk,
        giver,
        stem,
        is_over: false,
    };
    match recorder.begin_part() {
        Ok(()) => {
            recorder.hand_over();
            Ok(recorder)
        }
        Err(Unrecorded) => Err(Memory),
    }
}

impl<R: Clock + Log> Recorder<R> {
    /// Records a step, and the frames that it puts.
    pub fn see_step(&mut self, step: &Step, outputs: &Outputs) {
        if self.is_over {
            return;
        }
        let now = self.now();
        match self.writer.step(now, step, outputs, &mut self.chunk.octets) {
            Ok(()) => self.go_on(is_awaited(step)),
            Err(_) => self.end(NO_MEMORY),
        }
    }

    /// The time. If the system gives none, it is that of the preceding entry.
    fn now(&self) -> Stamp {
        match self.rt.since_1970() {
            Ok(passed) => stamp_of(passed),
            Err(_) => Stamp {
                seconds: 0,
                microseconds: 0,
            },
        }
    }

    /// After a step: hands the octets over if they fill a chunk or are awaited, and begins the next
    /// part if this one is full.
    fn go_on(&mut self, is_awaited: bool) {
        let length = self.chunk.octets.len();
        if self.handed.saturating_add(length as u64) >= self.size {
            self.begin_next_part();
        } else if is_awaited || length >= CHUNK {
            self.hand_over();
        }
    }

    /// Hands the octets over.
    fn hand_over(&mut self) {
        match self.giver.next() {
            Some(next) => {
                self.give(next);
                self.mark();
            }
            None => self.end(TOO_SLOW),
        }
    }

    /// Hands the octets over, and goes on with an empty chunk.
    fn give(&mut self, mut next: Chunk) {
        next.part = self.chunk.part;
        let chunk = mem::replace(&mut self.chunk, next);
        self.handed = self.handed.saturating_add(chunk.octets.len() as u64);
        if !self.giver.give(chunk) {
            self.is_over = true;
        }
    }

    /// Puts the packet that ends the record here beside the empty chunk.
    fn mark(&mut self) {
        if self.writer.lost(&mut self.chunk.instead).is_err() {
            self.chunk.instead.clear();
        }
    }

    /// Hands the octets over, and begins the next part.
    fn begin_next_part(&mut self) {
        match self.giver.next() {
            Some(next) => {
                self.give(next);
                self.mark();
                self.chunk.part = self.chunk.part.saturating_add(1);
                self.handed = 0;
                if self.begin_part().is_err() {
                    self.chunk.octets.clear();
                    self.chunk.part = self.chunk.part.saturating_sub(1);
                    self.give_last(NO_MEMORY);
                }
            }
            None => self.end(TOO_SLOW),
        }
    }

    /// Puts the head of the current part into the empty chunk.
    fn begin_part(&mut self) -> Result<(), Unrecorded> {
        let now = self.now();
        let pieces = self.head.of_part(self.chunk.part)?;
        self.writer.begin(now, pieces, &mut self.chunk.octets)
    }

    /// Ends the record here.
    fn end(&mut self, reason: &str) {
        let length = self.chunk.octets.len();
        if self.writer.lost(&mut self.chunk.octets).is_err() {
            self.chunk.octets.truncate(length);
        }
        self.give_last(reason);
    }

    /// Hands over the last octets of the record, and logs why they are the last.
    fn give_last(&mut self, reason: &str) {
        if self.giver.is_first_to_tell() {
            tell_end(&self.rt, self.stem.as_str(), self.chunk.part, &reason);
        }
        self.chunk.is_last = true;
        let chunk = mem::replace(&mut self.chunk, Chunk::empty(self.alloc));
        self.giver.give(chunk);
        self.is_over = true;
    }
}

/// Whether the octets are handed over after this step, even if they are few: after a tick, so that
/// they are on disk within a second, and after the end of a link, as the relay may end then.
fn is_awaited(step: &Step) -> bool {
    match step {
        Step::Tick(_) => true,
        Step::Take(item) => matches!(item.what, What::Down),
    }
}

fn stamp_of(passed: Duration) -> Stamp {
    Stamp {
        seconds: (passed.as_secs() % 4294967296) as u32,
        microseconds: passed.subsec_micros(),
    }
}
