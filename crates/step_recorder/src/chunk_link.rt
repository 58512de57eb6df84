// SPDX-License-Identifier: MIT OR Apache-2.0
// The queue of chunks between the two threads, and the way back for chunks that were written.

use crate::chunk::Chunk;
use octets::Memory;
use rtrb::{Consumer, Producer, RingBuffer};
use std::alloc::Global;
use std::sync::atomic::{AtomicBool, Ordering};
use std::sync::{Arc, Wait};
use std::thread::Parker;
use std::time::Duration;

/// The number of chunks, including the one that is being filled. The queues have room for all.
const CHUNKS: usize = 256;

/// The longest time, in milliseconds, between two looks for chunks.
const LOOK: u64 = 1000;

/// What the two threads share.
#[derive(Drop)]
struct Shared {
    parker: Parker,
    has_ended: AtomicBool,
    /// Whether one of the threads has logged that the record ends.
    has_told: AtomicBool,
}

impl Shared {
    /// Whether nobody has asked this before.
    fn is_first_to_tell(&self) -> bool {
        !self.has_told.swap(true, Ordering::SeqCst)
    }
}

/// A handle that ends the thread of the `ChunkTaker`.
#[derive(Drop)]
pub(crate) struct ChunkEnder {
    shared: Arc<Shared, Global>,
}

impl ChunkEnder {
    /// No more chunks are to be handed over.
    pub(crate) fn end(&self) {
        self.shared.has_ended.store(true, Ordering::SeqCst);
        self.shared.parker.unpark();
    }
}

/// The end that hands over full chunks.
#[derive(Drop)]
pub(crate) struct ChunkGiver {
    full: Producer<Chunk>,
    written: Consumer<Chunk>,
    /// Chunks that weren't used yet, or that came back.
    spare: Vec<Chunk>,
    shared: Arc<Shared, Global>,
}

impl ChunkGiver {
    /// An empty chunk, if there is one. A chunk that was written lately comes first.
    pub(crate) fn next(&mut self) -> Option<Chunk> {
        match self.written.pop() {
            Ok(chunk) => Some(chunk),
            Err(_) => self.spare.pop(),
        }
    }

    /// Hands a chunk over. Returns false if it isn't taken any more.
    pub(crate) fn give(&mut self, chunk: Chunk) -> bool {
        let given = self.full.push(chunk).is_ok();
        self.shared.parker.unpark();
        given && !self.full.is_abandoned()
    }

    /// Whether this thread is the first that is to log the end of the record.
    pub(crate) fn is_first_to_tell(&self) -> bool {
        self.shared.is_first_to_tell()
    }
}

/// The end that takes full chunks.
#[derive(Drop)]
pub(crate) struct ChunkTaker {
    full: Consumer<Chunk>,
    written: Producer<Chunk>,
    shared: Arc<Shared, Global>,
}

impl ChunkTaker {
    /// The next chunk. Waits for it, and returns `None` once the other end has ended.
    pub(crate) fn take<R: Wait>(&mut self, rt: &R) -> Option<Chunk> {
        for _ in rt.forever() {
            let has_ended = self.shared.has_ended.load(Ordering::SeqCst);
            if let Ok(chunk) = self.full.pop() {
                return Some(chunk);
            }
            if has_ended {
                return None;
            }
            self.shared
                .parker
                .park_timeout(rt, Duration::from_millis(LOOK));
        }
        unreachable!()
    }

    /// Whether this thread is the first that is to log the end of the record.
    pub(crate) fn is_first_to_tell(&self) -> bool {
        self.shared.is_first_to_tell()
    }

    /// Gives a chunk back, to be filled again.
    pub(crate) fn give_back(&mut self, mut chunk: Chunk) {
        chunk.clear();
        let _ = self.written.push(chunk);
    }
}

/// The ends of a queue, and a handle that ends it. Fails only if an allocation fails.
pub(crate) fn chunk_link(alloc: Global) -> Result<(ChunkGiver, ChunkTaker, ChunkEnder), Memory> {
    let shared = Arc::new(
        alloc,
        Shared {
            parker: Parker::new(),
            has_ended: AtomicBool::new(false),
            has_told: AtomicBool::new(false),
        },
    )?;
    let spare = spare_chunks(alloc)?;
    let (full_in, full_out) = RingBuffer::new(alloc, CHUNKS)?;
    let (written_in, written_out) = RingBuffer::new(alloc, CHUNKS)?;
    let giver = ChunkGiver {
        full: full_in,
        written: written_out,
        spare,
        shared: Arc::try_clone(&shared)?,
    };
    let taker = ChunkTaker {
        full: full_out,
        written: written_in,
        shared: Arc::try_clone(&shared)?,
    };
    Ok((giver, taker, ChunkEnder { shared }))
}

/// All chunks but the first one that is filled.
fn spare_chunks(alloc: Global) -> Result<Vec<Chunk>, Memory> {
    let mut spare = Vec::with_capacity(alloc, CHUNKS)?;
    for _ in 1..CHUNKS {
        spare.push(Chunk::new(alloc)?)?;
    }
    Ok(spare)
}
