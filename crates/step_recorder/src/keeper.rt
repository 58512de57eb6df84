// SPDX-License-Identifier: MIT OR Apache-2.0
use crate::chunk_link::{ChunkEnder, ChunkTaker, chunk_link};
use crate::head::Head;
use crate::plan::RecordPlan;
use crate::record_files::RecordFiles;
use crate::recorder::{Recorder, begun};
use crate::telling::tell_end;
use log::Log;
use octets::Memory;
use std::alloc::Global;
use std::io;
use std::sync::Wait;
use std::thread::{self, JoinHandle, Threads};
use std::time::Clock;

/// Why no record was begun.
#[derive(Debug, Drop)]
pub enum RecordFault {
    /// An allocation failed, or the thread couldn't be started.
    Memory,
    /// The first file couldn't be made.
    File(io::Error),
}

impl From<Memory> for RecordFault {
    fn from(_memory: Memory) -> RecordFault {
        RecordFault::Memory
    }
}

impl From<io::Error> for RecordFault {
    fn from(error: io::Error) -> RecordFault {
        RecordFault::File(error)
    }
}

/// The thread that writes the files of a record.
#[derive(Drop)]
pub struct RecordKeeper {
    thread: JoinHandle<()>,
    ender: ChunkEnder,
}

impl RecordKeeper {
    /// Waits until all octets that were handed over are written, and ends the thread.
    pub fn end<R: Threads>(self, rt: &R) {
        self.ender.end();
        self.thread.join(rt);
    }
}

/// Makes the file of the first part, begins the record there, and starts the thread that writes it.
/// The recorder is for the thread of the controller.
pub fn start<R>(
    rt: R,
    files: HostRuntime,
    alloc: Global,
    plan: RecordPlan,
) -> Result<(Recorder<R>, RecordKeeper), RecordFault>
where
    R: Clock + Log + Threads + Wait + Copy + Drop + Send + 'static,
{
    let RecordPlan {
        stem,
        size,
        version,
        settings,
    } = plan;
    let (giver, taker, ender) = chunk_link(alloc)?;
    let head = Head::new(alloc, version, settings.as_str())?;
    let name = format!(in alloc; "{stem}").map_err(Memory::from)?;
    let recorder = begun(rt, alloc, giver, head, name, size)?;
    let files = RecordFiles::new(files, alloc, stem)?;
    match thread::spawn(&rt, move || keep(&rt, files, taker)) {
        Ok(thread) => Ok((recorder, RecordKeeper { thread, ender })),
        Err(_) => Err(RecordFault::Memory),
    }
}

/// Writes chunks until the recorder has ended, or the record has. Logs why the record ends if a
/// write fails.
fn keep<R: Log + Wait>(rt: &R, mut files: RecordFiles, mut taker: ChunkTaker) {
    for _ in rt.forever() {
        let Some(chunk) = taker.take(rt) else {
            return;
        };
        if let Err(error) = files.write(&chunk) {
            files.end_with(chunk.instead.as_slice());
            if taker.is_first_to_tell() {
                tell_end(rt, files.stem(), files.part(), &error);
            }
            return;
        }
        if chunk.is_last {
            return;
        }
        taker.give_back(chunk);
    }
    unreachable!()
}
