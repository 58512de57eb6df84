// SPDX-License-Identifier: MIT OR Apache-2.0
use station_io::{Clock, Gate, IoFault, LinkReader};
use std::alloc::Global;
use std::io::{self, ErrorKind, Read, Write};
use std::sync::Arc;
use std::sync::atomic::{AtomicU64, Ordering};
use std::thread;
use std::time::Duration;

/// How many octets the writer of each link has got; `ALL` for a writer that failed.
pub(crate) type Got = Arc<[AtomicU64; 3], Global>;

/// The count of a writer that failed, which gets no more octets.
const ALL: u64 = u64::MAX;

/// A device that gives its octets at once, and then is at its end or fails.
#[derive(Drop)]
pub(crate) struct Source {
    pub octets: &'static [u8],
    pub fails: bool,
    /// The fault that the device was told of.
    pub told: Option<IoFault>,
}

impl Read for Source {
    fn read(&mut self, buf: &mut [u8]) -> io::Result<usize> {
        if self.octets.is_empty() && self.fails {
            return Err(io::Error::from(ErrorKind::ConnectionReset));
        }
        self.octets.read(buf)
    }
}

impl LinkReader for Source {
    ghost told = { λ source. source.told };

    fn break_off(&mut self, fault: IoFault) {
        self.told = Some(fault);
    }
}

/// A device that keeps the octets that are written, and fails once it has no room. It counts the
/// octets that it got.
#[derive(Drop)]
pub(crate) struct Sink {
    pub kept: Vec<u8>,
    pub room: usize,
    pub link: usize,
    pub got: Got,
}

impl Sink {
    fn count(&self, octets: u64) {
        if let Some(got) = self.got.get(self.link) {
            got.store(octets, Ordering::SeqCst);
        }
    }
}

impl Write for Sink {
    fn write(&mut self, buf: &[u8]) -> io::Result<usize> {
        let taken = buf.len().min(self.room);
        if taken == 0 {
            self.count(ALL);
            return Err(io::Error::from(ErrorKind::ConnectionReset));
        }
        if self.kept.extend_from_slice(&buf[..taken]).is_err() {
            return Err(io::Error::from(ErrorKind::OutOfMemory));
        }
        self.room -= taken;
        self.count(self.kept.len() as u64);
        Ok(taken)
    }

    fn flush(&mut self) -> io::Result<()> {
        Ok(())
    }
}

/// A gate that holds back a link's items until the writers have got certain numbers of octets. It
/// sleeps a millisecond in each refusal.
#[derive(Drop)]
pub(crate) struct Held<R> {
    pub rt: R,
    pub got: Got,
    /// How many frames are still to pass, and how many octets the writers must have got before.
    pub frames: u32,
    pub frames_after: [u64; 3],
    /// How many octets the writers must have got before the `Down` after the frames passes.
    pub down_after: [u64; 3],
    pub refused: u32,
}

impl<R> Held<R> {
    fn is_open(&self) -> bool {
        let after = if self.frames > 0 {
            &self.frames_after
        } else {
            &self.down_after
        };
        let mut pairs = self.got.iter().zip(after.iter());
        pairs.all(|(got, after)| got.load(Ordering::SeqCst) >= *after)
    }
}

impl<R: std::time::Clock> Gate for Held<R> {
    ghost use Rattle.std.specs.Prelude.{None};

    ghost refused = { λ gate. gate.refused };

    ghost passed = { λ _. None };

    fn pass(&mut self, _source: u16) -> bool {
        if self.is_open() || self.refused == u32::MAX {
            self.refused = 0;
            self.frames = self.frames.saturating_sub(1);
            return true;
        }
        thread::sleep(&self.rt, Duration::from_millis(1));
        self.refused += 1;
        false
    }
}

/// A clock that never moves.
#[derive(Clone, Copy)]
pub(crate) struct Still;

impl Clock for Still {
    ghost told = { λ _. 0 };

    fn elapsed(&mut self) -> u32 {
        0
    }
}
