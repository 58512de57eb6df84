// SPDX-License-Identifier: MIT OR Apache-2.0
ghost use Rattle.link_workers.specs.Gates.{HasLet};

use link_workers::{Gate, IoFault, LinkReader};
use octets::Memory;
use std::alloc::Global;
use std::io::{self, ErrorKind, Read, Write};
use std::sync::Arc;
use std::sync::atomic::{AtomicU64, Ordering};
use std::test::Fail;

/// What one call of a device does.
#[derive(Clone, Copy)]
pub(crate) enum Call<'a> {
    /// The device gives these octets, or takes at most as many octets.
    Octets(&'a [u8]),
    Interrupted,
    TimedOut,
    Failed,
}

/// A device whose reads make these calls in order. After the last call, the device is at its end.
#[derive(Drop)]
pub(crate) struct Source<'a> {
    pub calls: &'a [Call<'a>],
    /// The fault that the device was told of.
    pub told: Option<IoFault>,
}

impl<'a> Source<'a> {
    pub fn new(calls: &'a [Call<'a>]) -> Source<'a> {
        Source { calls, told: None }
    }
}

impl Read for Source<'_> {
    fn read(&mut self, buf: &mut [u8]) -> io::Result<usize> {
        let [first, behind @ ..] = self.calls else {
            return Ok(0);
        };
        self.calls = behind;
        match first {
            Call::Octets(octets) => {
                let mut octets = *octets;
                octets.read(buf)
            }
            Call::Interrupted => Err(io::Error::from(ErrorKind::Interrupted)),
            Call::TimedOut => Err(io::Error::from(ErrorKind::TimedOut)),
            Call::Failed => Err(io::Error::from(ErrorKind::ConnectionReset)),
        }
    }
}

impl LinkReader for Source<'_> {
    ghost told = { λ source. source.told };

    fn break_off(&mut self, fault: IoFault) {
        self.told = Some(fault);
    }
}

/// A device that takes one octet at each write, and counts the flushes.
#[derive(Drop)]
pub(crate) struct Sink {
    pub got: Vec<u8>,
    pub flushes: u32,
    pub writes: u64,
    /// The numbers, from 1, of the write that is interrupted, of the write that fails and of the
    /// write that takes nothing; 0 stands for no write.
    pub interrupted: u64,
    pub failed: u64,
    pub idle: u64,
}

impl Sink {
    pub fn new(alloc: Global) -> Sink {
        Sink {
            got: Vec::new(alloc),
            flushes: 0,
            writes: 0,
            interrupted: 0,
            failed: 0,
            idle: 0,
        }
    }
}

impl Write for Sink {
    fn write(&mut self, buf: &[u8]) -> io::Result<usize> {
        self.writes = self.writes.saturating_add(1);
        if self.writes == self.interrupted {
            return Err(io::Error::from(ErrorKind::Interrupted));
        }
        if self.writes == self.failed {
            return Err(io::Error::from(ErrorKind::ConnectionReset));
        }
        if self.writes == self.idle {
            return Ok(0);
        }
        let [first, ..] = buf else {
            return Ok(0);
        };
        if self.got.push(*first).is_err() {
            return Err(io::Error::from(ErrorKind::OutOfMemory));
        }
        Ok(1)
    }

    fn flush(&mut self) -> io::Result<()> {
        self.flushes = self.flushes.saturating_add(1);
        Ok(())
    }
}

/// A gate that refuses `left` times, and is then open.
#[derive(Clone, Copy)]
pub(crate) struct Shut {
    pub left: u32,
    pub refused: u32,
    pub asked: u32,
    /// How many items the gate has let through; `None` once the count overflows.
    pub passed: Option<u32>,
}

impl Gate for Shut {
    ghost refused = { λ gate. gate.refused };

    ghost passed = { λ gate. gate.passed };

    fn pass(&mut self, _source: u16) -> bool {
        self.asked = self.asked.saturating_add(1);
        if self.left == 0 || self.refused == u32::MAX {
            self.refused = 0;
            self.passed = one_more(self.passed);
            return true;
        }
        self.left -= 1;
        self.refused += 1;
        false
    }
}

/// The count plus one; `None` if the sum overflows or there is no count.
fn one_more(count: Option<u32>) -> Option<u32>
    ensures { HasLet count result 1 }
{
    match count {
        Some(count) => count.checked_add(1),
        None => None,
    }
}

/// A gate that is never shut, and counts how often it was asked.
#[derive(Drop)]
pub(crate) struct Counts {
    pub asked: Arc<AtomicU64, Global>,
}

impl Gate for Counts {
    ghost use Rattle.std.specs.Prelude.{None};

    ghost refused = { λ _. 0 };

    ghost passed = { λ _. None };

    fn pass(&mut self, _source: u16) -> bool {
        self.asked.fetch_add(1, Ordering::SeqCst);
        true
    }
}

/// A device that takes all octets, and counts its flushes for another thread.
#[derive(Drop)]
pub(crate) struct Flushed {
    pub got: Vec<u8>,
    pub flushes: Arc<AtomicU64, Global>,
}

impl Write for Flushed {
    fn write(&mut self, buf: &[u8]) -> io::Result<usize> {
        match self.got.extend_from_slice(buf) {
            Ok(()) => Ok(buf.len()),
            Err(_) => Err(io::Error::from(ErrorKind::OutOfMemory)),
        }
    }

    fn flush(&mut self) -> io::Result<()> {
        self.flushes.fetch_add(1, Ordering::SeqCst);
        Ok(())
    }
}

/// The frame PING.
pub(crate) const PING: &[u8] = &[0x00, 0x01, 0xfe, 0x00];

/// Whether the fault is the expected fault. If no fault was expected, whether there is no fault.
pub(crate) fn is_fault(fault: Option<IoFault>, expected: Option<IoFault>) -> bool {
    match (fault, expected) {
        (None, None) => true,
        (Some(fault), Some(expected)) => fault as u8 == expected as u8,
        _ => false,
    }
}

/// The result of a test whose checks passed: an error if a worker ran out of memory, which doesn't
/// happen with ample memory.
pub(crate) fn ended(fault: Option<IoFault>) -> Result<(), Fail> {
    match fault {
        None => Ok(()),
        Some(IoFault::Memory) => Err(Fail::new("a worker wanted memory")),
        Some(_) => Err(Fail::new("another fault")),
    }
}
