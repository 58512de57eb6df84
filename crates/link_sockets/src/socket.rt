// SPDX-License-Identifier: MIT OR Apache-2.0
ghost use Rattle.std.specs.Prelude.{◌≡◌, IfOk};

use crate::dead_peer::notice_dead_peer;
use crate::fault::RunFault;
use crate::lengths::Lengths;
use crate::line::log_line;
use crate::name::LinkName;
use crate::other_links::OtherLinks;
use link_workers::{IoFault, LinkReader};
use log::{Level, Log};
use std::alloc::{AllocError, Global};
use std::fmt::Display;
use std::io::{self, ErrorKind, Read, Write};
use std::net::{Shutdown, TcpStream};
use std::sync::Arc;
use std::sync::atomic::{AtomicBool, Ordering};
use std::time::Duration;

/// The seconds for which a write may wait for a peer that takes nothing.
const WRITE_TIMEOUT: u64 = 10;

/// The advice to an operator if the switch's link ends before the stations' links.
const NO_CALLS: &str = ": no call can be set up until bsc is started again";

/// Why writing ends while the peer could still send.
const GIVEN_UP: &str = ": the outbox stayed full, or memory ran out";

/// Why reading ends if the peer has shut its side.
const CLOSED: &str = "link closed";

/// The reading end of a link's socket. Logs when nothing more arrives. `break_off` logs the fault
/// and shuts the socket both ways; the peer then sees the end, and the writer of the same link ends
/// too.
///
/// Once the link is due to end, `read` gives the end of the octets, whatever still arrives. A
/// station's link is due some time after the end of the switch's link, the switch's link once the
/// connection numbers are used up.
#[derive(Drop)]
pub struct ReadingEnd<R> {
    rt: R,
    name: LinkName,
    stream: TcpStream,
    broken: Option<IoFault>,
    lengths: Lengths,
    /// Whether nothing more arrives. The writing end reads this flag.
    at_end: Arc<AtomicBool, Global>,
    others: OtherLinks,
}

/// The writing end of a link's socket. A write that fails is logged and shuts the socket both ways,
/// so that the reader of the same link ends too. `flush` is called after the last frame and shuts
/// the socket too; the log line is a warning if the peer could still send.
#[derive(Drop)]
pub struct WritingEnd<R> {
    rt: R,
    name: LinkName,
    stream: TcpStream,
    /// Whether nothing more arrives from the peer. The reading end sets this flag.
    at_end: Arc<AtomicBool, Global>,
    /// Whether this end has shut the socket.
    shut: bool,
}

/// Makes the two ends of a link's socket. Frames are sent without delay, a write waits ten seconds
/// at most, and a dead peer is detected. `Err` if the socket can't be used or an allocation fails.
pub(crate) fn ends_of<R: Log + Copy>(
    rt: R,
    alloc: Global,
    name: LinkName,
    stream: TcpStream,
    others: OtherLinks,
) -> Result<(ReadingEnd<R>, WritingEnd<R>), RunFault>
    ensures { IfOk result (λ ends. (ends.0.name ≡ name) × (ends.1.name ≡ name)) }
{
    let other = other_of(&stream)?;
    let (at_end, asked) = shared_flag(alloc)?;
    let reading = ReadingEnd {
        rt,
        name,
        stream,
        broken: None,
        lengths: Lengths::new(),
        at_end,
        others,
    };
    let writing = WritingEnd {
        rt,
        name,
        stream: other,
        at_end: asked,
        shut: false,
    };
    Ok((reading, writing))
}

/// Sets the options of a link's socket, and returns a second handle of the socket, for the writing
/// end.
fn other_of(stream: &TcpStream) -> io::Result<TcpStream> {
    stream.set_nodelay(true)?;
    stream.set_write_timeout(Some(Duration::from_secs(WRITE_TIMEOUT)))?;
    notice_dead_peer(stream)?;
    stream.try_clone()
}

/// Two handles of one flag that isn't set.
pub(crate) fn shared_flag(
    alloc: Global,
) -> Result<(Arc<AtomicBool, Global>, Arc<AtomicBool, Global>), AllocError> {
    let flag = Arc::new(alloc, AtomicBool::new(false))?;
    let other = Arc::try_clone(&flag)?;
    Ok((flag, other))
}

impl<R> ReadingEnd<R> {
    /// The name of the link.
    pub fn name(&self) -> LinkName
        ensures { result ≡ self.now.name }
    {
        self.name
    }
}

impl<R: Log> ReadingEnd<R> {
    /// Records that the link has ended, and logs why. Must be called only once for each link. The
    /// line has this level if no other link is open; otherwise it is a warning for a station and an
    /// error for the switch.
    fn end<D: Display + Drop>(&self, level: Level, why: D) {
        let (level, advice) = match (self.name, self.others.end(self.name)) {
            (_, false) => (level, ""),
            (LinkName::Cell(..), true) => (Level::Warn, ""),
            (LinkName::Switch, true) => (Level::Error, NO_CALLS),
        };
        let name = self.name;
        log_line(&self.rt, level, format_args!("{name}: {why}{advice}"));
    }
}

impl<R: Log> Read for ReadingEnd<R> {
    fn read(&mut self, buffer: &mut [u8]) -> io::Result<usize> {
        let read = if self.others.why_over(self.name).is_some() {
            Ok(0)
        } else {
            self.stream.read(buffer)
        };
        match &read {
            Ok(0) => {
                self.at_end.store(true, Ordering::SeqCst);
                let why = self.others.why_over(self.name).unwrap_or(CLOSED);
                self.end(Level::Info, why);
            }
            Ok(count) => self.lengths.pass(&buffer[..*count]),
            Err(error) if error.kind() != ErrorKind::Interrupted => {
                self.at_end.store(true, Ordering::SeqCst);
                log_line(
                    &self.rt,
                    Level::Warn,
                    format_args!("{}: read failed: {error}", self.name),
                );
            }
            _ => {}
        }
        read
    }
}

impl<R: Log> LinkReader for ReadingEnd<R> {
    ghost told = { λ end. end.broken };

    fn break_off(&mut self, fault: IoFault) {
        self.broken = Some(fault);
        self.at_end.store(true, Ordering::SeqCst);
        match (fault, self.lengths.too_long()) {
            (IoFault::FrameFault, Some(length)) => {
                self.end(Level::Warn, format_args!("shut: {fault}: {length} octets"));
            }
            _ => self.end(Level::Warn, format_args!("shut: {fault}")),
        }
        let _ = self.stream.shutdown(Shutdown::Both);
    }
}

impl<R> WritingEnd<R> {
    /// Shuts the socket both ways. Ignores a failure, as when the peer has already closed the link.
    fn shut(&mut self) {
        self.shut = true;
        let _ = self.stream.shutdown(Shutdown::Both);
    }
}

impl<R: Log> Write for WritingEnd<R> {
    fn write(&mut self, octets: &[u8]) -> io::Result<usize> {
        let written = self.stream.write(octets);
        match &written {
            Err(error) if error.kind() != ErrorKind::Interrupted => {
                log_line(
                    &self.rt,
                    Level::Warn,
                    format_args!("{}: write failed: {error}", self.name),
                );
                self.shut();
            }
            _ => {}
        }
        written
    }

    fn flush(&mut self) -> io::Result<()> {
        if !self.shut {
            let (level, why) = if self.at_end.load(Ordering::SeqCst) {
                (Level::Info, "")
            } else {
                (Level::Warn, GIVEN_UP)
            };
            log_line(
                &self.rt,
                level,
                format_args!("{}: shut: nothing more is written{why}", self.name),
            );
            self.shut();
        }
        Ok(())
    }
}
