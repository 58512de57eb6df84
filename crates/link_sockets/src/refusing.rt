// SPDX-License-Identifier: MIT OR Apache-2.0
// While a relay runs, the ports of its cells remain open, so that no other program can take its
// stations. A thread refuses the peers that connect to these ports at once. The same thread ends
// the links that are due to end.

use crate::arrivals::{Arrival, is_passing, refuse};
use crate::endings::Endings;
use crate::fault::RunFault;
use crate::readiness::{of_peers, wait_for_any};
use crate::socket::shared_flag;
use libc::net::{SHUT_RDWR, shutdown};
use libc::types::pollfd;
use log::Log;
use std::alloc::Global;
use std::io;
use std::net::TcpListener;
use std::os::fd::AsRawFd;
use std::sync::Arc;
use std::sync::atomic::{AtomicBool, Ordering};
use std::thread::{self, JoinHandle, Threads};
use std::time::Clock;

/// The largest number of looks for peers. No relay runs for so many looks.
const MOST_LOOKS: u64 = 1 << 40;

/// The thread that refuses peers at the ports of a running relay, and ends links that are due to
/// end.
#[derive(Drop)]
pub(crate) struct Doorkeeper {
    thread: JoinHandle<()>,
    has_ended: Arc<AtomicBool, Global>,
    /// A second handle of the first listener, if there is one. Shutting the listener wakes the
    /// thread.
    door: Option<TcpListener>,
}

impl Doorkeeper {
    /// Starts the thread with the listeners of the cells, in order. `Memory`: an allocation failed,
    /// or a thread couldn't be started. `Device`: a listener couldn't be cloned.
    pub(crate) fn start<R>(
        rt: R,
        alloc: Global,
        listeners: Vec<TcpListener>,
        endings: Endings,
    ) -> Result<Doorkeeper, RunFault>
    where
        R: Log + Clock + Threads + Copy + Send + Drop + 'static,
    {
        let (has_ended, asked) = shared_flag(alloc)?;
        let door = door_of(&listeners)?;
        let doors = Doors::new(alloc, listeners)?;
        match thread::spawn(&rt, move || keep(&rt, doors, endings, &asked)) {
            Ok(thread) => Ok(Doorkeeper {
                thread,
                has_ended,
                door,
            }),
            Err(_) => Err(RunFault::Memory),
        }
    }

    /// Ends the thread and closes the ports.
    pub(crate) fn end<R: Threads>(self, rt: &R) {
        self.has_ended.store(true, Ordering::SeqCst);
        if let Some(door) = &self.door {
            shutdown(door.as_raw_fd(), SHUT_RDWR);
        }
        self.thread.join(rt);
    }
}

/// A second handle of the first listener, if there is one.
fn door_of(listeners: &[TcpListener]) -> io::Result<Option<TcpListener>> {
    match listeners.first() {
        Some(listener) => Ok(Some(listener.try_clone()?)),
        None => Ok(None),
    }
}

/// Refuses peers and ends links until the relay has ended.
fn keep<R: Log + Clock>(rt: &R, mut doors: Doors, mut endings: Endings, has_ended: &AtomicBool) {
    for _ in 0..MOST_LOOKS {
        if has_ended.load(Ordering::SeqCst) {
            return;
        }
        let milliseconds = endings.end_what_is_due(rt);
        doors.refuse_next(rt, milliseconds);
    }
}

/// The listeners of the cells, in order, and for each listener the poll request for its next peer.
#[derive(Drop)]
struct Doors {
    listeners: Vec<TcpListener>,
    wishes: Vec<pollfd>,
    /// Whether accepting at a port failed at the last try.
    is_stuck: bool,
}

impl Doors {
    fn new(alloc: Global, listeners: Vec<TcpListener>) -> Result<Doors, RunFault> {
        let mut wishes = Vec::new(alloc);
        for listener in &listeners {
            wishes.push(of_peers(listener))?;
        }
        Ok(Doors {
            listeners,
            wishes,
            is_stuck: false,
        })
    }

    /// Waits until a peer connects, at most `milliseconds`, and refuses one peer at each port. If
    /// accepting failed at the last try, for example for want of a free descriptor, waits for
    /// `milliseconds` and refuses no peer.
    fn refuse_next<R: Log>(&mut self, rt: &R, milliseconds: i32) {
        if self.is_stuck {
            wait_for_any(&mut [], milliseconds);
            self.is_stuck = false;
        } else if wait_for_any(&mut self.wishes, milliseconds) {
            self.is_stuck = !self.refuse_once(rt);
        }
    }

    /// Refuses one peer at each port where a peer waits. Returns false if accepting fails at a
    /// port; the ports after that port aren't tried then.
    fn refuse_once<R: Log>(&self, rt: &R) -> bool {
        for (place, listener) in self.listeners.iter().enumerate() {
            match listener.accept() {
                Ok((stream, peer)) => refuse(rt, place + 1, &Arrival { stream, peer }),
                Err(error) if is_passing(&error) => {}
                Err(_) => return false,
            }
        }
        true
    }
}
