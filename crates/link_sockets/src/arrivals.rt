// SPDX-License-Identifier: MIT OR Apache-2.0
// Waits for the stations: accepts the peers that connect to the cells' ports, and decides which
// peer has the link of a cell.

use crate::fault::RunFault;
use crate::line::log_line;
use crate::readiness::{has_ended, of_end, of_peers, wait_for_any};
use crate::stopwatch::Stopwatch;
use controller_worker::Clock as _;
use libc::types::pollfd;
use log::{Level, Log};
use std::alloc::Global;
use std::fmt;
use std::io::{self, ErrorKind};
use std::net::{Shutdown, SocketAddr, TcpListener, TcpStream};
use std::time::Clock;

/// The interval, in milliseconds, at which the log names the cells without a station.
const REMINDER: u32 = 10_000;

/// The largest number of looks for arriving stations. No wait needs so many looks.
const MOST_LOOKS: u64 = 1 << 40;

const SWITCH_ENDED: &str = "switch: link closed: no call can be set up until bsc is started again";

/// The port of a cell, and the link of the cell's station once the station has connected.
#[derive(Drop)]
pub(crate) struct Port {
    listener: TcpListener,
    arrived: Option<Arrival>,
    /// A later link from the same address, for example of a restarted station or of a probe.
    newer: Option<Arrival>,
}

/// A link that was accepted, and its peer.
#[derive(Drop)]
pub(crate) struct Arrival {
    pub(crate) stream: TcpStream,
    pub(crate) peer: SocketAddr,
}

/// Waits until each cell has the link of its station. `ports` has the ports of the cells, in order.
///
/// The first peer that connects to a cell's port has the cell's link until the peer leaves. If a
/// peer at the same address connects again, as a restarted station does, the latest link from this
/// address that is still open counts. Meanwhile peers at other addresses are refused.
///
/// `Device`: the switch's link has ended, a port can't accept peers any more, or 2^40 looks weren't
/// enough. `Memory`: an allocation failed.
pub(crate) fn await_stations<R: Log + Clock + Copy + Drop>(
    rt: &R,
    alloc: Global,
    ports: &mut [Port],
    switch: &TcpStream,
) -> Result<(), RunFault> {
    let mut reminder = Reminder::new(*rt);
    for _ in 0..MOST_LOOKS {
        look_at_all(rt, ports)?;
        if has_ended(switch) {
            log_line(rt, Level::Error, SWITCH_ENDED);
            return Err(RunFault::Device);
        }
        if ports.iter().all(|port| port.arrived.is_some()) {
            return Ok(());
        }
        let left = reminder.remind(rt, ports);
        wait(alloc, ports, switch, left)?;
    }
    Err(RunFault::Device)
}

/// Reminds the operator of the cells without a station.
#[derive(Drop)]
struct Reminder<R> {
    clock: Stopwatch<R>,
    /// The milliseconds since the log last named the cells without a station.
    waited: u32,
}

impl<R: Log + Clock> Reminder<R> {
    fn new(rt: R) -> Reminder<R> {
        Reminder {
            clock: Stopwatch::new(rt),
            waited: 0,
        }
    }

    /// Logs the cells without a station if `REMINDER` milliseconds have passed since the last such
    /// line, or since the start. Returns the milliseconds until the next such line, at most 10,000.
    fn remind(&mut self, rt: &R, ports: &[Port]) -> i32 {
        self.waited = self.waited.saturating_add(self.clock.elapsed());
        if self.waited >= REMINDER {
            self.waited = 0;
            log_line(
                rt,
                Level::Info,
                format_args!("waiting for the stations of {}", Missing(ports)),
            );
        }
        (REMINDER - self.waited) as i32
    }
}

/// The cells without a station, printed as `cells 2, 5`.
#[derive(Drop)]
struct Missing<'a>(&'a [Port]);

impl fmt::Display for Missing<'_> {
    fn fmt<W: fmt::Write>(&self, f: &mut fmt::Formatter<W>) -> fmt::Result {
        let mut before = "cells";
        for (place, port) in self.0.iter().enumerate() {
            if port.arrived.is_none() {
                write!(f, "{before} {}", place + 1)?;
                before = ",";
            }
        }
        Ok(())
    }
}

/// Waits until a peer connects to a port or a link ends, at most `milliseconds`.
fn wait(
    alloc: Global,
    ports: &[Port],
    switch: &TcpStream,
    milliseconds: i32,
) -> Result<(), RunFault> {
    let mut wishes = Vec::new(alloc);
    wishes.push(of_end(switch))?;
    for port in ports {
        port.add_wishes(&mut wishes)?;
    }
    wait_for_any(&mut wishes, milliseconds);
    Ok(())
}

/// Looks at each port once.
fn look_at_all<R: Log>(rt: &R, ports: &mut [Port]) -> Result<(), RunFault> {
    for (place, port) in ports.iter_mut().enumerate() {
        port.look(rt, place + 1)?;
    }
    Ok(())
}

impl Port {
    /// The port of a listener to which no peer has connected yet.
    pub(crate) fn new(listener: TcpListener) -> Port {
        Port {
            listener,
            arrived: None,
            newer: None,
        }
    }

    /// Adds to `wishes` the poll requests for the next peer and for the end of each accepted link.
    fn add_wishes(&self, wishes: &mut Vec<pollfd>) -> Result<(), RunFault> {
        wishes.push(of_peers(&self.listener))?;
        for arrival in self.arrived.iter().chain(&self.newer) {
            wishes.push(of_end(&arrival.stream))?;
        }
        Ok(())
    }

    /// The listener, and the station's link, if there is one. If the port has two links, refuses
    /// the older link.
    pub(crate) fn into_parts<R: Log>(
        self,
        rt: &R,
        number: usize,
    ) -> (TcpListener, Option<Arrival>) {
        let Port {
            listener,
            arrived,
            newer,
        } = self;
        match (arrived, newer) {
            (Some(older), Some(newer)) => {
                refuse(rt, number, &older);
                (listener, Some(newer))
            }
            (arrived, _) => (listener, arrived),
        }
    }

    /// Drops the links whose peer has left, and accepts the next peer if a peer waits. `Err` if the
    /// port can't accept peers any more.
    fn look<R: Log>(&mut self, rt: &R, number: usize) -> Result<(), RunFault> {
        drop_ended(rt, number, &mut self.newer);
        drop_ended(rt, number, &mut self.arrived);
        if self.arrived.is_none() {
            self.arrived = self.newer.take();
        }
        match self.listener.accept() {
            Ok((stream, peer)) => {
                self.see_to(rt, number, Arrival { stream, peer });
                Ok(())
            }
            Err(error) if is_passing(&error) => Ok(()),
            Err(error) => {
                log_line(
                    rt,
                    Level::Error,
                    format_args!("cell {number}: cannot accept a link: {error}"),
                );
                Err(RunFault::from(error))
            }
        }
    }

    /// Takes the link `next`, or refuses it if the cell has a link from another address. If the
    /// cell has a link from the same address, `next` becomes the newer link, and the newer link so
    /// far, if any, is refused.
    fn see_to<R: Log>(&mut self, rt: &R, number: usize, next: Arrival) {
        match &self.arrived {
            Some(older) if older.peer.ip() != next.peer.ip() => refuse(rt, number, &next),
            Some(_) => {
                tell_of(rt, number, &next);
                if let Some(between) = self.newer.replace(next) {
                    refuse(rt, number, &between);
                }
            }
            None => {
                tell_of(rt, number, &next);
                self.arrived = Some(next);
            }
        }
    }
}

/// Logs that a link was accepted.
fn tell_of<R: Log>(rt: &R, number: usize, arrival: &Arrival) {
    log_line(
        rt,
        Level::Info,
        format_args!("cell {number}: connected from {}", arrival.peer),
    );
}

/// Drops the link `arrived` if its peer has left, and logs that the link was closed.
fn drop_ended<R: Log>(rt: &R, number: usize, arrived: &mut Option<Arrival>) {
    let Some(arrival) = arrived else {
        return;
    };
    if has_ended(&arrival.stream) {
        log_line(
            rt,
            Level::Warn,
            format_args!(
                "cell {number} ({}): link closed before anything was relayed",
                arrival.peer
            ),
        );
        *arrived = None;
    }
}

/// Shuts the link of a peer that connected to a cell's port, and logs that the peer was refused.
pub(crate) fn refuse<R: Log>(rt: &R, number: usize, arrival: &Arrival) {
    let _ = arrival.stream.shutdown(Shutdown::Both);
    log_line(
        rt,
        Level::Warn,
        format_args!(
            "cell {number}: refused {}: the cell has its link",
            arrival.peer
        ),
    );
}

/// Whether accepting a peer can succeed later: no peer was waiting, or accepting failed only this
/// time.
pub(crate) fn is_passing(error: &io::Error) -> bool {
    matches!(
        error.kind(),
        ErrorKind::WouldBlock
            | ErrorKind::Interrupted
            | ErrorKind::ConnectionAborted
            | ErrorKind::ConnectionReset
            | ErrorKind::TimedOut
            | ErrorKind::HostUnreachable
            | ErrorKind::NetworkUnreachable
            | ErrorKind::NetworkDown
    )
}
