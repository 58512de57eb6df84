// SPDX-License-Identifier: MIT OR Apache-2.0
// Detects a peer that disappeared without closing the link, for example because a cable was pulled.

use libc::net::{
    IPPROTO_TCP, SO_KEEPALIVE, SOL_SOCKET, TCP_KEEPCNT, TCP_KEEPIDLE, TCP_KEEPINTVL,
    TCP_USER_TIMEOUT, setsockopt,
};
use std::io::{self, ErrorKind};
use std::net::TcpStream;
use std::os::fd::AsRawFd;

/// An option of a TCP socket that `std` has no method for.
#[derive(Clone, Copy)]
enum TcpOption {
    /// Whether a silent peer is probed.
    KeepAlive,
    /// The seconds of silence before the first probe.
    KeepIdle,
    /// The seconds between two probes.
    KeepInterval,
    /// The number of unanswered probes after which the link fails.
    KeepCount,
    /// The milliseconds for which sent octets may wait for an acknowledgement.
    UserTimeout,
}

/// Sets the options by which the link fails if its peer has disappeared. A peer that is silent for
/// 30 seconds is probed three times, every ten seconds; if no probe is answered, the link fails.
/// The link also fails if sent octets wait a minute for their acknowledgement. `Err` if an option
/// can't be set.
pub(crate) fn notice_dead_peer(stream: &TcpStream) -> io::Result<()> {
    set(stream, TcpOption::KeepAlive, 1)?;
    set(stream, TcpOption::KeepIdle, 30)?;
    set(stream, TcpOption::KeepInterval, 10)?;
    set(stream, TcpOption::KeepCount, 3)?;
    set(stream, TcpOption::UserTimeout, 60_000)
}

/// Sets an option. `Err` if the system refuses the option; the error doesn't say why.
fn set(stream: &TcpStream, option: TcpOption, value: u32) -> io::Result<()> {
    let (level, name) = match option {
        TcpOption::KeepAlive => (SOL_SOCKET, SO_KEEPALIVE),
        TcpOption::KeepIdle => (IPPROTO_TCP, TCP_KEEPIDLE),
        TcpOption::KeepInterval => (IPPROTO_TCP, TCP_KEEPINTVL),
        TcpOption::KeepCount => (IPPROTO_TCP, TCP_KEEPCNT),
        TcpOption::UserTimeout => (IPPROTO_TCP, TCP_USER_TIMEOUT),
    };
    let mut octets = [0; 16];
    octets[..4].copy_from_slice(&value.to_ne_bytes());
    // The system reads the first four octets, which hold `value`.
    let answer = unsafe { setsockopt(stream.as_raw_fd(), level, name, &octets, 4) };
    match answer {
        0 => Ok(()),
        _ => Err(io::Error::from(ErrorKind::Other)),
    }
}
