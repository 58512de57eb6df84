// SPDX-License-Identifier: MIT OR Apache-2.0
// Waits for sockets, and asks whether a peer has left.

use libc::net::{POLLIN, POLLRDHUP, poll};
use libc::types::pollfd;
use std::net::{TcpListener, TcpStream};
use std::os::fd::AsRawFd;

/// The poll request for the next peer that connects.
pub(crate) fn of_peers(listener: &TcpListener) -> pollfd {
    pollfd {
        fd: listener.as_raw_fd(),
        events: POLLIN,
        revents: 0,
    }
}

/// The poll request for the end of a link. Octets that wait to be read don't count.
pub(crate) fn of_end(stream: &TcpStream) -> pollfd {
    pollfd {
        fd: stream.as_raw_fd(),
        events: POLLRDHUP,
        revents: 0,
    }
}

/// Waits until one of these events occurs, at most `milliseconds`. Returns whether an event
/// occurred.
pub(crate) fn wait_for_any(wishes: &mut [pollfd], milliseconds: i32) -> bool {
    poll(wishes, milliseconds) > 0
}

/// Whether the peer has ended the link: after the octets that wait to be read, nothing more
/// arrives.
pub(crate) fn has_ended(stream: &TcpStream) -> bool {
    wait_for_any(&mut [of_end(stream)], 0)
}
