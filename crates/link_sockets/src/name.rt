// SPDX-License-Identifier: MIT OR Apache-2.0
ghost use Rattle.std.specs.Prelude.{◌≡◌};
ghost use Rattle.link_sockets.specs.Naming.{name_of};

use std::fmt;
use std::net::SocketAddr;

/// The name of a link in the log.
#[derive(Clone, Copy)]
pub enum LinkName {
    /// The link to the switch.
    Switch,
    /// The link of a cell's station, with the cell's number, counted from 1, and the station's
    /// address.
    Cell(usize, SocketAddr),
}

impl LinkName {
    /// The name of the link at `place` to a peer with this address. Place 0 is that of the switch,
    /// place i that of the i-th cell.
    pub fn of_link(place: usize, peer: SocketAddr) -> LinkName
        ensures { result ≡ name_of place peer }
    {
        match place {
            0 => LinkName::Switch,
            number => LinkName::Cell(number, peer),
        }
    }
}

impl fmt::Display for LinkName {
    fn fmt<W: fmt::Write>(&self, f: &mut fmt::Formatter<W>) -> fmt::Result {
        match self {
            LinkName::Switch => write!(f, "switch"),
            LinkName::Cell(number, peer) => write!(f, "cell {number} ({peer})"),
        }
    }
}
