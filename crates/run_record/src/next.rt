// SPDX-License-Identifier: MIT OR Apache-2.0
use crate::Stamped;

/// The greatest length of a packet of a record in octets, without the packet's time and lengths.
pub const MAX_PACKET: usize = 32797;

/// Why a packet is refused.
#[derive(Clone, Copy)]
pub enum Fault {
    /// The two lengths of the packet differ, or exceed `MAX_PACKET`.
    Length,
    /// The place of the first octet that differs from what a record would have. Place 0 is the
    /// first octet of the packet's time.
    Octet(usize),
}

/// What octets begin with.
#[derive(Drop)]
pub enum Next {
    /// No octet is left.
    End,
    /// A packet that isn't whole: the octets end before the packet does.
    Cut,
    /// A packet that no record has at this place.
    Wrong(Fault),
    /// The time and the entry of a packet, and the length of the packet in octets, including its
    /// time and lengths.
    Read(Stamped, usize),
}

/// The kind of file that octets are a beginning of.
#[derive(Clone, Copy)]
pub enum Opening {
    /// A record's file with its whole header. Packets follow.
    Record,
    /// A record's file that was cut within its header.
    Cut,
    /// Any other octets.
    Other,
}
