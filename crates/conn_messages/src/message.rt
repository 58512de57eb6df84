// SPDX-License-Identifier: MIT OR Apache-2.0
use bssmap_codec::{Bssap, Reference};
use rsl_codec::Rsl;

/// A message that a connection sends.
#[derive(Drop)]
pub enum Message {
    /// An RSL message to the base station with the number `station`.
    Station {
        station: u16,
        message: Rsl,
    },
    /// A connection request (CR) to the switch that carries `message`. The source reference of the
    /// CR is the connection's number.
    Request {
        message: Bssap,
    },
    /// A data form 1 (DT1) to the switch that carries `message`. `destination` is the switch's
    /// reference of the connection.
    Data {
        destination: Reference,
        message: Bssap,
    },
    /// A release complete (RLC) to the switch. `destination` is the switch's reference of the
    /// connection; the source reference is the connection's number.
    ReleaseComplete {
        destination: Reference,
    },
}
