// SPDX-License-Identifier: MIT OR Apache-2.0
use crate::Tenure;
use conn_messages::Out;
use octets::Octets;

/// A frame in an outbox of the controller.
#[derive(Drop)]
pub struct OutboxEntry {
    pub out: Out,
    /// For a command of the controller the tenure to which it leads; `None` for any other frame.
    pub target: Option<Tenure>,
}

/// A layer 3 message that a station is to send to a mobile.
#[derive(Drop)]
pub struct AirMessage {
    pub message: Octets,
    /// For a command of the controller the tenure to which it leads; `None` for any other message.
    pub target: Option<Tenure>,
}
