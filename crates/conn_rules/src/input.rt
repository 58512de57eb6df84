// SPDX-License-Identifier: MIT OR Apache-2.0
use bssmap_codec::Reference;
use conn_messages::{Change, Place};
use dtap_codec::{RrCause, Sapi};
use octets::Octets;

/// An input to a connection.
#[derive(Drop)]
pub enum Input {
    // ---- from a station (TS 48.058 clause 8); `at` is the place of the channel that the message
    // names
    ActivationAck {
        at: Place,
    },
    ActivationNack {
        at: Place,
    },
    /// The mobile established the link of `sapi`; `message` is the layer 3 message in the
    /// indication, if it carries one.
    EstablishIndication {
        at: Place,
        sapi: Sapi,
        message: Option<Octets>,
    },
    EstablishConfirm {
        at: Place,
        sapi: Sapi,
    },
    ReleaseIndication {
        at: Place,
        sapi: Sapi,
    },
    ErrorIndication {
        at: Place,
        sapi: Sapi,
    },
    ConnectionFailure {
        at: Place,
    },
    /// A layer 3 message of the mobile with a protocol discriminator other than radio resource
    /// management.
    Dtap {
        at: Place,
        sapi: Sapi,
        message: Octets,
    },
    /// ASSIGNMENT COMPLETE or HANDOVER COMPLETE of the mobile, as `change` says; `cause` is the RR
    /// cause in the message.
    Complete {
        at: Place,
        change: Change,
        cause: RrCause,
    },
    /// ASSIGNMENT FAILURE or HANDOVER FAILURE of the mobile, as `change` says; `cause` is the RR
    /// cause in the message.
    Failure {
        at: Place,
        change: Change,
        cause: RrCause,
    },
    /// The station acknowledges that the channel is released (RF CHANNEL RELEASE ACK).
    ReleaseAck {
        at: Place,
    },
    /// A measurement report on the serving channel called for a handover to another cell.
    Move,

    // ---- from the switch (Q.713, TS 48.008 clause 3.2.1)
    /// CC: the switch confirms the connection; `source` is the switch's reference.
    ConnectionConfirm {
        source: Reference,
    },
    /// CREF: the switch refuses the connection.
    ConnectionRefused,
    /// RLSD: the switch releases the connection; `source` is the switch's reference.
    Released {
        source: Reference,
    },
    /// A layer 3 message of the switch for the mobile.
    Downlink {
        sapi: Sapi,
        message: Octets,
    },
    AssignmentRequest {
        is_speech: bool,
    },
    CipherModeCommand,
    ClearCommand,

    // ---- from the controller itself
    /// The timer of the connection's state expired: T3101, T3103 or T3107.
    Expiry,
    /// The oldest old channel has drained for the longest time that is allowed.
    DrainExpiry,
    /// The link of a station broke.
    StationDown {
        station: u16,
    },
    /// The link of the switch broke.
    SwitchDown,
}
