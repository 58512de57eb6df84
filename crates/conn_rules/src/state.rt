// SPDX-License-Identifier: MIT OR Apache-2.0
use bssmap_codec::Reference;
use conn_messages::{Change, Channel};

/// The channel to which a connection is to change, and whether by assignment or handover.
#[derive(Clone, Copy)]
pub struct Target {
    pub change: Change,
    pub channel: Channel,
}

/// The stage of a connection that the switch confirmed: whether its channel is changing, and how
/// far the change is.
#[derive(Clone, Copy)]
pub enum Stage {
    /// The connection uses only the serving channel.
    Active,
    /// The target is being activated; the station hasn't answered.
    Preparing(Target),
    /// The mobile was commanded to the target and hasn't answered.
    Changing(Target),
    /// No change is under way, but old channels that the mobile left aren't released yet.
    Draining,
}

/// How far the clearing of a closed connection towards the switch is.
#[derive(Clone, Copy)]
pub enum Clearing {
    /// A CLEAR REQUEST with this cause is due once the switch confirms the connection.
    Due(u8),
    /// A CLEAR REQUEST was put. The field is the switch's reference of the connection.
    Asked(Reference),
    /// CLEAR COMPLETE was put.
    Complete,
}

/// The state of a connection.
#[derive(Clone, Copy)]
pub enum State {
    /// The CHANNEL ACTIVATION of the access channel was put, and the station hasn't answered.
    WaitActivation,
    /// The mobile was assigned the access channel and hasn't established its link there yet.
    WaitEstablish,
    /// CR with the initial message was put, and the switch hasn't answered.
    WaitConfirm,
    /// The switch confirmed the connection. The first field is the switch's reference of the
    /// connection.
    Live(Reference, Stage),
    /// The mobile was dismissed, and the connection is being cleared.
    Closed(Clearing),
    /// The connection is over.
    Removed,
}

/// The state of the link of SAPI 3, which carries short messages, on the serving channel.
#[derive(Clone, Copy)]
pub enum ShortMessageLink {
    Down,
    /// An ESTABLISH REQUEST for the link was put, and the answer is outstanding.
    Asked,
    Up,
}

/// An old channel: it served the connection before, and its RF CHANNEL RELEASE was put.
#[derive(Clone, Copy)]
pub struct Drain {
    pub channel: Channel,
    /// Whether the RF CHANNEL RELEASE ACK of this channel was received; the entry remains while an
    /// older channel still drains.
    pub is_done: bool,
}
