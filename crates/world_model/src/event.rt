// SPDX-License-Identifier: MIT OR Apache-2.0
use dtap_codec::Sapi;
use octets::Octets;

/// One step of one actor. Mobiles, connections of the switch and stations have numbers from 1 on;
/// stations are in the order of the settings. A source of the controller has the number of its
/// station, or 0 if the source is the switch.
#[derive(Drop)]
pub enum Event {
    /// The mobile's upper layers send a message.
    Upper {
        mobile: u8,
        sapi: Sapi,
        message: Octets,
    },
    /// A new mobile asks the station for a channel. The first message on the mobile's connection
    /// is `initial`.
    Connect {
        mobile: u8,
        station: u16,
        initial: Octets,
        /// Whether the mobile accepts the data link of SAPI 3.
        accepts_sapi_three: bool,
    },
    /// The mobile's station takes the frame that the mobile has in the air on `sapi`.
    AirUp {
        mobile: u8,
        sapi: Sapi,
    },
    /// The mobile's station acknowledges the frame that it took from the mobile on `sapi`.
    AirAck {
        mobile: u8,
        sapi: Sapi,
    },
    /// The mobile takes the first message that waits on its channel for the air.
    AirDown(u8),
    /// The first message that waits on the mobile's channel for the air is lost.
    AirDownLost(u8),
    /// The mobile leaves its channel on command.
    Move(u8),
    /// The station hears the mobile on the target channel of a handover.
    Touch(u8),
    /// The mobile arrives on the channel to which it was commanded.
    Arrive(u8),
    /// The mobile returns to the channel that it left on command.
    Return(u8),
    /// The station takes the first entry of the outbox of its link.
    BaseTakes(u16),
    /// The first message that the source made and that isn't in the controller's inbox is put
    /// there.
    BasePush(u16),
    /// The controller handles the first item of its inbox.
    Handle,
    /// The switch takes the first entry of the outbox of its link.
    SwitchTakes,
    /// The switch performs an action that answers no message.
    SwitchDoes(SwitchAction),
    /// This many milliseconds pass for the controller.
    Tick(u32),
    /// The link of the source breaks.
    BaseDown(u16),
    /// The measurement report of the mobile reaches the station of the mobile's channel.
    Report {
        mobile: u8,
        report: Octets,
    },
}

/// An action of the switch that answers no message, on the connection with the number given.
#[derive(Drop)]
pub enum SwitchAction {
    /// The switch requests an assignment.
    Assign(u32),
    /// The switch clears the connection.
    Clear(u32),
    /// The switch sends a layer 3 message to the mobile of the connection.
    Dtap {
        connection: u32,
        sapi: Sapi,
        message: Octets,
    },
}
