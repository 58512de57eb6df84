// SPDX-License-Identifier: MIT OR Apache-2.0
ghost use Rattle.std.specs.Prelude.{◌≡◌, if◌then◌else◌};
ghost use Rattle.msc_end.specs.Switch.{connection_of};
ghost use Rattle.world_model.specs.declared.event.Event.TheVariants.{SwitchTakes};
ghost use Rattle.world_model.specs.SwitchSide.{is_layer_3};
ghost use Rattle.world_trace.specs.declared.cause.Cause.TheVariants.{BadMessage};
ghost use Rattle.world_trace.specs.Causes.{acting, at_channel, at_target, cause, connecting};
ghost use Rattle.world_trace.specs.Causes.{lost, of_mobile, on_channel};
ghost use Rattle.world_trace.specs.Causes.{on_connection, returning, sending, taking, touching};

use conn_messages::{Change, SWITCH_LINK};
use octets::{MESSAGE_LIMIT, Octets};
use world_actors::Network;
use world_model::{Event, Seat, SwitchAction, Tenure};

/// Why an actor can't take an event.
#[derive(Clone, Copy)]
pub enum Cause {
    /// There is no such mobile.
    NoMobile,
    /// The mobile connected before, or its number is 0.
    MobileKnown,
    /// The mobile isn't on a channel.
    NotOnChannel,
    /// The mobile isn't between two channels.
    NotBetween,
    /// The channel was released.
    ChannelGone,
    /// There is no such link, or the link broke.
    LinkDown,
    /// The air holds no frame or message that wasn't taken yet.
    NothingInAir,
    /// The station hasn't taken a frame that it could acknowledge.
    FrameNotTaken,
    /// The mobile got no command to change its channel.
    NoCommand,
    /// The command is an ASSIGNMENT COMMAND, not a HANDOVER COMMAND.
    NoHandover,
    /// The message isn't allowed in this event.
    BadMessage,
    OutboxEmpty,
    /// The channel had its last tenure.
    TenuresSpent,
    /// The source made nothing.
    NothingMade,
    InboxEmpty,
    /// The switch has no such connection.
    NoConnection,
    /// The connection is clearing or ended.
    ConnectionClosed,
}

/// Why an event isn't taken: the first of its conditions that isn't met. The result means nothing
/// if the event can be taken.
pub(crate) fn cause_of(network: &Network, event: &Event) -> Cause
    ensures { result ≡ cause network.now event.now }
{
    match event {
        Event::Upper { mobile, .. } => sending(network, *mobile),
        Event::Connect {
            mobile,
            station,
            ..
        } => connecting(network, *mobile, *station),
        Event::AirUp { mobile, .. } => on_channel(network, *mobile, Cause::NothingInAir),
        Event::AirAck { mobile, .. } => on_channel(network, *mobile, Cause::FrameNotTaken),
        Event::AirDown(mobile) => on_channel(network, *mobile, Cause::NothingInAir),
        Event::AirDownLost(mobile) => on_channel(network, *mobile, Cause::NothingInAir),
        Event::Move(mobile) => on_channel(network, *mobile, Cause::NoCommand),
        Event::Touch(mobile) => touching(network, *mobile),
        Event::Arrive(mobile) => arriving(network, *mobile),
        Event::Return(mobile) => returning(network, *mobile),
        Event::BaseTakes(station) => taking(network, *station),
        Event::BasePush(_) => Cause::NothingMade,
        Event::Handle => Cause::InboxEmpty,
        Event::SwitchTakes => switch_taking(network),
        Event::SwitchDoes(action) => acting(network, action),
        Event::Tick(_) => Cause::LinkDown,
        Event::BaseDown(_) => Cause::LinkDown,
        Event::Report { mobile, .. } => on_channel(network, *mobile, Cause::BadMessage),
    }
}

/// The cause at a tenure on which the mobile isn't reached.
fn lost(network: &Network, tenure: &Tenure) -> Cause
    ensures { result ≡ lost network.now tenure.now }
{
    if network.is_station_up(tenure.at.station) {
        Cause::ChannelGone
    } else {
        Cause::LinkDown
    }
}

fn at_channel(network: &Network, tenure: &Tenure, last: Cause) -> Cause
    ensures { result ≡ at_channel network.now tenure.now last }
{
    if network.is_reached(tenure) {
        last
    } else {
        lost(network, tenure)
    }
}

/// The cause of an event between a mobile and its station, which needs the mobile's channel. If the
/// mobile is reached on its channel, the cause is `last`.
fn on_channel(network: &Network, mobile: u8, last: Cause) -> Cause
    ensures { result ≡ of_mobile network.now mobile (on_channel network.now last) }
{
    match network.seat(mobile) {
        Some(Seat::On { tenure, .. }) => at_channel(network, &tenure, last),
        Some(_) => Cause::NotOnChannel,
        None => Cause::NoMobile,
    }
}

fn sending(network: &Network, mobile: u8) -> Cause
    ensures { result ≡ of_mobile network.now mobile sending }
{
    match network.seat(mobile) {
        Some(Seat::On { .. }) => Cause::BadMessage,
        Some(Seat::Moving { .. }) => Cause::BadMessage,
        Some(_) => Cause::NotOnChannel,
        None => Cause::NoMobile,
    }
}

fn connecting(network: &Network, mobile: u8, station: u16) -> Cause
    ensures { result ≡ connecting network.now mobile station }
{
    if mobile == 0 || network.seat(mobile).is_some() {
        Cause::MobileKnown
    } else if network.is_station_up(station) {
        Cause::BadMessage
    } else {
        Cause::LinkDown
    }
}

fn touching(network: &Network, mobile: u8) -> Cause
    ensures { result ≡ of_mobile network.now mobile (touching network.now) }
{
    match network.seat(mobile) {
        Some(Seat::Moving { command, .. }) => match command.change {
            Change::Handover => lost(network, &command.target),
            Change::Assignment => Cause::NoHandover,
        },
        Some(_) => Cause::NotBetween,
        None => Cause::NoMobile,
    }
}

fn arriving(network: &Network, mobile: u8) -> Cause
    ensures { result ≡ of_mobile network.now mobile (at_target network.now) }
{
    match network.seat(mobile) {
        Some(Seat::Moving { command, .. }) => lost(network, &command.target),
        Some(_) => Cause::NotBetween,
        None => Cause::NoMobile,
    }
}

fn returning(network: &Network, mobile: u8) -> Cause
    ensures { result ≡ of_mobile network.now mobile (returning network.now) }
{
    match network.seat(mobile) {
        Some(Seat::Moving { from, .. }) => lost(network, &from),
        Some(_) => Cause::NotBetween,
        None => Cause::NoMobile,
    }
}

fn taking(network: &Network, station: u16) -> Cause
    ensures { result ≡ taking network.now station }
{
    if !network.is_station_up(station) {
        Cause::LinkDown
    } else if network.outbox_len(usize::from(station)) == 0 {
        Cause::OutboxEmpty
    } else {
        Cause::TenuresSpent
    }
}

fn switch_taking(network: &Network) -> Cause
    ensures { result ≡ cause network.now SwitchTakes }
{
    if network.is_up(SWITCH_LINK) {
        Cause::OutboxEmpty
    } else {
        Cause::LinkDown
    }
}

fn acting(network: &Network, action: &SwitchAction) -> Cause
    ensures { result ≡ acting network.now action.now }
{
    if !network.is_up(SWITCH_LINK) {
        return Cause::LinkDown;
    }
    match action {
        SwitchAction::Assign(connection) => on_connection(network, *connection),
        SwitchAction::Clear(connection) => on_connection(network, *connection),
        SwitchAction::Dtap {
            connection,
            message,
            ..
        } => sending_down(network, *connection, message),
    }
}

fn sending_down(network: &Network, connection: u32, message: &Octets) -> Cause
    ensures { result ≡ (if is_layer_3 message.now
        then on_connection (connection_of network.now.switch.connections connection)
        else BadMessage) }
{
    if message.is_empty() || message.len() > MESSAGE_LIMIT {
        Cause::BadMessage
    } else {
        on_connection(network, connection)
    }
}

fn on_connection(network: &Network, connection: u32) -> Cause
    ensures { result ≡ on_connection (connection_of network.now.switch.connections connection) }
{
    match network.taken(connection) {
        Some(_) => Cause::ConnectionClosed,
        None => Cause::NoConnection,
    }
}
