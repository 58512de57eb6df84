// SPDX-License-Identifier: MIT OR Apache-2.0
//! Builds the messages to a base station (TS 48.058 clause 8), and the messages to the mobile that
//! a base station hands on (TS 44.018 clause 9.1).
//!
//! Each function returns `Err` only if an allocation fails.
ghost use Rattle.std.specs.Prelude.{◌≡◌, IfOk};
ghost use Rattle.bssmap_codec.specs.Layer3.{IsLayer3};
ghost use Rattle.conn_messages.specs.declared.message.Message.TheVariants as messages;
ghost use Rattle.conn_messages.specs.Out.{IsLawfulMessage, IsWritable};
ghost use Rattle.conn_messages.specs.StationMessage as words;
ghost use Rattle.dtap_codec.specs.RrText.{rr_text};

use crate::parameters::{FULL_RATE_MODE, HALF_RATE_MODE, MAX_TIMING_ADVANCE, SDCCH_MODE};
use crate::{Change, Channel, Message};
use dtap_codec::{ChannelDescription, ChannelOctet, RrCause, RrMessage, Sapi, TimingAdvance};
use octets::{Memory, Octets};
use rsl_codec::{
    ASYNCHRONOUS_HANDOVER, AccessDelay, Activation, ActivationType, ChanNo, ChannelMode, Data,
    FIRST_SDCCH, FIRST_TCH_H, HandoverReference, IMMEDIATE_ASSIGNMENT, ImmediateAssignment, Link,
    LinkId, NORMAL_ASSIGNMENT, RequestReference, Rsl,
};
use std::alloc::Global;

/// DATA REQUEST: sends the layer 3 message `l3` to the mobile on `channel`, on the link of `sapi`.
/// Assumes: `l3` has 1 to 251 octets.
#[tactic(auto, unfolding(rsl_codec::specs::RslText::rsl_write_fault))]
pub fn handing(channel: &Channel, sapi: Sapi, l3: Octets) -> Message
    requires { IsLayer3 l3 }
    ensures word { result ≡ words.handing channel.now sapi l3 }
    ensures writable { IsWritable result }
    ensures lawful { IsLawfulMessage result }
{
    let link = match sapi {
        Sapi::Zero => LinkId::signalling(),
        Sapi::Three => LinkId::short_messages(channel.number),
    };
    to_station(
        channel,
        Rsl::DataRequest(Data {
            channel: channel.number,
            link,
            l3,
        }),
    )
}

/// CHANNEL RELEASE for the mobile on `channel`, with the RR cause `cause`.
pub fn channel_release(alloc: Global, channel: &Channel, cause: u8) -> Result<Message, Memory>
    ensures word { IfOk result (λ m. m ≡ words.channel_release channel.now cause) }
    ensures writable { IfOk result (λ m. IsWritable m) }
    ensures lawful { IfOk result (λ m. IsLawfulMessage m) }
{
    let release = RrMessage::ChannelRelease {
        cause: RrCause(cause),
    };
    rr_to_mobile(alloc, channel, &release)
}

/// ASSIGNMENT COMMAND or HANDOVER COMMAND, by `change`: tells the mobile on the channel `serving`
/// to change to the channel `target`.
pub fn change_command(
    alloc: Global,
    serving: &Channel,
    change: Change,
    target: &Channel,
) -> Result<Message, Memory>
    ensures word { IfOk result (λ m. m ≡ words.change_command serving.now change target.now) }
    ensures writable { IfOk result (λ m. IsWritable m) }
    ensures lawful { IfOk result (λ m. IsLawfulMessage m) }
{
    let command = match change {
        Change::Assignment => RrMessage::AssignmentCommand {
            channel: channel_description(target),
        },
        Change::Handover => RrMessage::HandoverCommand {
            cell: target.description,
            channel: channel_description(target),
            reference: target.reference.0,
        },
    };
    rr_to_mobile(alloc, serving, &command)
}

/// ESTABLISH REQUEST: asks the channel's station to establish SAPI 3 on the channel.
#[tactic(auto, unfolding(rsl_codec::specs::RslText::rsl_write_fault))]
pub fn establish_request(channel: &Channel) -> Message
    ensures word { result ≡ words.establish_request channel.now }
    ensures writable { IsWritable result }
    ensures lawful { IsLawfulMessage result }
{
    let link = LinkId::short_messages(channel.number);
    to_station(
        channel,
        Rsl::EstablishRequest(Link {
            channel: channel.number,
            link,
        }),
    )
}

/// RF CHANNEL RELEASE: tells the channel's station to deactivate the channel.
#[tactic(auto, unfolding(rsl_codec::specs::RslText::rsl_write_fault))]
pub fn rf_channel_release(channel: &Channel) -> Message
    ensures word { result ≡ words.rf_channel_release channel.now }
    ensures writable { IsWritable result }
    ensures lawful { IsLawfulMessage result }
{
    to_station(channel, Rsl::RfChannelRelease(channel.number))
}

/// CHANNEL ACTIVATION of `channel` for the access of a mobile (immediate assignment).
pub fn access_activation(alloc: Global, channel: &Channel) -> Result<Message, Memory>
    ensures word { IfOk result (λ m. m ≡ words.access_activation channel.now) }
    ensures writable { IfOk result (λ m. IsWritable m) }
    ensures lawful { IfOk result (λ m. IsLawfulMessage m) }
{
    activation(alloc, channel, IMMEDIATE_ASSIGNMENT, None)
}

/// CHANNEL ACTIVATION of `target`, the target of a change. For a handover, the message carries the
/// target's handover reference.
pub fn change_activation(alloc: Global, change: Change, target: &Channel) -> Result<Message, Memory>
    ensures word { IfOk result (λ m. m ≡ words.change_activation change target.now) }
    ensures writable { IfOk result (λ m. IsWritable m) }
    ensures lawful { IfOk result (λ m. IsLawfulMessage m) }
{
    match change {
        Change::Assignment => activation(alloc, target, NORMAL_ASSIGNMENT, None),
        Change::Handover => {
            activation(alloc, target, ASYNCHRONOUS_HANDOVER, Some(target.reference))
        }
    }
}

/// IMMEDIATE ASSIGN COMMAND: assigns `channel` to the mobile that sent the access request
/// `request`. The timing advance is `delay`, the delay of the access burst in symbols, but at most
/// 63.
#[tactic(auto, unfolding(rsl_codec::specs::RslText::rsl_write_fault))]
pub fn immediate_assign_command(
    alloc: Global,
    channel: &Channel,
    request: RequestReference,
    delay: AccessDelay,
) -> Result<Message, Memory>
    ensures word { IfOk result
        (λ m. m ≡ words.immediate_assign_command channel.now request delay.0) }
    ensures writable { IfOk result (λ m. IsWritable m) }
    ensures lawful { IfOk result (λ m. IsLawfulMessage m) }
{
    let [high, low] = request.frame.to_be_bytes();
    let assignment = RrMessage::ImmediateAssignment {
        channel: channel_description(channel),
        request_reference: [request.access, high, low],
        timing_advance: TimingAdvance::new(delay.0.min(MAX_TIMING_ADVANCE)),
    };
    let mut information = Vec::new(alloc);
    assignment.write(alloc, &mut information)?;
    Ok(to_station(
        channel,
        Rsl::ImmediateAssignCommand(ImmediateAssignment {
            channel: ChanNo::access_grant(),
            information: Octets::new(information),
        }),
    ))
}

// A message to the station of a channel.
fn to_station(channel: &Channel, message: Rsl) -> Message
    ensures { result ≡ messages.Station channel.now.station message }
{
    Message::Station {
        station: channel.station,
        message,
    }
}

// DATA REQUEST with a message of radio resource management, on SAPI 0.
#[tactic(auto, unfolding(rsl_codec::specs::RslText::rsl_write_fault))]
fn rr_to_mobile(alloc: Global, channel: &Channel, message: &RrMessage) -> Result<Message, Memory>
    requires { IsLayer3 (rr_text message.now) }
    ensures word { IfOk result (λ m. m ≡ words.rr_to_mobile channel.now message.now) }
    ensures writable { IfOk result (λ m. IsWritable m) }
    ensures lawful { IfOk result (λ m. IsLawfulMessage m) }
{
    let mut l3 = Vec::new(alloc);
    message.write(alloc, &mut l3)?;
    Ok(handing(channel, Sapi::Zero, Octets::new(l3)))
}

// The description of a channel. The training sequence code is the BCC of the channel's cell.
fn channel_description(channel: &Channel) -> ChannelDescription
    ensures { result ≡ words.channel_description channel.now }
{
    ChannelDescription {
        channel: ChannelOctet(channel.number.octet()),
        tsc: channel.description.bcc,
        arfcn: channel.description.arfcn,
    }
}

// CHANNEL ACTIVATION of `channel`, with the channel mode for its number (`mode_of`).
#[tactic(auto, unfolding(rsl_codec::specs::RslText::rsl_write_fault))]
fn activation(
    alloc: Global,
    channel: &Channel,
    kind: ActivationType,
    reference: Option<HandoverReference>,
) -> Result<Message, Memory>
    ensures word { IfOk result (λ m. m ≡ words.activation channel.now kind reference) }
    ensures writable { IfOk result (λ m. IsWritable m) }
    ensures lawful { IfOk result (λ m. IsLawfulMessage m) }
{
    let mode = Octets::copy(alloc, &mode_of(channel.number))?;
    Ok(to_station(
        channel,
        Rsl::ChannelActivation(Activation {
            channel: channel.number,
            activation: kind,
            mode: ChannelMode(mode),
            reference,
        }),
    ))
}

// The channel mode of the channel with this number: signalling for an SDCCH, speech for a TCH.
fn mode_of(number: ChanNo) -> [u8; 4]
    ensures { result ≡ words.mode_of number }
{
    let octet = number.octet();
    if octet >= FIRST_SDCCH {
        SDCCH_MODE
    } else if octet >= FIRST_TCH_H {
        HALF_RATE_MODE
    } else {
        FULL_RATE_MODE
    }
}
