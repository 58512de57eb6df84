// SPDX-License-Identifier: MIT OR Apache-2.0
ghost use Rattle.std.specs.Prelude.{◌≡◌, ◌++◌, ◌⊎◌, IfErr, IfOk, OnErr, OnOk, Ok};
ghost use Rattle.std.specs.Prelude.{Err};
ghost use Rattle.std.specs.Result.{result_err};
ghost use Rattle.octets.specs.Answer.{Gives, result_map};
ghost use Rattle.octets.specs.Refusal.{RefusesBy};
ghost use Rattle.dtap_codec.specs.declared.rr.RrMessage.{RrMessage as RrValue};
ghost use Rattle.dtap_codec.specs.Rr.{IsRr, RrFits, cell_text, channel_text};
ghost use Rattle.dtap_codec.specs.RrFaults.{HasFault};
ghost use Rattle.dtap_codec.specs.RrReading as reading;
ghost use Rattle.dtap_codec.specs.RrText.{content_text, front_text, rr_text};
ghost use Rattle.dtap_codec.specs.RrType.{rr_octet, type_of};

use crate::message::RADIO_RESOURCE;
use crate::report::REPORT_LENGTH;
use crate::rr_fault::RrFault;
use crate::rr_type::{IMMEDIATE_ASSIGNMENT, PSEUDO_LENGTH, RrType};
use crate::values::{Arfcn, ColourCode, TimingAdvance};
use octets::front::{octet, split};
use octets::text::{TEXT_ROOM, hand_over};
use octets::{Memory, Octets};
use std::alloc::Global;

/// The octet of a channel number: channel type, subchannel and timeslot. Any octet is allowed.
#[derive(Clone, Copy)]
pub struct ChannelOctet(pub u8);

/// An RR cause (TS 44.018 clause 10.5.2.31). Any octet is allowed.
#[derive(Clone, Copy)]
pub struct RrCause(pub u8);

/// A channel without frequency hopping (TS 44.018 clause 10.5.2.5). The bits of its octets, the
/// high bit first:
///
/// ```text
/// cccccccc ttt---aa aaaaaaaa   c channel, t TSC, a ARFCN; the other bits are written as 0
/// ```
#[derive(Clone, Copy)]
pub struct ChannelDescription {
    pub channel: ChannelOctet,
    pub tsc: ColourCode,
    pub arfcn: Arfcn,
}

/// A cell, identified by the ARFCN of its broadcast channel and by its base station identity code
/// (TS 44.018 clause 10.5.2.2). The bits of its octets, the high bit first:
///
/// ```text
/// aannnbbb aaaaaaaa   a ARFCN, n NCC, b BCC
/// ```
#[derive(Clone, Copy)]
pub struct CellDescription {
    pub arfcn: Arfcn,
    pub ncc: ColourCode,
    pub bcc: ColourCode,
}

/// Power command at which the mobile sends with the highest power of its class (TS 44.018 clause
/// 10.5.2.28).
pub const HIGHEST_POWER: u8 = 0x00;

/// Page mode of normal paging (TS 44.018 clause 10.5.2.26).
pub const NORMAL_PAGING: u8 = 0x00;

/// The length octet of a mobile allocation without octets (TS 44.018 clause 10.5.2.21).
pub const NO_MOBILE_ALLOCATION: u8 = 0x00;

/// The octet of padding (TS 44.006 clause 5.2).
pub const PADDING: u8 = 0x2b;

/// The number of octets that are written after the timing advance of an IMMEDIATE ASSIGNMENT, and
/// the least number that is required there when one is read.
pub const IMMEDIATE_END_LENGTH: usize = 12;

/// The octets that are written at the end of an IMMEDIATE ASSIGNMENT: no mobile allocation, then
/// padding.
pub const IMMEDIATE_END: [u8; IMMEDIATE_END_LENGTH] = [
    NO_MOBILE_ALLOCATION,
    PADDING,
    PADDING,
    PADDING,
    PADDING,
    PADDING,
    PADDING,
    PADDING,
    PADDING,
    PADDING,
    PADDING,
    PADDING,
];

/// A message of radio resource management (TS 44.018 clause 9.1). The line at each variant gives
/// its octets: fixed octets in hexadecimal, and each part with its length in octets.
#[derive(Drop)]
pub enum RrMessage {
    /// `06 2b cell:2 channel:3 reference:1 power:1`
    HandoverCommand {
        cell: CellDescription,
        channel: ChannelDescription,
        /// The handover reference.
        reference: u8,
    },
    /// `06 2e channel:3 power:1`
    AssignmentCommand {
        channel: ChannelDescription,
    },
    /// `06 2c cause:1`
    HandoverComplete {
        cause: RrCause,
    },
    /// `06 28 cause:1`
    HandoverFailure {
        cause: RrCause,
    },
    /// `06 29 cause:1`
    AssignmentComplete {
        cause: RrCause,
    },
    /// `06 2f cause:1`
    AssignmentFailure {
        cause: RrCause,
    },
    /// `06 0d cause:1`
    ChannelRelease {
        cause: RrCause,
    },
    /// `2d 06 3f page_mode:1 channel:3 request_reference:3 timing_advance:1 end:12`
    ImmediateAssignment {
        channel: ChannelDescription,
        request_reference: [u8; 3],
        timing_advance: TimingAdvance,
    },
    /// `06 15 value:16`
    ///
    /// `Report::read` reads the value.
    MeasurementReport {
        value: [u8; REPORT_LENGTH],
    },
    /// `06 27 rest`
    ///
    /// `rest` holds the octets after the type as they are.
    PagingResponse {
        rest: Octets,
    },
}

impl RrMessage {
    /// Reads a message of radio resource management. The power command, the hopping bits, the spare
    /// bits and the octets after the last part are ignored. In an IMMEDIATE ASSIGNMENT the page
    /// mode and the octets after the timing advance are ignored too.
    ///
    /// The faults, in the order of the checks:
    ///
    /// - `Short`: there is no octet, or only a pseudo length.
    /// - `UnknownRr`: the first octet, or the octet after the pseudo length, isn't 06.
    /// - `Short`: the octet of the type is missing.
    /// - `UnknownRr`: the type isn't known. After a pseudo length only IMMEDIATE ASSIGNMENT is
    ///   known; without a pseudo length all other types are known.
    /// - `Short`: octets of a part are missing.
    /// - `Memory`: the allocation fails.
    pub fn read(alloc: Global, octets: &[u8]) -> Result<RrMessage, RrFault>
        // The result is the reading of the octets, unless memory runs out.
        ensures reads { Gives RrFault.Memory (λ v. v) result (reading.rr_reading octets.now) }
        // The octets are a text of the message that is read.
        ensures found { IfOk result (λ message. IsRr octets.now message) }
        // If the octets are a text of a message, that message is read, unless memory runs out.
        ensures only { (message : RrValue) → IsRr octets.now message →
            (result ≡ Ok message) ⊎ (result ≡ Err RrFault.Memory) }
        // A refusal is the first fault of the octets; `Memory` is returned only if the octets have
        // no fault.
        ensures refused { RefusesBy RrFault.Memory result
            (result_err (reading.rr_reading octets.now)) }
        // `Short`: the octets are no text of a message but begin one. `UnknownRr`: the octets begin
        // no text of a message. `Memory`: the octets are a text of a message.
        ensures fault { IfErr result (λ fault. HasFault octets.now fault) }
    {
        read_message(alloc, octets)
    }

    /// The type of the message.
    pub fn kind(&self) -> RrType
        ensures { result ≡ type_of self.now }
    {
        match self {
            RrMessage::HandoverCommand { .. } => RrType::HandoverCommand,
            RrMessage::AssignmentCommand { .. } => RrType::AssignmentCommand,
            RrMessage::HandoverComplete { .. } => RrType::HandoverComplete,
            RrMessage::HandoverFailure { .. } => RrType::HandoverFailure,
            RrMessage::AssignmentComplete { .. } => RrType::AssignmentComplete,
            RrMessage::AssignmentFailure { .. } => RrType::AssignmentFailure,
            RrMessage::ChannelRelease { .. } => RrType::ChannelRelease,
            RrMessage::ImmediateAssignment { .. } => RrType::ImmediateAssignment,
            RrMessage::MeasurementReport { .. } => RrType::MeasurementReport,
            RrMessage::PagingResponse { .. } => RrType::PagingResponse,
        }
    }

    /// Appends the octets of the message to `text`, without optional elements. The power command,
    /// the page mode and the spare bits are written as 0. `Err` if an allocation fails; `text` is
    /// then unchanged.
    pub fn write(&self, alloc: Global, text: &mut Vec<u8>) -> Result<(), Memory>
        ensures ok { OnOk result (text.new.items ≡ text.old.items ++ rr_text self.now) }
        ensures err { OnErr result (text.new.items ≡ text.old.items) }
    {
        let written = text_of(alloc, self)?;
        hand_over(written, text)
    }
}

#[tactic(auto, unfolding(crate::specs::RrReading::rr_reading))]
fn read_message(alloc: Global, octets: &[u8]) -> Result<RrMessage, RrFault>
    ensures { Gives RrFault.Memory (λ v. v) result (reading.rr_reading octets.now) }
{
    let (first, rest) = octet(octets, RrFault::Short)?;
    if first == PSEUDO_LENGTH {
        return read_pseudo(rest);
    }
    discriminator(first)?;
    read_typed(alloc, rest)
}

#[tactic(auto, unfolding(crate::specs::RrReading::pseudo_at))]
fn read_pseudo(octets: &[u8]) -> Result<RrMessage, RrFault>
    ensures { result ≡ reading.pseudo_at octets.now }
{
    let (first, rest) = octet(octets, RrFault::Short)?;
    discriminator(first)?;
    let (kind, rest) = octet(rest, RrFault::Short)?;
    if kind != IMMEDIATE_ASSIGNMENT {
        return Err(RrFault::UnknownRr);
    }
    read_immediate_assignment(rest)
}

// Returns `octet` if it is the RR discriminator with skip indicator 0, else `Err(UnknownRr)`.
fn discriminator(octet: u8) -> Result<u8, RrFault>
    ensures { result ≡ reading.rr_discriminator octet }
{
    if octet == RADIO_RESOURCE {
        Ok(octet)
    } else {
        Err(RrFault::UnknownRr)
    }
}

#[tactic(auto, unfolding(crate::specs::RrReading::typed_at))]
fn read_typed(alloc: Global, octets: &[u8]) -> Result<RrMessage, RrFault>
    ensures { Gives RrFault.Memory (λ v. v) result (reading.typed_at octets.now) }
{
    let (first, rest) = octet(octets, RrFault::Short)?;
    let kind = RrType::of_octet(first).ok_or(RrFault::UnknownRr)?;
    read_content(alloc, kind, rest)
}

fn read_content(alloc: Global, kind: RrType, octets: &[u8]) -> Result<RrMessage, RrFault>
    ensures { Gives RrFault.Memory (λ v. v) result (reading.content_at kind octets.now) }
{
    match kind {
        RrType::HandoverCommand => read_handover_command(octets),
        RrType::AssignmentCommand => read_assignment_command(octets),
        RrType::HandoverComplete => Ok(RrMessage::HandoverComplete {
            cause: read_cause(octets)?,
        }),
        RrType::HandoverFailure => Ok(RrMessage::HandoverFailure {
            cause: read_cause(octets)?,
        }),
        RrType::AssignmentComplete => Ok(RrMessage::AssignmentComplete {
            cause: read_cause(octets)?,
        }),
        RrType::AssignmentFailure => Ok(RrMessage::AssignmentFailure {
            cause: read_cause(octets)?,
        }),
        RrType::ChannelRelease => Ok(RrMessage::ChannelRelease {
            cause: read_cause(octets)?,
        }),
        RrType::ImmediateAssignment => Err(RrFault::UnknownRr),
        RrType::MeasurementReport => read_measurement_report(octets),
        RrType::PagingResponse => Ok(RrMessage::PagingResponse {
            rest: Octets::copy(alloc, octets)?,
        }),
    }
}

#[tactic(auto, unfolding(crate::specs::RrReading::handover_command_at))]
fn read_handover_command(octets: &[u8]) -> Result<RrMessage, RrFault>
    ensures { result ≡ reading.handover_command_at octets.now }
{
    let (first, rest) = octet(octets, RrFault::Short)?;
    let (second, rest) = octet(rest, RrFault::Short)?;
    let (channel, code, low, rest) = three(rest)?;
    let (reference, rest) = octet(rest, RrFault::Short)?;
    let _power = octet(rest, RrFault::Short)?;
    Ok(RrMessage::HandoverCommand {
        cell: cell_description(first, second),
        channel: channel_description(channel, code, low),
        reference,
    })
}

#[tactic(auto, unfolding(crate::specs::RrReading::assignment_command_at))]
fn read_assignment_command(octets: &[u8]) -> Result<RrMessage, RrFault>
    ensures { result ≡ reading.assignment_command_at octets.now }
{
    let (channel, code, low, rest) = three(octets)?;
    let _power = octet(rest, RrFault::Short)?;
    Ok(RrMessage::AssignmentCommand {
        channel: channel_description(channel, code, low),
    })
}

#[tactic(auto, unfolding(crate::specs::RrReading::immediate_assignment_at))]
fn read_immediate_assignment(octets: &[u8]) -> Result<RrMessage, RrFault>
    ensures { result ≡ reading.immediate_assignment_at octets.now }
{
    let (_page_mode, rest) = octet(octets, RrFault::Short)?;
    let (channel, code, low, rest) = three(rest)?;
    let (first, second, third, rest) = three(rest)?;
    let (advance, rest) = octet(rest, RrFault::Short)?;
    let _end = split(rest, IMMEDIATE_END_LENGTH, RrFault::Short)?;
    Ok(RrMessage::ImmediateAssignment {
        channel: channel_description(channel, code, low),
        request_reference: [first, second, third],
        timing_advance: TimingAdvance::new(advance % 64),
    })
}

#[tactic(auto, unfolding(crate::specs::RrReading::measurement_report_at))]
fn read_measurement_report(octets: &[u8]) -> Result<RrMessage, RrFault>
    ensures { result ≡ reading.measurement_report_at octets.now }
{
    match octets.first_chunk::<REPORT_LENGTH>() {
        Some(value) => Ok(RrMessage::MeasurementReport { value: *value }),
        None => Err(RrFault::Short),
    }
}

// The first three octets, and the octets after them. `Err(Short)` if there are fewer than three.
#[tactic(auto, unfolding(crate::specs::RrReading::three_at))]
fn three(octets: &[u8]) -> Result<(u8, u8, u8, &[u8]), RrFault>
    ensures { result_map (λ p. (p.0, p.1, p.2, p.3.now)) result ≡ reading.three_at octets.now }
{
    let (first, rest) = octet(octets, RrFault::Short)?;
    let (second, rest) = octet(rest, RrFault::Short)?;
    let (third, rest) = octet(rest, RrFault::Short)?;
    Ok((first, second, third, rest))
}

// Reads the first octet as a cause. `Err(Short)` if there is no octet.
#[tactic(auto, unfolding(crate::specs::RrReading::cause_at))]
fn read_cause(octets: &[u8]) -> Result<RrCause, RrFault>
    ensures { result ≡ reading.cause_at octets.now }
{
    let (cause, _rest) = octet(octets, RrFault::Short)?;
    Ok(RrCause(cause))
}

// The octets that are written for a message.
fn text_of(alloc: Global, message: &RrMessage) -> Result<Vec<u8>, Memory>
    ensures { IfOk result (λ text. text.items ≡ rr_text message.now) }
{
    let mut text = Vec::with_capacity(alloc, TEXT_ROOM)?;
    put_front(&mut text, message.kind())?;
    put_content(&mut text, message)?;
    Ok(text)
}

// Appends the octets up to and with the type: the pseudo length if `kind` is IMMEDIATE ASSIGNMENT,
// the discriminator, and the type.
fn put_front(text: &mut Vec<u8>, kind: RrType) -> Result<(), Memory>
    ensures { OnOk result (text.new.items ≡ text.old.items ++ front_text (rr_octet kind)) }
{
    let octet = kind.octet();
    if octet == IMMEDIATE_ASSIGNMENT {
        text.push(PSEUDO_LENGTH)?;
    }
    text.extend_from_slice(&[RADIO_RESOURCE, octet])?;
    Ok(())
}

// Appends the octets after the type.
fn put_content(text: &mut Vec<u8>, message: &RrMessage) -> Result<(), Memory>
    ensures { OnOk result (text.new.items ≡ text.old.items ++ content_text message.now) }
{
    match message {
        RrMessage::HandoverCommand {
            cell,
            channel,
            reference,
        } => {
            put_cell(text, *cell)?;
            put_channel(text, *channel)?;
            text.extend_from_slice(&[*reference, HIGHEST_POWER])?;
        }
        RrMessage::AssignmentCommand { channel } => {
            put_channel(text, *channel)?;
            text.push(HIGHEST_POWER)?;
        }
        RrMessage::HandoverComplete { cause }
        | RrMessage::HandoverFailure { cause }
        | RrMessage::AssignmentComplete { cause }
        | RrMessage::AssignmentFailure { cause }
        | RrMessage::ChannelRelease { cause } => text.push(cause.0)?,
        RrMessage::ImmediateAssignment {
            channel,
            request_reference,
            timing_advance,
        } => {
            text.push(NORMAL_PAGING)?;
            put_channel(text, *channel)?;
            text.extend_from_slice(request_reference)?;
            text.push(timing_advance.steps())?;
            text.extend_from_slice(&IMMEDIATE_END)?;
        }
        RrMessage::MeasurementReport { value } => text.extend_from_slice(value)?,
        RrMessage::PagingResponse { rest } => text.extend_from_slice(rest.as_slice())?,
    }
    Ok(())
}

fn cell_description(first: u8, second: u8) -> CellDescription
    ensures { result ≡ reading.cell_of first second }
{
    CellDescription {
        arfcn: Arfcn::new(u16::from_be_bytes([first / 64, second])),
        ncc: ColourCode::new(first / 8 % 8),
        bcc: ColourCode::new(first % 8),
    }
}

fn put_cell(text: &mut Vec<u8>, cell: CellDescription) -> Result<(), Memory>
    ensures { OnOk result (text.new.items ≡ text.old.items ++ cell_text cell) }
{
    let [high, low] = cell.arfcn.number().to_be_bytes();
    let codes = cell.ncc.number() * 8 + cell.bcc.number();
    text.extend_from_slice(&[high * 64 + codes, low])?;
    Ok(())
}

fn channel_description(channel: u8, code: u8, low: u8) -> ChannelDescription
    ensures { result ≡ reading.channel_of channel code low }
{
    ChannelDescription {
        channel: ChannelOctet(channel),
        tsc: ColourCode::new(code / 32),
        arfcn: Arfcn::new(u16::from_be_bytes([code % 4, low])),
    }
}

fn put_channel(text: &mut Vec<u8>, channel: ChannelDescription) -> Result<(), Memory>
    ensures { OnOk result (text.new.items ≡ text.old.items ++ channel_text 0 channel) }
{
    let [high, low] = channel.arfcn.number().to_be_bytes();
    let second = channel.tsc.number() * 32 + high;
    text.extend_from_slice(&[channel.channel.0, second, low])?;
    Ok(())
}

/// Law: the octets that are written for a message of radio resource management are a text of that
/// message and are read as that message. Assumes: each number of the message fits its bits, and
/// each octet string of the message has its length.
pub fn rr_text_is_read()
    ensures text { (message : RrValue) → RrFits message → IsRr (rr_text message) message }
    ensures read { (message : RrValue) → RrFits message →
        reading.rr_reading (rr_text message) ≡ Ok message }
{}
