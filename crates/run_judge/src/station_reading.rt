// SPDX-License-Identifier: MIT OR Apache-2.0
ghost use Rattle.std.specs.Prelude.{◌≡◌, IfErr, IfOk, Ok};
ghost use Rattle.dtap_codec.specs.RrReading.{rr_reading};
ghost use Rattle.rsl_codec.specs.declared.fault.RslFault.TheVariants as radio;
ghost use Rattle.rsl_codec.specs.RslReading.{rsl_reading};
ghost use Rattle.run_judge.specs.Reading as reading;
ghost use Rattle.run_judge.specs.Reading.{IsReadable};

use crate::activation::handover_reference;
use crate::reading::is_dtap;
use crate::{Said, StationChannel, Way};
use conn_messages::Change;
use dtap_codec::{RrFault, RrMessage, Sapi};
use octets::Memory;
use rsl_codec::{ChanNo, Data, Establishment, LinkId, Rsl, RslFault};
use std::alloc::Global;

/// The SAPI of short messages, bits 3 to 1 of a link identifier (TS 48.058 clause 9.3.2).
const SHORT_MESSAGE_SAPI: u8 = 3;

/// The main signalling channel and the SACCH in bits 8 and 7 of a link identifier.
const MAIN_CHANNEL: u8 = 0;

const SACCH: u8 = 1;

/// What a frame with this body says on the link of the base station `station`.
#[tactic(auto, using(crate::proofs::Readable::station_readable))]
pub(crate) fn read_on_station_link(
    alloc: Global,
    station: u16,
    way: Way,
    body: &[u8],
) -> Result<Said, Memory>
    ensures said { IfOk result
        (λ said. said ≡ reading.said_on_station_link station way body.now) }
    ensures memory { IfErr result (λ _. IsReadable radio.Memory (rsl_reading body.now)) }
{
    match Rsl::read(alloc, body) {
        Ok(message) => match way {
            Way::ToController => said_by_station(alloc, station, message),
            Way::FromController => said_to_station(alloc, station, body, message),
        },
        Err(RslFault::Memory) => Err(Memory),
        Err(_) => Ok(Said::Nothing),
    }
}

fn said_by_station(alloc: Global, station: u16, message: Rsl) -> Result<Said, Memory>
    ensures { IfOk result (λ said. said ≡ reading.said_by_station station (Ok message)) }
{
    match message {
        Rsl::EstablishIndication(establishment) => Ok(established(station, establishment)),
        Rsl::DataIndication(data) => brought(alloc, station, data),
        Rsl::RfChannelReleaseAck(channel) => Ok(Said::Released {
            at: channel_at(station, channel),
        }),
        _ => Ok(Said::Nothing),
    }
}

fn established(station: u16, establishment: Establishment) -> Said
    ensures { result ≡ reading.established (reading.channel_at station establishment.channel)
        (reading.sapi_of establishment.link) establishment.l3 }
{
    match (sapi_of(establishment.link), establishment.l3) {
        (Some(Sapi::Zero), Some(message)) => Said::Establishes {
            at: channel_at(station, establishment.channel),
            message,
        },
        _ => Said::Nothing,
    }
}

fn brought(alloc: Global, station: u16, data: Data) -> Result<Said, Memory>
    ensures { IfOk result (λ said. said ≡ reading.brought (reading.is_dtap «data».l3)
        (reading.channel_at station «data».channel) (reading.sapi_of «data».link) «data».l3) }
{
    let at = channel_at(station, data.channel);
    match (is_dtap(data.l3.as_slice()), sapi_of(data.link)) {
        (true, Some(sapi)) => Ok(Said::Brings {
            at,
            sapi,
            message: data.l3,
        }),
        (false, Some(Sapi::Zero)) => answer(alloc, at, data.l3.as_slice()),
        _ => Ok(Said::Nothing),
    }
}

// What a radio resource message of the mobile says: an answer to a COMMAND, or nothing.
fn answer(alloc: Global, at: StationChannel, l3: &[u8]) -> Result<Said, Memory>
    ensures { IfOk result (λ said. said ≡ reading.answer at (rr_reading l3.now)) }
{
    match RrMessage::read(alloc, l3) {
        Ok(message) => Ok(answer_in(at, &message)),
        Err(RrFault::Memory) => Err(Memory),
        Err(_) => Ok(Said::Nothing),
    }
}

fn answer_in(at: StationChannel, message: &RrMessage) -> Said
    ensures { result ≡ reading.answer at (Ok message.now) }
{
    match message {
        RrMessage::AssignmentComplete { .. } => Said::Completes {
            at,
            change: Change::Assignment,
        },
        RrMessage::HandoverComplete { .. } => Said::Completes {
            at,
            change: Change::Handover,
        },
        RrMessage::AssignmentFailure { .. } => Said::Fails {
            at,
            change: Change::Assignment,
        },
        RrMessage::HandoverFailure { .. } => Said::Fails {
            at,
            change: Change::Handover,
        },
        _ => Said::Nothing,
    }
}

fn said_to_station(alloc: Global, station: u16, body: &[u8], message: Rsl) -> Result<Said, Memory>
    ensures { IfOk result
        (λ said. said ≡ reading.said_to_station station body.now (Ok message)) }
{
    match message {
        Rsl::ChannelActivation(activation) => Ok(Said::Activates {
            at: channel_at(station, activation.channel),
            reference: handover_reference(body),
        }),
        Rsl::RfChannelRelease(channel) => Ok(Said::Releases {
            at: channel_at(station, channel),
        }),
        Rsl::DataRequest(data) => handed(alloc, station, data),
        _ => Ok(Said::Nothing),
    }
}

fn handed(alloc: Global, station: u16, data: Data) -> Result<Said, Memory>
    ensures { IfOk result (λ said. said ≡ reading.handed (reading.is_dtap «data».l3)
        (reading.channel_at station «data».channel) (reading.link_sapi «data».link) «data».l3) }
{
    let at = channel_at(station, data.channel);
    match (is_dtap(data.l3.as_slice()), link_sapi(data.link)) {
        (true, Some(sapi)) => Ok(Said::Hands {
            at,
            sapi,
            message: data.l3,
        }),
        (false, Some(Sapi::Zero)) => command(alloc, at, data.l3.as_slice()),
        _ => Ok(Said::Nothing),
    }
}

// What a radio resource message to the mobile says: the channel to which a COMMAND sends the
// mobile, or nothing.
fn command(alloc: Global, at: StationChannel, l3: &[u8]) -> Result<Said, Memory>
    ensures { IfOk result (λ said. said ≡ reading.command at (rr_reading l3.now)) }
{
    match RrMessage::read(alloc, l3) {
        Ok(message) => Ok(command_in(at, &message)),
        Err(RrFault::Memory) => Err(Memory),
        Err(_) => Ok(Said::Nothing),
    }
}

fn command_in(at: StationChannel, message: &RrMessage) -> Said
    ensures { result ≡ reading.command at (Ok message.now) }
{
    match message {
        RrMessage::AssignmentCommand { channel } => Said::Assigns {
            at,
            number: channel.channel.0,
        },
        RrMessage::HandoverCommand {
            cell,
            channel,
            reference,
        } => Said::HandsOver {
            at,
            cell: *cell,
            number: channel.channel.0,
            reference: *reference,
        },
        _ => Said::Nothing,
    }
}

// The SAPI of a link identifier from a station: SAPI 0 only on the main link, SAPI 3 on the main
// link or the SACCH. `None` for any other link identifier.
fn sapi_of(link: LinkId) -> Option<Sapi>
    ensures { result ≡ reading.sapi_of link }
{
    let octet = link.octet();
    if octet == LinkId::signalling().octet() {
        return Some(Sapi::Zero);
    }
    let is_main_or_sacch = octet / 64 == MAIN_CHANNEL || octet / 64 == SACCH;
    if octet % 8 == SHORT_MESSAGE_SAPI && is_main_or_sacch {
        Some(Sapi::Three)
    } else {
        None
    }
}

// The SAPI of a link identifier, whatever its channel; `None` unless the SAPI is 0 or 3.
fn link_sapi(link: LinkId) -> Option<Sapi>
    ensures { result ≡ reading.link_sapi link }
{
    match link.octet() % 8 {
        0 => Some(Sapi::Zero),
        SHORT_MESSAGE_SAPI => Some(Sapi::Three),
        _ => None,
    }
}

fn channel_at(station: u16, number: ChanNo) -> StationChannel
    ensures { result ≡ reading.channel_at station number }
{
    StationChannel {
        station,
        number: number.octet(),
    }
}
