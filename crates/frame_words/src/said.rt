// SPDX-License-Identifier: MIT OR Apache-2.0
//! The contents of a frame, found by a single reading of the frame.
ghost use Rattle.std.specs.Prelude.{◌≡◌, [], IfOk, Ok, None};
ghost use Rattle.bssmap_codec.specs.BssapReading.{bssap_reading};
ghost use Rattle.bssmap_codec.specs.SccpReading.{sccp_reading};
ghost use Rattle.dtap_codec.specs.Number.{count_of};
ghost use Rattle.rsl_codec.specs.RslReading.{rsl_reading};
ghost use Rattle.frame_words.specs.Said.{Says, SaysBssap, SaysFrame, SaysInside, SaysRsl, SaysSccp};

use crate::carried::{bssap_message_name, rsl_message_carries};
use crate::fields::{channel_of, destination_of, source_of};
use crate::names::interface_fault_name;
use crate::number::{rsl_message_number, transfer_number};
use bssmap_codec::{InterfaceFault, Sccp, read_bssap, read_sccp};
use dtap_codec::Modulus;
use ipa_framing::{Frame, RSL_STREAM, SCCP_STREAM};
use octets::Memory;
use program_base::{frame_name, rsl_fault_name, rsl_message_name, sccp_message_name};
use rsl_codec::{Rsl, RslFault};
use std::alloc::Global;

/// The parts of a frame's line, except for the octets of the body.
#[derive(Clone, Copy)]
pub(crate) struct Said {
    pub(crate) name: &'static str,
    pub(crate) carried: Option<&'static str>,
    pub(crate) fields: Fields,
    pub(crate) number: Option<u8>,
}

/// The fields of a message: its channel, its references, or nothing.
#[derive(Clone, Copy)]
pub(crate) enum Fields {
    Nothing,
    Channel(u8),
    References {
        destination: Option<[u8; 3]>,
        source: Option<[u8; 3]>,
    },
}

/// The name and the number of the message in a DT1. If there is no such message, each is `None`.
#[derive(Clone, Copy)]
pub(crate) struct Inside {
    name: Option<&'static str>,
    number: Option<u8>,
}

impl Said {
    fn of_name(name: &'static str) -> Said
        ensures { Says result name.now None [] None }
    {
        Said {
            name,
            carried: None,
            fields: Fields::Nothing,
            number: None,
        }
    }
}

/// The parts of a frame's line. `modulus` is the number of sequence numbers of flow messages. Fails
/// only on allocation failure.
pub(crate) fn said_in(alloc: Global, modulus: Modulus, frame: &Frame) -> Result<Said, Memory>
    ensures { IfOk result (λ said. SaysFrame (count_of modulus) said frame.now) }
{
    match frame.stream {
        RSL_STREAM => rsl_said(alloc, modulus, frame.body.as_slice()),
        SCCP_STREAM => sccp_said(alloc, modulus, frame.body.as_slice()),
        _ => Ok(Said::of_name(frame_name(alloc, frame)?)),
    }
}

/// The parts of the line of a message on a station's link; if the octets aren't a message, only the
/// name of the fault.
fn rsl_said(alloc: Global, modulus: Modulus, body: &[u8]) -> Result<Said, Memory>
    ensures { IfOk result (λ said. SaysRsl (count_of modulus) said (rsl_reading body.now)) }
{
    match Rsl::read(alloc, body) {
        Ok(message) => rsl_message_said(alloc, modulus, &message),
        Err(RslFault::Memory) => Err(Memory),
        Err(fault) => Ok(Said::of_name(rsl_fault_name(fault))),
    }
}

fn rsl_message_said(alloc: Global, modulus: Modulus, message: &Rsl) -> Result<Said, Memory>
    ensures { IfOk result (λ said. SaysRsl (count_of modulus) said (Ok message.now)) }
{
    let carried = rsl_message_carries(alloc, message)?;
    Ok(Said {
        name: rsl_message_name(message),
        carried,
        fields: Fields::Channel(channel_of(message)),
        number: rsl_message_number(modulus, message),
    })
}

/// The parts of the line of a message on the switch's link; if the octets aren't a message, only
/// the name of the fault.
fn sccp_said(alloc: Global, modulus: Modulus, body: &[u8]) -> Result<Said, Memory>
    ensures { IfOk result (λ said. SaysSccp (count_of modulus) said (sccp_reading body.now)) }
{
    match read_sccp(alloc, body) {
        Ok(message) => sccp_message_said(alloc, modulus, &message),
        Err(InterfaceFault::Memory) => Err(Memory),
        Err(fault) => Ok(Said::of_name(interface_fault_name(fault))),
    }
}

fn sccp_message_said(alloc: Global, modulus: Modulus, message: &Sccp) -> Result<Said, Memory>
    ensures { IfOk result (λ said. SaysSccp (count_of modulus) said (Ok message.now)) }
{
    let inside = inside_of(alloc, modulus, message)?;
    Ok(Said {
        name: sccp_message_name(message),
        carried: inside.name,
        fields: Fields::References {
            destination: destination_of(message),
            source: source_of(message),
        },
        number: inside.number,
    })
}

/// The name and the number of the message inside `message`, which came on the switch's link. Name
/// and number are `None` unless `message` is a DT1.
fn inside_of(alloc: Global, modulus: Modulus, message: &Sccp) -> Result<Inside, Memory>
    ensures { IfOk result (λ inside. SaysInside (count_of modulus) inside message.now) }
{
    match message {
        Sccp::DataForm1 { data, .. } => bssap_said(alloc, modulus, data.as_slice()),
        _ => Ok(Inside {
            name: None,
            number: None,
        }),
    }
}

/// The name and the number of the BSSAP message in the octets; if the octets aren't a message, only
/// the name of the fault.
fn bssap_said(alloc: Global, modulus: Modulus, octets: &[u8]) -> Result<Inside, Memory>
    ensures { IfOk result
        (λ inside. SaysBssap (count_of modulus) inside (bssap_reading octets.now)) }
{
    match read_bssap(alloc, octets) {
        Ok(message) => Ok(Inside {
            name: Some(bssap_message_name(&message)),
            number: transfer_number(modulus, &message),
        }),
        Err(InterfaceFault::Memory) => Err(Memory),
        Err(fault) => Ok(Inside {
            name: Some(interface_fault_name(fault)),
            number: None,
        }),
    }
}
