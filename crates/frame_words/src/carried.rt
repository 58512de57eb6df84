// SPDX-License-Identifier: MIT OR Apache-2.0
ghost use Rattle.std.specs.Prelude.{◌≡◌, IfOk, Ok, option_map};
ghost use Rattle.frame_words.specs.Carried.{bssap_name, carried_by, layer_3_name, rr_message_name};
ghost use Rattle.frame_words.specs.Carried.{bssap_message_name as bssap_message_name_of};
ghost use Rattle.frame_words.specs.Carried.{rsl_carries, rsl_carries_by, sccp_carries};

use crate::names::{bssmap_name, dtap_name, interface_fault_name, rr_name};
use bssmap_codec::{Bssap, InterfaceFault, Sccp, read_bssap, read_sccp};
use dtap_codec::{
    CALL_CONTROL, MOBILITY_MANAGEMENT, RADIO_RESOURCE, RrFault, RrMessage, SHORT_MESSAGES,
    SUPPLEMENTARY_SERVICES, pd_of,
};
use ipa_framing::{Frame, RSL_STREAM, SCCP_STREAM};
use octets::Memory;
use rsl_codec::{Rsl, RslFault};
use std::alloc::Global;

/// The name of the message inside a DT1, a DATA REQUEST or a DATA INDICATION; `None` for any other
/// frame. For a DT1, the result is the name of the BSSMAP message, `DTAP` with the SAPI, or the
/// name of the fault in the user data. For the other two, the result is the protocol that the
/// discriminator gives; `RR` is followed by the name of the message, if that is known. Fails only
/// on allocation failure.
pub fn carried_name(alloc: Global, frame: &Frame) -> Result<Option<&'static str>, Memory>
    ensures { IfOk result (λ name. option_map (λ text. text.now) name ≡ carried_by frame.now) }
{
    match frame.stream {
        RSL_STREAM => rsl_carries(alloc, frame.body.as_slice()),
        SCCP_STREAM => sccp_carries(alloc, frame.body.as_slice()),
        _ => Ok(None),
    }
}

/// The name of the message inside a frame's body on a station's link; `None` if there is no message
/// inside.
fn rsl_carries(alloc: Global, body: &[u8]) -> Result<Option<&'static str>, Memory>
    ensures { IfOk result (λ name. option_map (λ text. text.now) name ≡ rsl_carries body.now) }
{
    match Rsl::read(alloc, body) {
        Ok(message) => rsl_message_carries(alloc, &message),
        Err(RslFault::Memory) => Err(Memory),
        Err(_) => Ok(None),
    }
}

pub(crate) fn rsl_message_carries(
    alloc: Global,
    message: &Rsl,
) -> Result<Option<&'static str>, Memory>
    ensures { IfOk result (λ name.
        option_map (λ text. text.now) name ≡ rsl_carries_by (Ok message.now)) }
{
    match message {
        Rsl::DataRequest(data) => Ok(Some(layer_3_name(alloc, data.l3.as_slice())?)),
        Rsl::DataIndication(data) => Ok(Some(layer_3_name(alloc, data.l3.as_slice())?)),
        _ => Ok(None),
    }
}

/// The name of the message inside a frame's body on the switch's link; `None` if there is no
/// message inside.
fn sccp_carries(alloc: Global, body: &[u8]) -> Result<Option<&'static str>, Memory>
    ensures { IfOk result (λ name. option_map (λ text. text.now) name ≡ sccp_carries body.now) }
{
    match read_sccp(alloc, body) {
        Ok(Sccp::DataForm1 { data, .. }) => Ok(Some(bssap_name(alloc, data.as_slice())?)),
        Ok(_) => Ok(None),
        Err(InterfaceFault::Memory) => Err(Memory),
        Err(_) => Ok(None),
    }
}

/// The name of the BSSAP message in the octets, or of the fault in them.
fn bssap_name(alloc: Global, octets: &[u8]) -> Result<&'static str, Memory>
    ensures { IfOk result (λ name. name.now ≡ bssap_name octets.now) }
{
    match read_bssap(alloc, octets) {
        Ok(message) => Ok(bssap_message_name(&message)),
        Err(InterfaceFault::Memory) => Err(Memory),
        Err(fault) => Ok(interface_fault_name(fault)),
    }
}

pub(crate) fn bssap_message_name(message: &Bssap) -> &'static str
    ensures { result.now ≡ bssap_message_name_of message.now }
{
    match message {
        Bssap::Management(message) => bssmap_name(message.kind()),
        Bssap::Transfer { dlci, .. } => dtap_name(dlci.octet()),
    }
}

/// The name of the protocol that the discriminator of a layer 3 message gives (TS 24.007 clause
/// 11.2.3.1.1). `RR` is followed by the name of the message, if that is known. The result is
/// `unknown` if the discriminator is another one or the message is empty.
fn layer_3_name(alloc: Global, message: &[u8]) -> Result<&'static str, Memory>
    ensures { IfOk result (λ name. name.now ≡ layer_3_name message.now) }
{
    match pd_of(message) {
        Some(CALL_CONTROL) => Ok("CC"),
        Some(MOBILITY_MANAGEMENT) => Ok("MM"),
        Some(RADIO_RESOURCE) => rr_message_name(alloc, message),
        Some(SHORT_MESSAGES) => Ok("SMS"),
        Some(SUPPLEMENTARY_SERVICES) => Ok("SS"),
        _ => Ok("unknown"),
    }
}

/// `RR`, followed by the name of the message if the octets are a known message.
fn rr_message_name(alloc: Global, message: &[u8]) -> Result<&'static str, Memory>
    ensures { IfOk result (λ name. name.now ≡ rr_message_name message.now) }
{
    match RrMessage::read(alloc, message) {
        Ok(message) => Ok(rr_name(message.kind())),
        Err(RrFault::Memory) => Err(Memory),
        Err(_) => Ok("RR"),
    }
}
