// SPDX-License-Identifier: MIT OR Apache-2.0
ghost use Rattle.std.specs.Prelude.{◌≡◌, ◌∷◌, [], IfErr, IfOk, OnOk};
ghost use Rattle.std.specs.Io.KnownBytes.{Appends};
ghost use Rattle.program_io.specs.Status.{status_of};
ghost use Rattle.bssmap_codec.specs.Reference.{reference_text};
ghost use Rattle.bssmap_codec.specs.SccpReading.{sccp_reading};
ghost use Rattle.rsl_codec.specs.RslReading.{rsl_reading};
ghost use Rattle.frame_words.specs.Fields.{channel_by, channel_field, channel_of, fields_text};
ghost use Rattle.frame_words.specs.Fields.{destination_of, reference_field, references_by};
ghost use Rattle.frame_words.specs.Fields.{references_text, source_of};

use crate::digits::{digits_of, reference_digits};
use crate::joined::write_joined;
use bssmap_codec::{InterfaceFault, Reference, Sccp, read_sccp};
use ipa_framing::{Frame, RSL_STREAM, SCCP_STREAM};
use octets::Memory;
use program_io::Failure;
use rsl_codec::{Rsl, RslFault};
use std::alloc::Global;
use std::io::Write;

/// Writes the fields of a frame. The field of a message on a station's link is the octet of its
/// channel number, as in ` channel 41`. The fields of a message on the switch's link are the
/// receiver's and the sender's references, as far as the message carries them, as in ` to 800001
/// from 000001`. Any other frame has no fields. After an error, a part may have been written.
pub fn write_fields<W: Write>(alloc: Global, frame: &Frame, output: &mut W) -> Result<(), Failure>
    ensures text { OnOk result (Appends (W.contents output.old) (W.contents output.new)
        (fields_text frame.now)) }
    ensures err { IfErr result (λ failure. status_of failure ≡ 3) }
{
    match frame.stream {
        RSL_STREAM => {
            let channel = channel_in(alloc, frame.body.as_slice())?;
            write_channel(channel, output)
        }
        SCCP_STREAM => write_references(alloc, frame.body.as_slice(), output),
        _ => Ok(()),
    }
}

/// The octet of the channel number of a message on a station's link; `None` if the octets aren't a
/// message.
fn channel_in(alloc: Global, body: &[u8]) -> Result<Option<u8>, Memory>
    ensures { IfOk result (λ channel. channel ≡ channel_by (rsl_reading body.now)) }
{
    match Rsl::read(alloc, body) {
        Ok(message) => Ok(Some(channel_of(&message))),
        Err(RslFault::Memory) => Err(Memory),
        Err(_) => Ok(None),
    }
}

pub(crate) fn channel_of(message: &Rsl) -> u8
    ensures { result ≡ channel_of message.now }
{
    match message {
        Rsl::DataRequest(message) => message.channel.octet(),
        Rsl::DataIndication(message) => message.channel.octet(),
        Rsl::ErrorIndication(message) => message.channel.octet(),
        Rsl::EstablishRequest(message) => message.channel.octet(),
        Rsl::EstablishConfirm(message) => message.channel.octet(),
        Rsl::EstablishIndication(message) => message.channel.octet(),
        Rsl::ReleaseRequest(message) => message.channel.octet(),
        Rsl::ReleaseConfirm(message) => message.channel.octet(),
        Rsl::ReleaseIndication(message) => message.channel.octet(),
        Rsl::ChannelRequired(message) => message.channel.octet(),
        Rsl::ImmediateAssignCommand(message) => message.channel.octet(),
        Rsl::ChannelActivation(message) => message.channel.octet(),
        Rsl::ChannelActivationAck(message) => message.channel.octet(),
        Rsl::ChannelActivationNack(message) => message.channel.octet(),
        Rsl::ConnectionFailure(message) => message.channel.octet(),
        Rsl::HandoverDetection(message) => message.channel.octet(),
        Rsl::MeasurementResult(message) => message.channel.octet(),
        Rsl::RfChannelRelease(channel) => channel.octet(),
        Rsl::RfChannelReleaseAck(channel) => channel.octet(),
    }
}

pub(crate) fn write_channel<W: Write>(channel: Option<u8>, output: &mut W) -> Result<(), Failure>
    ensures text { OnOk result (Appends (W.contents output.old) (W.contents output.new)
        (channel_field channel)) }
    ensures err { IfErr result (λ failure. status_of failure ≡ 3) }
{
    let Some(octet) = channel else {
        return Ok(());
    };
    write_joined(b" channel ", &digits_of(octet), b"", output)
}

/// Writes the references of a message on the switch's link. Writes nothing if the octets aren't a
/// message.
fn write_references<W: Write>(alloc: Global, body: &[u8], output: &mut W) -> Result<(), Failure>
    ensures text { OnOk result (Appends (W.contents output.old) (W.contents output.new)
        (references_by (sccp_reading body.now))) }
    ensures err { IfErr result (λ failure. status_of failure ≡ 3) }
{
    match read_sccp(alloc, body) {
        Ok(message) => write_both(&message, output),
        Err(InterfaceFault::Memory) => Err(Failure::Memory),
        Err(_) => Ok(()),
    }
}

fn write_both<W: Write>(message: &Sccp, output: &mut W) -> Result<(), Failure>
    ensures text { OnOk result (Appends (W.contents output.old) (W.contents output.new)
        (references_text message.now)) }
    ensures err { IfErr result (λ failure. status_of failure ≡ 3) }
{
    write_reference(" to ", destination_of(message), output)?;
    write_reference(" from ", source_of(message), output)
}

/// The receiver's reference, or `None` if the message doesn't carry it.
pub(crate) fn destination_of(message: &Sccp) -> Option<[u8; 3]>
    ensures { result ≡ destination_of message.now }
{
    match message {
        Sccp::ConnectionRequest { .. } => None,
        Sccp::ConnectionConfirm { destination, .. } => Some(octets_of(destination)),
        Sccp::ConnectionRefused { destination } => Some(octets_of(destination)),
        Sccp::Released { destination, .. } => Some(octets_of(destination)),
        Sccp::ReleaseComplete { destination, .. } => Some(octets_of(destination)),
        Sccp::DataForm1 { destination, .. } => Some(octets_of(destination)),
    }
}

/// The sender's reference, or `None` if the message doesn't carry it.
pub(crate) fn source_of(message: &Sccp) -> Option<[u8; 3]>
    ensures { result ≡ source_of message.now }
{
    match message {
        Sccp::ConnectionRequest { source, .. } => Some(octets_of(source)),
        Sccp::ConnectionConfirm { source, .. } => Some(octets_of(source)),
        Sccp::ConnectionRefused { .. } => None,
        Sccp::Released { source, .. } => Some(octets_of(source)),
        Sccp::ReleaseComplete { source, .. } => Some(octets_of(source)),
        Sccp::DataForm1 { .. } => None,
    }
}

/// The three octets of a reference, the most significant first.
fn octets_of(reference: &Reference) -> [u8; 3]
    ensures { result ≡ reference_text reference.now }
{
    let [_, high, middle, low] = reference.number().to_be_bytes();
    [high, middle, low]
}

/// Writes `word` and the digits of the reference; writes nothing if there is no reference.
pub(crate) fn write_reference<W: Write>(
    word: &str,
    reference: Option<[u8; 3]>,
    output: &mut W,
) -> Result<(), Failure>
    ensures text { OnOk result (Appends (W.contents output.old) (W.contents output.new)
        (reference_field word.now reference)) }
    ensures err { IfErr result (λ failure. status_of failure ≡ 3) }
{
    let Some(octets) = reference else {
        return Ok(());
    };
    write_joined(word.as_bytes(), &reference_digits(octets), b"", output)
}
