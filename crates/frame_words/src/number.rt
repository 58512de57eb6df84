// SPDX-License-Identifier: MIT OR Apache-2.0
ghost use Rattle.std.specs.Prelude.{◌≡◌, IfErr, IfOk, Ok, OnOk};
ghost use Rattle.std.specs.Io.KnownBytes.{Appends};
ghost use Rattle.bssmap_codec.specs.BssapReading.{bssap_reading};
ghost use Rattle.bssmap_codec.specs.SccpReading.{sccp_reading};
ghost use Rattle.dtap_codec.specs.Number.{count_of};
ghost use Rattle.program_io.specs.Status.{status_of};
ghost use Rattle.rsl_codec.specs.RslReading.{rsl_reading};
ghost use Rattle.frame_words.specs.Numbered.{bssap_number, number_field, number_in_frame};
ghost use Rattle.frame_words.specs.Numbered.{rsl_number, sccp_number, transfer_number};

use crate::joined::write_joined;
use bssmap_codec::{Bssap, InterfaceFault, Sccp, read_bssap, read_sccp};
use dtap_codec::{Modulus, number_of};
use ipa_framing::{Frame, RSL_STREAM, SCCP_STREAM};
use itoa::Buffer;
use octets::Memory;
use program_io::Failure;
use rsl_codec::{Rsl, RslFault};
use std::alloc::Global;
use std::io::Write;

/// Writes the send sequence number N(SD) of the flow message in a frame, as in ` N(SD) 2` (TS
/// 24.007 clause 11.2.3.2.3). Only a DATA INDICATION, and DTAP in a DT1, can carry a flow message;
/// for any other frame or message nothing is written. Every DT1 is read as an uplink message. After
/// an error, a part may have been written.
pub fn write_number<W: Write>(
    alloc: Global,
    modulus: Modulus,
    frame: &Frame,
    output: &mut W,
) -> Result<(), Failure>
    ensures text { OnOk result (Appends (W.contents output.old) (W.contents output.new)
        (number_field (number_in_frame (count_of modulus) frame.now))) }
    ensures err { IfErr result (λ failure. status_of failure ≡ 3) }
{
    write_found(number_in_frame(alloc, modulus, frame)?, output)
}

/// Writes the number, or nothing if there is no number.
pub(crate) fn write_found<W: Write>(number: Option<u8>, output: &mut W) -> Result<(), Failure>
    ensures text { OnOk result (Appends (W.contents output.old) (W.contents output.new)
        (number_field number)) }
    ensures err { IfErr result (λ failure. status_of failure ≡ 3) }
{
    match number {
        None => Ok(()),
        Some(number) => {
            let mut digits = Buffer::new();
            write_joined(b" N(SD) ", digits.format(number).as_bytes(), b"", output)
        }
    }
}

fn number_in_frame(alloc: Global, modulus: Modulus, frame: &Frame) -> Result<Option<u8>, Memory>
    ensures { IfOk result (λ number. number ≡ number_in_frame (count_of modulus) frame.now) }
{
    match frame.stream {
        RSL_STREAM => rsl_number(alloc, modulus, frame.body.as_slice()),
        SCCP_STREAM => sccp_number(alloc, modulus, frame.body.as_slice()),
        _ => Ok(None),
    }
}

fn rsl_number(alloc: Global, modulus: Modulus, body: &[u8]) -> Result<Option<u8>, Memory>
    ensures { IfOk result (λ number.
        number ≡ rsl_number (count_of modulus) (rsl_reading body.now)) }
{
    match Rsl::read(alloc, body) {
        Ok(message) => Ok(rsl_message_number(modulus, &message)),
        Err(RslFault::Memory) => Err(Memory),
        Err(_) => Ok(None),
    }
}

pub(crate) fn rsl_message_number(modulus: Modulus, message: &Rsl) -> Option<u8>
    ensures { result ≡ rsl_number (count_of modulus) (Ok message.now) }
{
    match message {
        Rsl::DataIndication(message) => number_of(message.l3.as_slice(), modulus),
        _ => None,
    }
}

fn sccp_number(alloc: Global, modulus: Modulus, body: &[u8]) -> Result<Option<u8>, Memory>
    ensures { IfOk result (λ number.
        number ≡ sccp_number (count_of modulus) (sccp_reading body.now)) }
{
    match read_sccp(alloc, body) {
        Ok(Sccp::DataForm1 { data, .. }) => bssap_number(alloc, modulus, data.as_slice()),
        Ok(_) => Ok(None),
        Err(InterfaceFault::Memory) => Err(Memory),
        Err(_) => Ok(None),
    }
}

fn bssap_number(alloc: Global, modulus: Modulus, octets: &[u8]) -> Result<Option<u8>, Memory>
    ensures { IfOk result (λ number.
        number ≡ bssap_number (count_of modulus) (bssap_reading octets.now)) }
{
    match read_bssap(alloc, octets) {
        Ok(message) => Ok(transfer_number(modulus, &message)),
        Err(InterfaceFault::Memory) => Err(Memory),
        Err(_) => Ok(None),
    }
}

pub(crate) fn transfer_number(modulus: Modulus, message: &Bssap) -> Option<u8>
    ensures { result ≡ transfer_number (count_of modulus) message.now }
{
    match message {
        Bssap::Transfer { message, .. } => number_of(message.as_slice(), modulus),
        Bssap::Management(_) => None,
    }
}
