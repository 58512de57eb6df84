// SPDX-License-Identifier: MIT OR Apache-2.0
ghost use Rattle.std.specs.Prelude.{◌≡◌, IfErr, OnOk};
ghost use Rattle.std.specs.Io.KnownBytes.{Appends};
ghost use Rattle.dtap_codec.specs.Number.{count_of};
ghost use Rattle.program_io.specs.Status.{status_of};
ghost use Rattle.judge_report.specs.MessageText.{message_text, number_said, number_text};
ghost use Rattle.judge_report.specs.MessageText.{protocol_text};

use crate::direction::Direction;
use dtap_codec::{
    CALL_CONTROL, MOBILITY_MANAGEMENT, Modulus, RADIO_RESOURCE, SHORT_MESSAGES,
    SUPPLEMENTARY_SERVICES, number_of, pd_of,
};
use octets::Memory;
use program_io::Failure;
use std::alloc::Global;
use std::io::Write;

/// Writes the protocol of a message, its N(SD) if it is an uplink message with N(SD), and its
/// octets.
pub(crate) fn write_message<W: Write>(
    alloc: Global,
    modulus: Modulus,
    direction: Direction,
    message: &[u8],
    output: &mut W,
) -> Result<(), Failure>
    ensures text { OnOk result (Appends (W.contents output.old) (W.contents output.new)
        (message_text (count_of modulus) direction message.now)) }
    ensures err { IfErr result (λ failure. status_of failure ≡ 3) }
{
    let protocol = protocol_of(message);
    write!(output, "{protocol}")?;
    write_number(number_said(modulus, direction, message), output)?;
    let digits = hex::encode(alloc, message).map_err(Memory::from)?;
    write!(output, " {digits}")?;
    Ok(())
}

/// The protocol of a message, in a word.
fn protocol_of(message: &[u8]) -> &'static str
    ensures { result.now ≡ protocol_text message.now }
{
    match pd_of(message) {
        Some(CALL_CONTROL) => "CC",
        Some(MOBILITY_MANAGEMENT) => "MM",
        Some(RADIO_RESOURCE) => "RR",
        Some(SHORT_MESSAGES) => "SMS",
        Some(SUPPLEMENTARY_SERVICES) => "SS",
        _ => "unknown",
    }
}

/// The N(SD) of an uplink message. `None` for a downlink message, or a message without N(SD).
fn number_said(modulus: Modulus, direction: Direction, message: &[u8]) -> Option<u8>
    ensures { result ≡ number_said (count_of modulus) direction message.now }
{
    match direction {
        Direction::Up => number_of(message, modulus),
        Direction::Down => None,
    }
}

fn write_number<W: Write>(number: Option<u8>, output: &mut W) -> Result<(), Failure>
    ensures text { OnOk result (Appends (W.contents output.old) (W.contents output.new)
        (number_text number)) }
    ensures err { IfErr result (λ failure. status_of failure ≡ 3) }
{
    if let Some(number) = number {
        write!(output, " N(SD) {number}")?;
    }
    Ok(())
}
