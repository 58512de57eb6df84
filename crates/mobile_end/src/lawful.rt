// SPDX-License-Identifier: MIT OR Apache-2.0
ghost use Rattle.std.specs.Prelude.{◌≡◌};
ghost use Rattle.mobile_end.specs.Lawful.{has_clear_number, is_initial, is_sendable};

use dtap_codec::{
    CALL_CONTROL, MOBILITY_MANAGEMENT, RADIO_RESOURCE, SHORT_MESSAGES, SUPPLEMENTARY_SERVICES,
    Sapi, pd_of,
};
use octets::{INITIAL_LIMIT, MESSAGE_LIMIT};

/// Bit 7 of an octet. Bits 8 and 7 of a message's second octet hold the send sequence number. Both
/// bits are clear exactly if the octet is below this value.
const NUMBER_BIT: u8 = 0x40;

/// Whether the upper layers may send this message on this SAPI. The message must have 1 to
/// `MESSAGE_LIMIT` octets, and must not be of radio resource management. A message of the flow must
/// have both octets of its header, with the bits of the number clear. Short messages must be sent
/// on SAPI 3, all other messages on SAPI 0.
pub(crate) fn is_sendable(sapi: Sapi, message: &[u8]) -> bool
    ensures { result ≡ is_sendable sapi message.now }
{
    let Some(protocol) = pd_of(message) else {
        return false;
    };
    let on_its_sapi = match sapi {
        Sapi::Zero => protocol != SHORT_MESSAGES && protocol != RADIO_RESOURCE,
        Sapi::Three => protocol == SHORT_MESSAGES,
    };
    message.len() <= MESSAGE_LIMIT && on_its_sapi && has_clear_number(message)
}

/// Whether a connection may begin with this message. The message must have 1 to `INITIAL_LIMIT`
/// octets, and must be of radio resource management or of mobility management. A message of
/// mobility management must have both octets of its header, with the bits of the number clear.
pub fn is_initial(message: &[u8]) -> bool
    ensures { result ≡ is_initial message.now }
{
    let Some(protocol) = pd_of(message) else {
        return false;
    };
    message.len() <= INITIAL_LIMIT
        && (protocol == MOBILITY_MANAGEMENT || protocol == RADIO_RESOURCE)
        && has_clear_number(message)
}

/// Whether the message isn't of a protocol of the flow, or has both octets of its header with the
/// bits of the number clear.
fn has_clear_number(message: &[u8]) -> bool
    ensures { result ≡ has_clear_number message.now }
{
    match pd_of(message) {
        Some(CALL_CONTROL | MOBILITY_MANAGEMENT | SUPPLEMENTARY_SERVICES) => match message {
            [_, second, ..] => *second < NUMBER_BIT,
            _ => false,
        },
        _ => true,
    }
}
