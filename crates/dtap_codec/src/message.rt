// SPDX-License-Identifier: MIT OR Apache-2.0
ghost use Rattle.std.specs.Prelude.{◌≡◌};
ghost use Rattle.dtap_codec.specs.Message.{discriminator, is_flow_message};

/// Protocol discriminator of call control, CC.
pub const CALL_CONTROL: u8 = 0x03;

/// Protocol discriminator of mobility management, MM.
pub const MOBILITY_MANAGEMENT: u8 = 0x05;

/// Protocol discriminator of radio resource management, RR.
pub const RADIO_RESOURCE: u8 = 0x06;

/// Protocol discriminator of short messages, SMS.
pub const SHORT_MESSAGES: u8 = 0x09;

/// Protocol discriminator of non call related supplementary services, SS.
pub const SUPPLEMENTARY_SERVICES: u8 = 0x0b;

/// The protocol discriminator of a message: bits 4 to 1 of the first octet (TS 24.007 clause
/// 11.2.3.1.1). `None` for an empty message.
pub fn pd_of(message: &[u8]) -> Option<u8>
    ensures { result ≡ discriminator message.now }
{
    let first = message.first()?;
    Some(*first & 0x0f)
}

/// Whether a message belongs to the flow of MM, CC and SS: its discriminator is that of one of
/// these protocols, and it has at least two octets. Messages of the flow carry a send sequence
/// number (TS 24.007 clause 11.2.3.2.3.1).
pub fn is_flow(message: &[u8]) -> bool
    ensures { result ≡ is_flow_message message.now }
{
    match message {
        [first, _, ..] => matches!(
            *first & 0x0f,
            CALL_CONTROL | MOBILITY_MANAGEMENT | SUPPLEMENTARY_SERVICES
        ),
        _ => false,
    }
}
