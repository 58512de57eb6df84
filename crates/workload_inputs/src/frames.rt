// SPDX-License-Identifier: MIT OR Apache-2.0
//! Frames in the form in which links carry them.
ghost use Rattle.std.specs.Prelude.{◌≤◌};

use crate::draw::Draw;
use crate::report::{Neighbour, report};
use ipa_framing::{CCM_STREAM, OML_STREAM, PING, RSL_STREAM, SCCP_STREAM};
use octets::Memory;
use std::alloc::Global;

/// Appends a frame whose body is the parts, one after the other.
pub(crate) fn put_frame(text: &mut Vec<u8>, stream: u8, parts: &[&[u8]]) -> Result<(), Memory> {
    let mut size = 0_usize;
    for part in parts {
        size = size.saturating_add(part.len());
    }
    let [high, low] = (size.min(2048) as u16).to_be_bytes();
    text.extend_from_slice(&[high, low, stream])?;
    for part in parts {
        text.extend_from_slice(*part)?;
    }
    Ok(())
}

/// Fills the front of `room` with a layer 3 message that begins with the octets `first` and
/// `second`. Returns the size of the message in octets.
pub(crate) fn fill_message(room: &mut [u8; 251], first: u8, second: u8, draw: &mut Draw) -> usize
    ensures { result ≤ 251 }
{
    let size = draw.message_size();
    draw.fill(&mut room[..size]);
    room[0] = first;
    room[1] = second;
    size
}

/// Appends a DATA INDICATION or a DATA REQUEST: the message whose type is `kind`.
pub(crate) fn put_data(
    text: &mut Vec<u8>,
    kind: u8,
    channel: u8,
    message: &[u8],
) -> Result<(), Memory> {
    let [high, low] = (message.len().min(251) as u16).to_be_bytes();
    let head = [0x03, kind, 0x01, channel, 0x02, 0x00, 0x0b, high, low];
    put_frame(text, RSL_STREAM, &[&head, message])
}

/// Appends a MEASUREMENT RESULT with a report of these neighbours.
pub(crate) fn put_result(
    text: &mut Vec<u8>,
    channel: u8,
    number: u8,
    level: u8,
    neighbours: &[Neighbour],
) -> Result<(), Memory> {
    let head = [
        0x08, 0x28, 0x01, channel, 0x1b, number, 0x19, 0x03, level, level, 0x00, 0x04, 0x00, 0x0a,
        0x03, 0x00, 0x0b, 0x00, 0x12, 0x06, 0x15,
    ];
    put_frame(text, RSL_STREAM, &[&head, &report(level, neighbours)])
}

/// Appends DTAP from the switch or to the switch, in a DT1 for this reference.
pub(crate) fn put_dtap(text: &mut Vec<u8>, number: u32, message: &[u8]) -> Result<(), Memory> {
    let [_, high, middle, low] = number.to_be_bytes();
    let size = message.len().min(251) as u8;
    let head = [
        0x06,
        high,
        middle,
        low,
        0x00,
        0x01,
        size + 3,
        0x01,
        0x00,
        size,
    ];
    put_frame(text, SCCP_STREAM, &[&head, message])
}

/// Neighbours of a serving cell that is heard with this level. No neighbour is better than the
/// serving cell.
pub(crate) fn weaker(draw: &mut Draw, level: u8) -> [Neighbour; 6] {
    let mut all = [Neighbour {
        level: 0,
        place: 0,
        bsic: 9,
    }; 6];
    for (place, neighbour) in all.iter_mut().enumerate() {
        let below = draw.below(12) as u8;
        neighbour.level = level.saturating_sub(below);
        neighbour.place = (place * 5) as u8 + (below % 5);
        neighbour.bsic = if below == 11 { 10 } else { 9 };
    }
    all
}

/// The octets of a captured link, which carries frames of all kinds. There are at least `size`
/// octets. `Err`: memory ran out.
pub fn capture(alloc: Global, size: usize, draw: &mut Draw) -> Result<Vec<u8>, Memory> {
    let mut text = Vec::with_capacity(alloc, size)?;
    for _ in 0..size {
        put_any(&mut text, draw)?;
        if text.len() >= size {
            break;
        }
    }
    Ok(text)
}

/// Appends a frame of a drawn kind. Half of all frames are measurement results, and a third carry
/// layer 3 messages.
fn put_any(text: &mut Vec<u8>, draw: &mut Draw) -> Result<(), Memory> {
    let mut room = [0; 251];
    let channel = 0x40 | (draw.octet() & 0x3f);
    let number = u32::from(draw.below(4096)) + 1;
    match draw.below(24) {
        0..=11 => {
            let level = 20 + draw.below(30) as u8;
            let neighbours = weaker(draw, level);
            let count = usize::from(draw.below(6) + 1);
            put_result(text, channel, draw.octet(), level, &neighbours[..count])
        }
        12..=14 => {
            let size = fill_message(&mut room, 0x03, 0x45, draw);
            put_data(text, 0x02, channel, &room[..size])
        }
        15..=16 => {
            let size = fill_message(&mut room, 0x83, 0x02, draw);
            put_data(text, 0x01, channel, &room[..size])
        }
        17..=19 => {
            let size = fill_message(&mut room, 0x83, 0x02, draw);
            put_dtap(text, number, &room[..size])
        }
        20 => put_frame(text, SCCP_STREAM, &[&clear_command(number)]),
        21 => put_frame(text, RSL_STREAM, &[&required(draw.octet())]),
        22 => put_frame(text, RSL_STREAM, &[&establishment(channel), &INITIAL]),
        _ => put_odd(text, draw),
    }
}

/// Appends a frame of another stream, a frame without a body, or a frame whose body isn't a
/// message.
fn put_odd(text: &mut Vec<u8>, draw: &mut Draw) -> Result<(), Memory> {
    match draw.below(6) {
        0 => put_frame(text, CCM_STREAM, &[&[PING]]),
        1 => put_frame(text, OML_STREAM, &[]),
        2 => put_frame(text, RSL_STREAM, &[]),
        3 => put_frame(
            text,
            RSL_STREAM,
            &[&[0x03, 0x01, 0x01, 0x41, 0x02, 0x00, 0x0b, 0x00]],
        ),
        4 => put_frame(text, RSL_STREAM, &[&[0x08, 0x2e, 0x01, 0x07]]),
        _ => put_frame(
            text,
            SCCP_STREAM,
            &[&[0x06, 0x00, 0x00, 0x01, 0x00, 0x01, 0x09, 0x00]],
        ),
    }
}

/// CM SERVICE REQUEST, the message that a mobile begins with.
const INITIAL: [u8; 3] = [0x05, 0x24, 0x71];

/// ESTABLISH INDICATION up to its L3 information of three octets.
fn establishment(channel: u8) -> [u8; 9] {
    [0x02, 0x06, 0x01, channel, 0x02, 0x00, 0x0b, 0x00, 0x03]
}

/// CHANNEL REQUIRED.
pub(crate) fn required(access: u8) -> [u8; 10] {
    [0x0c, 0x13, 0x01, 0x88, 0x13, access, 0x01, 0x02, 0x11, 0x05]
}

/// CLEAR COMMAND in a DT1.
pub(crate) fn clear_command(number: u32) -> [u8; 13] {
    let [_, high, middle, low] = number.to_be_bytes();
    [
        0x06, high, middle, low, 0x00, 0x01, 0x06, 0x00, 0x04, 0x20, 0x04, 0x01, 0x09,
    ]
}
