// SPDX-License-Identifier: MIT OR Apache-2.0
//! The octets of a mobile's access on channel 41 of its cell, with the header of each frame.
use std::alloc::{AllocError, Global};

/// The frames that a station sends: CHANNEL REQUIRED, CHANNEL ACTIVATION ACK, ESTABLISH INDICATION
/// and PING. The answer to PING shows that all of these frames were taken.
pub(crate) const STATION: &[u8] = &[
    0x00, 0x0a, 0x00, 0x0c, 0x13, 0x01, 0x88, 0x13, 0x7f, 0x01, 0x02, 0x11, 0x05, 0x00, 0x07, 0x00,
    0x08, 0x22, 0x01, 0x41, 0x08, 0x00, 0x00, 0x00, 0x0c, 0x00, 0x02, 0x06, 0x01, 0x41, 0x02, 0x00,
    0x0b, 0x00, 0x03, 0x05, 0x24, 0x71, 0x00, 0x01, 0xfe, 0x00,
];

/// How many frames of `STATION` are whole in its first `octets` octets.
pub(crate) fn whole_frames(octets: usize) -> u32 {
    match octets {
        0..=12 => 0,
        13..=22 => 1,
        23..=37 => 2,
        38..=41 => 3,
        _ => 4,
    }
}

/// The first `octets` octets that a station sends.
pub(crate) fn first(octets: usize) -> &'static [u8] {
    STATION.get(..octets).unwrap_or(STATION)
}

pub(crate) const CHANNEL_ACTIVATION: [u8; 15] = [
    0x00, 0x0c, 0x00, 0x08, 0x21, 0x01, 0x41, 0x03, 0x00, 0x06, 0x04, 0x00, 0x03, 0x01, 0x00,
];

const PONG: [u8; 4] = [0x00, 0x01, 0xfe, 0x01];

/// A DATA REQUEST with CHANNEL RELEASE.
const CHANNEL_RELEASE: [u8; 15] = [
    0x00, 0x0c, 0x00, 0x03, 0x01, 0x01, 0x41, 0x02, 0x00, 0x0b, 0x00, 0x03, 0x06, 0x0d, 0x01,
];

const RF_CHANNEL_RELEASE: [u8; 7] = [0x00, 0x04, 0x00, 0x08, 0x2e, 0x01, 0x41];

/// The IMMEDIATE ASSIGN COMMAND with the training sequence and the frequency of the cell.
fn immediate_assign(cell: u8) -> [u8; 32] {
    let (training, frequency) = if cell == 1 {
        (0x20, 0x14)
    } else {
        (0x40, 0x1e)
    };
    [
        0x00, 0x1d, 0x00, 0x0c, 0x16, 0x01, 0x90, 0x2b, 0x17, 0x2d, 0x06, 0x3f, 0x00, 0x41,
        training, frequency, 0x7f, 0x01, 0x02, 0x05, 0x00, 0x2b, 0x2b, 0x2b, 0x2b, 0x2b, 0x2b,
        0x2b, 0x2b, 0x2b, 0x2b, 0x2b,
    ]
}

/// CHANNEL ACTIVATION NACK of channel 41, and another CHANNEL REQUIRED.
pub(crate) const NACK_AND_REQUEST: [u8; 20] = [
    0x00, 0x04, 0x00, 0x08, 0x23, 0x01, 0x41, 0x00, 0x0a, 0x00, 0x0c, 0x13, 0x01, 0x88, 0x13, 0x7f,
    0x03, 0x04, 0x11, 0x05,
];

/// How many octets a station gets as answers to its first `frames` frames.
pub(crate) fn answered(frames: u32) -> u64 {
    match frames {
        0 => 0,
        1 => 15,
        2 | 3 => 47,
        _ => 51,
    }
}

/// How many more octets a station gets when the link of the switch is down.
pub(crate) fn released(frames: u32) -> u64 {
    match frames {
        0 => 0,
        1 | 2 => 7,
        _ => 22,
    }
}

/// The octets that the station of this cell gets for its first `frames` frames, and then when the
/// link of the switch is down.
pub(crate) fn answers(alloc: Global, cell: u8, frames: u32) -> Result<Vec<u8>, AllocError> {
    let assign = immediate_assign(cell);
    let parts: [(bool, &[u8]); 5] = [
        (frames > 0, &CHANNEL_ACTIVATION),
        (frames > 1, &assign),
        (frames > 3, &PONG),
        (frames > 2, &CHANNEL_RELEASE),
        (frames > 0, &RF_CHANNEL_RELEASE),
    ];
    let mut text = Vec::with_capacity(alloc, 80)?;
    for (is_due, part) in parts {
        if is_due {
            text.extend_from_slice(part)?;
        }
    }
    Ok(text)
}

/// The connection request with this number, for a mobile in this cell.
fn request(number: u8, cell: u8) -> [u8; 34] {
    [
        0x00, 0x1f, 0xfd, 0x01, 0x00, 0x00, number, 0x02, 0x02, 0x04, 0x02, 0x42, 0xfe, 0x0f, 0x12,
        0x00, 0x10, 0x57, 0x05, 0x08, 0x00, 0x00, 0xf1, 0x10, 0x00, 0x01, 0x00, cell, 0x17, 0x03,
        0x05, 0x24, 0x71, 0x00,
    ]
}

/// How many octets the switch gets once a station has sent its first `frames` frames.
pub(crate) fn requested(frames: u32) -> u64 {
    if frames > 2 { 34 } else { 0 }
}

/// The connection requests for pairs of a mobile's number and a cell.
pub(crate) fn requests(alloc: Global, mobiles: &[(u8, u8)]) -> Result<Vec<u8>, AllocError> {
    let mut text = Vec::with_capacity(alloc, 80)?;
    for (number, cell) in mobiles {
        text.extend_from_slice(&request(*number, *cell))?;
    }
    Ok(text)
}
