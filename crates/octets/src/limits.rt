// SPDX-License-Identifier: MIT OR Apache-2.0
/// The greatest length of a layer 3 message in octets: the layer 2 segments of one message can
/// carry no more (TS 44.006).
pub const MESSAGE_LIMIT: usize = 251;

/// The greatest length of an initial layer 3 message in octets. A message of this length, the cell
/// identifier and the headers fill the user data of an SCCP connection request (Q.713).
pub const INITIAL_LIMIT: usize = 113;

/// The greatest length that a length octet can hold.
pub const LENGTH_LIMIT: usize = 255;
