// SPDX-License-Identifier: MIT OR Apache-2.0
/// Protocol class 2: data arrive in order, without flow control (Q.713 clause 3.6).
pub const PROTOCOL_CLASS: u8 = 0x02;

/// The cause 'end user originated' of a release and of a refusal (Q.713 clauses 3.11 and 3.15).
pub const END_USER_ORIGINATED: u8 = 0x00;

/// The segmenting octet of a DT1 whose data aren't continued in another DT1 (Q.713 clause 3.7).
pub const UNSEGMENTED: u8 = 0x00;

/// The called address of a connection request (Q.713 clause 3.4): a length octet, the address
/// indicator and the subsystem number of BSSAP.
pub const CALLED_ADDRESS: [u8; 3] = [0x02, 0x42, 0xfe];

/// The pointer of a CR to its called address, counted from the pointer's own octet (Q.713 clause
/// 2.3).
pub const ADDRESS_POINTER: u8 = 0x02;

/// The pointer of a CR to its options, counted from the pointer's own octet.
pub const OPTIONS_POINTER: u8 = 0x04;

/// The pointer of a DT1 to its data, counted from the pointer's own octet.
pub const DATA_POINTER: u8 = 0x01;

/// The pointer of a message without the part to which it would lead.
pub const NO_PART: u8 = 0x00;
