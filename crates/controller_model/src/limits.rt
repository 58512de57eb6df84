// SPDX-License-Identifier: MIT OR Apache-2.0
/// The greatest number of a connection. The number is the connection's SCCP local reference, which
/// has three octets (Q.713 clause 3.2).
pub const MAX_CONNECTION_NUMBER: u32 = 16_777_215;

/// The count of ignored items saturates at this value.
pub const MAX_IGNORED: u64 = u64::MAX;

/// Every number of a dedicated channel is below this bound (TS 48.058 clause 9.3.1).
pub const CHANNEL_NUMBERS: usize = 128;
