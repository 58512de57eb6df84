// SPDX-License-Identifier: MIT OR Apache-2.0
/// The greatest number of a tenure. A channel whose last tenure has this number can't be activated
/// again.
pub const MAX_TENURE: u64 = u64::MAX;

/// The value at which the count of events that no actor could take saturates.
pub const MAX_NOT_TAKEN: u64 = u64::MAX;

/// The RR cause in the FAILURE message of a mobile that returns to its old channel: abnormal
/// release, timer expired (TS 44.018 clause 10.5.2.31).
pub const TIMER_EXPIRED: u8 = 0x03;
