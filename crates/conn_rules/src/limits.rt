// SPDX-License-Identifier: MIT OR Apache-2.0
/// The most messages of the switch that a connection holds, of both SAPIs together.
pub const DOWN_LIMIT: usize = 32;

/// The most messages of the mobile that a connection holds, of all tenures and both SAPIs together.
pub const UP_LIMIT: usize = 16;

/// The most old channels of a connection that drain at the same time.
pub const DRAIN_LIMIT: usize = 3;
