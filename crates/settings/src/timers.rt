// SPDX-License-Identifier: MIT OR Apache-2.0
/// The times of a connection's timers, in milliseconds.
#[derive(Clone, Copy)]
pub(crate) struct Timers {
    pub(crate) t3101_ms: u32,
    pub(crate) t3103_ms: u32,
    pub(crate) t3107_ms: u32,
    pub(crate) drain_ms: u32,
}
