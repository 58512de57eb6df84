// SPDX-License-Identifier: MIT OR Apache-2.0
/// The number of refusals in a row after which an outbox is given up.
pub const MAX_REFUSALS: u32 = 1_000;

/// The least time that the worker passes on to the controller at once, in milliseconds.
pub const TICK_MS: u64 = 100;

/// The most frames that wait for the outbox of one link.
pub(crate) const MAX_WAITING: usize = 1_024;

/// The most tries of full outboxes, one each millisecond, between two questions to the clock while
/// no link gives an item.
pub(crate) const TRIES_A_TURN: u32 = 300;

/// The number of outputs and of steps without outputs after which the bells of the outboxes are
/// rung at the latest. The bells are also rung at the first output after the worker slept.
pub(crate) const STEPS_A_RING: usize = 128;
