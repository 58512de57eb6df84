// SPDX-License-Identifier: MIT OR Apache-2.0
use crate::mark::Mark;
use conn_messages::Outputs;
use controller::Controller;
use ruled_relay::{Desk, Putter};

/// The state of the call worker while it works.
#[derive(Drop)]
pub(crate) struct CallWorker<K> {
    pub(crate) controller: Controller,
    /// The outputs of the last step that are still to be sent. The list is kept, so that a step
    /// reuses the memory of earlier steps.
    pub(crate) outputs: Outputs,
    pub(crate) desk: Desk,
    /// The outboxes, one for each link, in the order of the links.
    pub(crate) putters: Vec<Putter>,
    /// What the worker remembers of each link.
    pub(crate) marks: Vec<Mark>,
    /// The number of outboxes into which the end mark was put; they are those of the first links.
    pub(crate) ended: usize,
    pub(crate) clock: K,
    /// The milliseconds that the clock has told and no tick has passed on yet.
    pub(crate) gathered: u64,
    /// The number of outputs since the bells were rung, plus the number of steps without outputs
    /// that were done while these outputs waited for a bell.
    pub(crate) unrung: usize,
    /// Whether the worker slept and no output was put since then.
    pub(crate) has_slept: bool,
    /// Whether frames wait for a full outbox.
    pub(crate) is_slow: bool,
    /// Whether a millisecond has passed since the full outboxes were last tried.
    pub(crate) is_due: bool,
    /// Whether the full outboxes were tried since the clock was last asked.
    pub(crate) has_napped: bool,
    /// The link after the link from which an item was last taken.
    pub(crate) turn: u16,
}
