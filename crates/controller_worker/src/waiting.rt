// SPDX-License-Identifier: MIT OR Apache-2.0
ghost use Rattle.std.specs.Prelude.{◌≡◌, ◌<◌, ◌≤◌, ◌↔◌, [], ◌∷◌, ◌++◌, length};
ghost use Rattle.std.specs.Prelude.{IsTrue, IfOk, MatchOption};

use crate::limits::MAX_WAITING;
use ipa_framing::Frame;
use octets::Memory;
use std::alloc::Global;
use std::collections::VecDeque;
use std::marker::Model;

/// The frames of a link that wait: those that its full outbox refused, and the frames that
/// followed. Contracts see the frames in order.
#[derive(Drop)]
pub(crate) struct Waiting {
    frames: VecDeque<Frame>,
}

impl Model for Waiting {
    ghost use Rattle.std.specs.Prelude.{◌≤◌, List, length};
    ghost use Rattle.std.specs.VecDeque.{deque_capacity};
    ghost use Rattle.controller_worker.specs.declared.limits.TheConstants.{MAX_WAITING};
    ghost use Rattle.ipa_framing.specs.declared.frame.Frame.{Frame};

    ghost Value = { List Frame };

    ghost view = { λ waiting. waiting.frames.items };

    // Room for `MAX_WAITING` frames is reserved, so that `push` allocates nothing.
    ghost invariant = { λ waiting. (length waiting.frames.items ≤ MAX_WAITING)
        × (MAX_WAITING ≤ deque_capacity waiting.frames) };
}

impl Waiting {
    /// An empty list with room for `MAX_WAITING` frames. Returns `Memory` if the allocation fails.
    pub(crate) fn new(alloc: Global) -> Result<Waiting, Memory>
        ensures { IfOk result (λ waiting. waiting ≡ []) }
    {
        let frames = VecDeque::with_capacity(alloc, MAX_WAITING)?;
        Ok(Waiting { frames })
    }

    pub(crate) fn is_empty(&self) -> bool
        ensures { IsTrue result ↔ (self.now ≡ []) }
    {
        self.frames.is_empty()
    }

    /// Whether `MAX_WAITING` frames wait.
    pub(crate) fn is_full(&self) -> bool
        ensures { IsTrue result ↔ (MAX_WAITING ≤ length self.now) }
    {
        self.frames.len() >= MAX_WAITING
    }

    /// Appends a frame to a list that isn't full. Allocates nothing.
    pub(crate) fn push(&mut self, frame: Frame)
        requires { length self.old < MAX_WAITING }
        ensures { self.new ≡ self.old ++ frame ∷ [] }
    {
        self.frames.push_back_reserved(frame);
    }

    /// Removes and returns the first frame; `None` if no frame waits.
    pub(crate) fn pop(&mut self) -> Option<Frame>
        ensures first { MatchOption result ((self.old ≡ []) × (self.new ≡ []))
            (λ frame. self.old ≡ frame ∷ self.new) }
        ensures room { length self.new < MAX_WAITING }
    {
        self.frames.pop_front()
    }

    /// Puts a frame before all others in a list that isn't full. Allocates nothing.
    pub(crate) fn push_first(&mut self, frame: Frame)
        requires { length self.old < MAX_WAITING }
        ensures { self.new ≡ frame ∷ self.old }
    {
        self.frames.push_front_reserved(frame);
    }

    /// Drops all frames.
    pub(crate) fn clear(&mut self)
        ensures { self.new ≡ [] }
    {
        self.frames.clear();
    }
}
