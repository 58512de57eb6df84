// SPDX-License-Identifier: MIT OR Apache-2.0
use std::sync::Wait;

/// The work of one thread, from its beginning to its end.
pub trait Worker: Drop {
    /// The result of the work.
    type Done: Drop;

    /// The condition under which a worker may begin its work.
    ghost can_work: { Self → Type 0 };

    /// The results that a worker may give.
    ghost does: { Self → Self.Done → Type 0 };

    /// Does the work and returns its result. The work may wait for other threads.
    fn work<R: Wait>(self, rt: &R) -> Self::Done
        requires { can_work self }
        ensures { does self result };
}
