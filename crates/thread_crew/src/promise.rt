// SPDX-License-Identifier: MIT OR Apache-2.0
use crate::worker::Worker;
use std::snapshot::Snapshot;
use std::thread::Promise;

/// The promise of a thread: if its worker began, the worker's `does` allows the result.
#[derive(Drop)]
pub(crate) struct WorkOf<W> {
    pub(crate) worker: Snapshot<W>,
}

impl<W: Worker> Promise<Option<W::Done>> for WorkOf<W> {
    ghost use Rattle.std.specs.Prelude.{IfSome};

    ghost kept_by = { λ p done. IfSome done (W.does p.worker.value) };
}
