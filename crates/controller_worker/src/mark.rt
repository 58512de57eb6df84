// SPDX-License-Identifier: MIT OR Apache-2.0
ghost use Rattle.std.specs.Prelude.{◌≡◌, IfOk};
ghost use Rattle.controller_worker.specs.Call.{AreUnmarked};

use crate::waiting::Waiting;
use octets::Memory;
use std::alloc::Global;

/// What the call worker remembers of a link.
#[derive(Drop)]
pub(crate) struct Mark {
    /// Whether the link's outbox was given up and the worker did the step `Down` of the link for
    /// this.
    pub(crate) added: bool,
    /// Whether a `Down` of the link was taken.
    pub(crate) down: bool,
    /// The frames that wait for the link's outbox.
    pub(crate) waiting: Waiting,
}

/// What the call worker remembers of each link. All marks are allocated before the worker begins,
/// so that the worker needs no memory for them later.
#[derive(Drop)]
pub struct Marks {
    pub(crate) of_links: Vec<Mark>,
}

impl Marks {
    /// Empty marks for `links` links. Reserves room for 1,024 waiting frames of each link. Returns
    /// `Memory` if an allocation fails.
    pub fn new(alloc: Global, links: usize) -> Result<Marks, Memory>
        ensures { IfOk result (λ marks. AreUnmarked links marks) }
    {
        let mut of_links = Vec::with_capacity(alloc, links)?;
        for _ in 0..links {
            of_links.push(Mark {
                added: false,
                down: false,
                waiting: Waiting::new(alloc)?,
            })?;
        }
        Ok(Marks { of_links })
    }
}
