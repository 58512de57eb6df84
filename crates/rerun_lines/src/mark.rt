// SPDX-License-Identifier: MIT OR Apache-2.0
use run_record::Stamp;

/// Which step of a run a line is of.
#[derive(Clone, Copy)]
pub struct Mark {
    /// The number of the step in its run, from 1.
    pub number: u64,
    /// When the step was recorded.
    pub stamp: Stamp,
}
