// SPDX-License-Identifier: MIT OR Apache-2.0
use rerun_lines::Choice;

/// What is printed of a run.
#[derive(Clone, Copy)]
pub enum Mode {
    /// The lines of its steps, up to the first difference.
    Show,
    /// All differences.
    Compare,
}

/// What is asked of a run.
#[derive(Clone, Copy)]
pub struct Plan {
    pub mode: Mode,
    /// Which lines are shown.
    pub choice: Choice,
}
