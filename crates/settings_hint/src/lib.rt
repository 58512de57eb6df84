// SPDX-License-Identifier: MIT OR Apache-2.0
//! Hints for an operator on the settings: where in the text a fault is, and what is allowed there.
//! Also cautions about settings that have no fault but are hardly intended.
#![tactic(auto)]

pub use caution::{earlier_twin, has_port_zero};
pub use hint::{Hint, hint_of};

mod advice;
mod caution;
mod faulty_cell;
mod hint;
mod lines;
