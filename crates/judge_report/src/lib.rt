// SPDX-License-Identifier: MIT OR Apache-2.0
//! The output of `bsc judge`: the verdict of each connection with its faults, and the sums.
#![tactic(auto)]

pub use judged::write_judged;
pub use style::{Form, Strictness, Style};
pub use sums::{Sums, write_end, write_start};
pub use verdict::{Outcome, Standing};

mod connection;
mod direction;
mod fault;
mod judged;
mod lines;
mod message;
mod style;
mod sums;
mod verdict;
