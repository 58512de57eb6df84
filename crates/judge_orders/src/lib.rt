// SPDX-License-Identifier: MIT OR Apache-2.0
//! Judges the connections of one controller by the frames on its links. If two mobiles sent the
//! same initial message on two channels, the frames don't tell which mobile a CR with that message
//! belongs to. Then a trial begins: two judges follow the frames, one for each of the two orders.
#![tactic(auto)]

pub use judged::{Fit, Judged};
pub use orders::Orders;

mod finding;
mod judged;
mod left;
mod orders;
mod steps;
mod trial;
