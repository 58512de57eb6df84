// SPDX-License-Identifier: MIT OR Apache-2.0
//! Repeats the steps of a recorded run on a new controller. The frames that the new controller puts
//! are compared with those of the record, and the changes of its connections are noted.
#![tactic(auto)]

pub use again::{Again, Rerun};
pub use difference::{Extent, first_difference};
pub use laws::{difference_is_the_first, same_frames_are_equal};

mod again;
mod concerning;
mod difference;
mod laws;
