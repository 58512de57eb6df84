// SPDX-License-Identifier: MIT OR Apache-2.0
//! Laws of a judge: what a judge reads in the frames on the controller's links, and its verdict on
//! a row and on a whole life of the controller. The crate has no code that runs.
#![tactic(auto)]

pub use laws::{
    frames_are_heard_alike, frames_say_what_was_put, lives_are_judged_fairly, rows_agree,
};

mod laws;
