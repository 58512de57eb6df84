// SPDX-License-Identifier: MIT OR Apache-2.0
//! Pictures of the frames that cross the controller's links in a script: a capture, which Wireshark
//! opens, and a chart, as text or as SVG.
#![tactic(auto)]

pub use captured_events::{capture_events, frames_sent};
pub use charting::chart_of;
pub use pictures::{Form, captured, drawn, form_of, whole_script};

mod captured_events;
mod charting;
mod lifelines;
mod link_frames;
mod pictures;
