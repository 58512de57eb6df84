// SPDX-License-Identifier: MIT OR Apache-2.0
//! The mobile end of the radio link. It numbers the messages of the flow (call control, mobility
//! management and supplementary services) by N(SD) and has one message in the air per SAPI. After a
//! change of channel it retransmits the unacknowledged message of each SAPI.
#![tactic(auto)]

pub use fault::MobileFault;
pub use lawful::is_initial;
pub use laws::{
    flow_takes_sapi_zero, link_goes_on, numbers_run_on, repeats_at_most_one,
    repeats_the_unacknowledged,
};
pub use mobile_end::{MobileEnd, Place, Stage};

mod data_link;
mod fault;
mod lawful;
mod laws;
mod mobile_end;
