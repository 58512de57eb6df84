// SPDX-License-Identifier: MIT OR Apache-2.0
//! Laws on the order of messages of the running relay, stated on the octets of its links. The crate
//! has no code that runs.
#![tactic(auto)]

pub use laws::{events_explain_runs, relay_keeps_order};

mod laws;
