// SPDX-License-Identifier: MIT OR Apache-2.0
//! The handover decision: whether a connection is handed over, and to which cell, by averages of
//! its measurement reports.
//!
//! RXLEV and RXQUAL are those of TS 45.008 clauses 8.1.4 and 8.2.4. Averages follow its annex
//! A.3.1, the comparison with a margin A.3.2.2. The standard leaves the decision to the operator;
//! this one is our own.
#![tactic(auto)]

pub use averages::Averages;
pub use decision::Decision;
pub use law::{arfcns_are_rising, one_decision, ten_reports_are_enough};
pub use settings::{
    Cell, HoParameters, HoSettings, MAX_CELLS, MAX_HYSTERESIS, MAX_INTERVAL, MAX_WINDOW,
};

mod averages;
mod decision;
mod heard;
mod law;
mod measure;
mod running;
mod settings;
mod strongest;
mod sums;
