// SPDX-License-Identifier: MIT OR Apache-2.0
//! Duplicate detection by the send sequence number N(SD) at the network's end of the flow (TS
//! 24.007 clause 11.2.3.2.3).
#![tactic(auto)]

pub use filter::Filter;
pub use laws::accepts_in_order;
pub use reception::Reception;
pub use verdict::Verdict;

mod filter;
mod laws;
mod reception;
mod verdict;
