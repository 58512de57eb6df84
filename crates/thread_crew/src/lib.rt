// SPDX-License-Identifier: MIT OR Apache-2.0
//! Threads whose workers begin together. Each thread is started with a worker. One signal lets all
//! workers begin, or makes all threads end without work. The contracts say of each result that the
//! worker's `does` allows it.
#![tactic(auto)]

pub use crew::Crew;
pub use signal::Signal;
pub use worker::Worker;

mod crew;
#[cfg(test)]
mod crew_tests;
mod promise;
mod signal;
mod worker;
