// SPDX-License-Identifier: MIT OR Apache-2.0
//! Tests of the running relay with all its threads, for what no contract states. The workers run
//! concurrently. A link whose devices work has no fault. If a device fails, the other links
//! continue to relay.
#![tactic(auto)]

#[cfg(test)]
mod bells;
#[cfg(test)]
mod deadline;
#[cfg(test)]
mod devices;
#[cfg(test)]
mod failures;
#[cfg(test)]
mod relay;
#[cfg(test)]
mod row;
#[cfg(test)]
mod sockets;
#[cfg(test)]
mod texts;
