// SPDX-License-Identifier: MIT OR Apache-2.0
//! Tests of the queues of the running relay, the workers of links and the call worker, with ample
//! memory and over devices that fail. They test what no contract states. A taker gets the items
//! that are there, and threads at both ends of a queue make progress. A device that works gives no
//! fault, and pauses between tries last as long as they should. A timer expires while no item is
//! there to be taken. The call worker makes progress if nobody empties an outbox, and rings even if
//! it never sleeps.
#![tactic(auto)]

#[cfg(test)]
mod added_down;
#[cfg(test)]
mod bells;
#[cfg(test)]
mod devices;
#[cfg(test)]
mod frames;
#[cfg(test)]
mod inbox;
#[cfg(test)]
mod many_sources;
#[cfg(test)]
mod outbox;
#[cfg(test)]
mod pauses;
#[cfg(test)]
mod readers;
#[cfg(test)]
mod rings;
#[cfg(test)]
mod script;
#[cfg(test)]
mod switches;
#[cfg(test)]
mod threads;
#[cfg(test)]
mod waits;
#[cfg(test)]
mod worker;
#[cfg(test)]
mod writers;
