// SPDX-License-Identifier: MIT OR Apache-2.0
//! Tests of the world and of `replay`, `decode` and `trace`. With ample memory they make the calls
//! that can run out of memory. With devices that fail they test what no contract states.
#![tactic(auto)]

#[cfg(test)]
mod fixed_world;
#[cfg(test)]
mod parts;
#[cfg(test)]
mod program;
#[cfg(test)]
mod settled_worlds;
#[cfg(test)]
mod traces;
