// SPDX-License-Identifier: MIT OR Apache-2.0
//! Tests of the models of a mobile, of a base station's end and of the switch. With ample memory
//! they make the calls that can run out of memory. They also test what no contract states: the
//! printed text of faults, and the room of a text that is written.
#![tactic(auto)]

#[cfg(test)]
mod base_end;
#[cfg(test)]
mod fault_texts;
#[cfg(test)]
mod mobile;
#[cfg(test)]
mod reception;
#[cfg(test)]
mod rooms;
#[cfg(test)]
mod switch;
