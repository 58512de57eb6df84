// SPDX-License-Identifier: MIT OR Apache-2.0
//! Tests of the parts that the program's commands share, except the world: the words that ask for a
//! task, the printed text of faults, writes to devices that fail, lines of frames that are cut
//! anywhere, and charts as text and as pictures.
#![tactic(auto)]

#[cfg(test)]
mod charts;
#[cfg(test)]
mod fault_texts;
#[cfg(test)]
mod frame_lines;
#[cfg(test)]
mod puts;
#[cfg(test)]
mod words;
