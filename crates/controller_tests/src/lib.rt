// SPDX-License-Identifier: MIT OR Apache-2.0
//! Tests of the codecs, the decision, the connection, the settings and the controller. With ample
//! memory they make the calls that can run out of memory, and compare each answer. Lives of the
//! whole controller are played: sequences of events, with the octets of the frames that the
//! controller takes and puts. A life continues after memory was refused once.
#![tactic(auto)]

#[cfg(test)]
mod bssmap;
#[cfg(test)]
mod connection;
#[cfg(test)]
mod decision;
#[cfg(test)]
mod dtap;
#[cfg(test)]
mod ends;
#[cfg(test)]
mod exchanges;
#[cfg(test)]
mod false_octets;
#[cfg(test)]
mod faults;
#[cfg(test)]
mod frames;
#[cfg(test)]
mod framing;
#[cfg(test)]
mod hold;
#[cfg(test)]
mod late;
#[cfg(test)]
mod life;
#[cfg(test)]
mod limits;
#[cfg(test)]
mod parts;
#[cfg(test)]
mod reading;
#[cfg(test)]
mod refused;
#[cfg(test)]
mod rsl;
#[cfg(test)]
mod settings_text;
#[cfg(test)]
mod views;
