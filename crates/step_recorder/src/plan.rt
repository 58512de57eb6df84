// SPDX-License-Identifier: MIT OR Apache-2.0

/// What a record is to be, and where.
#[derive(Drop)]
pub struct RecordPlan {
    /// The folder and the beginning of the names of its files; `-N.pcap` follows for part N.
    pub stem: String,
    /// A part ends with the step by which it has so many octets.
    pub size: u64,
    /// The program and its version, the beginning of the first line of each part.
    pub version: String,
    /// The text of the settings.
    pub settings: String,
}
