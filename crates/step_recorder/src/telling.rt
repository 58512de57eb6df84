// SPDX-License-Identifier: MIT OR Apache-2.0
use log::{Level, Log, log};
use std::fmt::Display;

/// Logs that the record ends, in which file, and why.
pub(crate) fn tell_end<R: Log, D: Display>(rt: &R, stem: &str, part: u32, reason: &D) {
    log!(rt; target: "", Level::Warn, "record: {stem}-{part}.pcap ends here: {reason}");
}
