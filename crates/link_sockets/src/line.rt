// SPDX-License-Identifier: MIT OR Apache-2.0
use log::{Level, Log, log};
use std::fmt::Display;

/// Logs a line at this level. The record's target is empty, since the line itself names its link.
pub(crate) fn log_line<R: Log, D: Display + Drop>(rt: &R, level: Level, line: D) {
    log!(rt; target: "", level, "{line}");
}
