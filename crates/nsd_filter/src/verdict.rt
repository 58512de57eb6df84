// SPDX-License-Identifier: MIT OR Apache-2.0
/// The verdict on a message, judged by its number.
#[derive(Clone, Copy)]
pub enum Verdict {
    /// The message carries the expected number and is accepted.
    Accept,
    /// The message repeats the last accepted message and is discarded.
    Duplicate,
    /// An earlier message is missing. No further message of the flow is accepted.
    Gap,
}
