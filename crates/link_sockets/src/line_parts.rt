// SPDX-License-Identifier: MIT OR Apache-2.0
// Parts of the log lines about the relay's work.

use conn_messages::SWITCH_LINK;
use ipa_framing::Frame;
use std::fmt;

/// The number of octets of a frame's body that a line shows.
const FIRST: usize = 8;

/// A link by its number, printed as `switch` or `cell 2`.
#[derive(Drop)]
pub(crate) struct Named(pub(crate) u16);

impl fmt::Display for Named {
    fn fmt<W: fmt::Write>(&self, f: &mut fmt::Formatter<W>) -> fmt::Result {
        match self.0 {
            SWITCH_LINK => f.write_str("switch"),
            number => write!(f, "cell {number}"),
        }
    }
}

/// The stream of a frame, and the first octets of its body.
#[derive(Drop)]
pub(crate) struct First<'a>(pub(crate) &'a Frame);

impl fmt::Display for First<'_> {
    fn fmt<W: fmt::Write>(&self, f: &mut fmt::Formatter<W>) -> fmt::Result {
        write!(f, "stream {:02x},", self.0.stream)?;
        for octet in self.0.body.as_slice().iter().take(FIRST) {
            write!(f, " {octet:02x}")?;
        }
        Ok(())
    }
}

/// How often an event occurred since the last line about the event. Prints nothing if the event
/// occurred once.
#[derive(Drop)]
pub(crate) struct Times(pub(crate) u32);

impl fmt::Display for Times {
    fn fmt<W: fmt::Write>(&self, f: &mut fmt::Formatter<W>) -> fmt::Result {
        match self.0 {
            0 | 1 => Ok(()),
            count => write!(f, " ({count} since the last such line)"),
        }
    }
}
