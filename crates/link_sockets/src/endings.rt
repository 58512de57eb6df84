// SPDX-License-Identifier: MIT OR Apache-2.0
// Ends the stations' links some time after the end of the switch's link. Ends the switch's link
// once no connection can be begun any more and no connection is left.

use crate::fault::RunFault;
use crate::other_links::OtherLinks;
use std::alloc::Global;
use std::net::{Shutdown, TcpStream};
use std::time::{Clock, Duration, Instant};

/// The longest time, in milliseconds, between two looks for links that are to end.
pub(crate) const LOOK: i32 = 1000;

/// A second handle of each link's socket, by which the link is ended.
#[derive(Drop)]
pub(crate) struct Endings {
    switch: TcpStream,
    stations: Vec<TcpStream>,
    others: OtherLinks,
    /// How long the stations' links remain open after the end of the switch's link.
    patience: Duration,
    /// When the end of the switch's link was first seen.
    seen: Option<Instant>,
}

impl Endings {
    /// The endings of the switch's link, with no station yet. The stations' links remain open for
    /// `patience` after the end of the switch's link.
    pub(crate) fn new(
        alloc: Global,
        switch: &TcpStream,
        others: OtherLinks,
        patience: Duration,
    ) -> Result<Endings, RunFault> {
        Ok(Endings {
            switch: switch.try_clone()?,
            stations: Vec::new(alloc),
            others,
            patience,
            seen: None,
        })
    }

    /// Adds the socket of a station.
    pub(crate) fn add(&mut self, stream: &TcpStream) -> Result<(), RunFault> {
        self.stations.push(stream.try_clone()?)?;
        Ok(())
    }

    /// Shuts the switch's socket for reading if the switch's link is due to end. Shuts the
    /// stations' sockets for reading once `patience` has passed since the first call after the end
    /// of the switch's link. Returns the milliseconds until the next call is due, at most `LOOK`.
    pub(crate) fn end_what_is_due<R: Clock>(&mut self, rt: &R) -> i32 {
        if !self.others.has_switch_ended() {
            self.end_switch();
            return LOOK;
        }
        if self.others.is_over() {
            return LOOK;
        }
        let left = self.time_left(rt);
        if left.is_zero() {
            self.end_stations();
            return LOOK;
        }
        left.as_millis().min(LOOK as u128 - 1) as i32 + 1
    }

    /// How long the stations' links are still to remain open; zero if the system gives no time.
    fn time_left<R: Clock>(&mut self, rt: &R) -> Duration {
        let Ok(now) = Instant::now(rt) else {
            return Duration::ZERO;
        };
        match self.seen {
            Some(seen) => self.patience.saturating_sub(now.duration_since(seen)),
            None => {
                self.seen = Some(now);
                self.patience
            }
        }
    }

    /// Shuts the switch's socket for reading if no connection can be begun any more and no
    /// connection is left. The reader of the switch's link also sees the flag in `others`.
    fn end_switch(&self) {
        if self.others.is_used_up() {
            let _ = self.switch.shutdown(Shutdown::Read);
        }
    }

    /// Ends the stations' links. A reader that waits for its socket sees the end of the octets. A
    /// reader for which octets still arrive sees the flag in `others`.
    fn end_stations(&self) {
        self.others.be_over();
        for stream in &self.stations {
            let _ = stream.shutdown(Shutdown::Read);
        }
    }
}
