// SPDX-License-Identifier: MIT OR Apache-2.0
use controller_model::CHANNEL_NUMBERS;

/// The milliseconds after which a release is late.
const LONG: u64 = 10_000;

/// The channels of a cell that the cell's station was told to release and hasn't released.
#[derive(Clone, Copy)]
pub(crate) struct Releasing {
    /// For each channel number, when the release began, in milliseconds since the relay began.
    /// `None` if the channel isn't being released, or if its release was found late already.
    since: [Option<u64>; CHANNEL_NUMBERS],
}

impl Releasing {
    /// No channel is being released.
    pub(crate) fn new() -> Releasing {
        Releasing {
            since: [None; CHANNEL_NUMBERS],
        }
    }

    /// Notes that the station was told to release this channel at `now`.
    pub(crate) fn begin(&mut self, number: u8, now: u64) {
        if let Some(since) = self.since.get_mut(usize::from(number)) {
            *since = Some(now);
        }
    }

    /// Notes that the station has released this channel.
    pub(crate) fn end(&mut self, number: u8) {
        if let Some(since) = self.since.get_mut(usize::from(number)) {
            *since = None;
        }
    }

    /// The highest number of a channel whose release is late, and how many channels there are whose
    /// release is late. `None` if no release is late. Each late release is found only once.
    pub(crate) fn late(&mut self, now: u64) -> Option<(usize, u32)> {
        let mut last = None;
        let mut count = 0;
        for (number, channel) in self.since.iter_mut().enumerate() {
            if is_late(*channel, now) {
                *channel = None;
                last = Some(number);
                count = u32::saturating_add(count, 1);
            }
        }
        last.map(|number| (number, count))
    }
}

/// Whether a release that began at `since` is late at `now`.
fn is_late(since: Option<u64>, now: u64) -> bool {
    match since {
        Some(since) => now.saturating_sub(since) >= LONG,
        None => false,
    }
}
