// SPDX-License-Identifier: MIT OR Apache-2.0
// Logs the events of a relay that an operator has to know: a frame that isn't known or can't be
// read, a request for which no channel is free, a late release, a connection that the switch
// refuses, and that the connection numbers are used up.

use crate::ignored::{Ignored, ignored_as};
use crate::line::log_line;
use crate::line_parts::{First, Named, Times};
use crate::often::Often;
use crate::other_links::OtherLinks;
use crate::releasing::Releasing;
use bssmap_codec::SccpType;
use conn_messages::{Outputs, SWITCH_LINK};
use controller::Controller;
use controller_model::Step;
use ipa_framing::{Frame, SCCP_STREAM};
use log::{Level, Log};
use rsl_codec::{RF_CHANNEL_RELEASE, Rsl, RslType};
use ruled_relay::{Item, What};
use std::alloc::{AllocError, Global};
use std::fmt::Display;

/// The milliseconds between two looks for late releases.
const LOOK: u64 = 1000;

/// The line that is logged once no number is left for a connection.
const NO_NUMBER_LEFT: &str =
    "no call can be set up any more: each of the 16777215 numbers was given to a \
connection; bsc ends once no connection is left";

/// The first octet of a CREF, the message CONNECTION REFUSED.
const CONNECTION_REFUSED: u8 = SccpType::ConnectionRefused as u8;

/// The message type octet of RF CHANNEL RELEASE ACKNOWLEDGE.
const RF_CHANNEL_RELEASE_ACK: u8 = RslType::RfChannelReleaseAck as u8;

/// What a watch remembers of a link.
#[derive(Clone, Copy)]
struct LinkWatch {
    is_down: bool,
    unread: Often,
    /// For a station, the requests for which no channel was free; for the switch, the connections
    /// that the switch refused.
    refused: Often,
    releasing: Releasing,
}

/// Watches the work of a relay, and logs what an operator has to know.
#[derive(Drop)]
pub(crate) struct Watch<R> {
    rt: R,
    alloc: Global,
    /// One entry for each link, first that of the switch's link.
    links: Vec<LinkWatch>,
    others: OtherLinks,
    /// `now` is the time, `looked` the time of the last look, both in milliseconds since the relay
    /// began.
    now: u64,
    looked: u64,
    /// How many items the controller had ignored after the last step.
    ignored: u64,
    /// Whether no number is left for a connection.
    is_used_up: bool,
}

impl<R: Log + Drop> Watch<R> {
    /// Watches `count` links, which share `others`, and a controller that has ignored `ignored`
    /// items.
    pub(crate) fn new(
        rt: R,
        alloc: Global,
        count: usize,
        others: OtherLinks,
        ignored: u64,
    ) -> Result<Watch<R>, AllocError> {
        let new = LinkWatch {
            is_down: false,
            unread: Often::new(),
            refused: Often::new(),
            releasing: Releasing::new(),
        };
        Ok(Watch {
            rt,
            alloc,
            links: vec![in alloc; new; count]?,
            others,
            now: 0,
            looked: 0,
            ignored,
            is_used_up: false,
        })
    }

    /// Adds `milliseconds` to the time, and looks for late releases if a second has passed since
    /// the last look.
    pub(crate) fn pass(&mut self, milliseconds: u32) {
        self.now = self.now.saturating_add(u64::from(milliseconds));
        if self.now.saturating_sub(self.looked) >= LOOK {
            self.looked = self.now;
            self.look();
        }
    }

    /// Logs a line for each link that has channels whose release is late.
    fn look(&mut self) {
        for (number, link) in self.links.iter_mut().enumerate() {
            if let Some((channel, count)) = link.releasing.late(self.now) {
                log_line(
                    &self.rt,
                    Level::Warn,
                    format_args!(
                        "cell {number}: channel {channel:#04x} has been releasing for 10 s{}",
                        Times(count)
                    ),
                );
            }
        }
    }

    /// Takes note of a step of the controller. `controller` is the controller after the step,
    /// `outputs` has the frames that the step sends.
    pub(crate) fn see_step(&mut self, step: &Step, controller: &Controller, outputs: &Outputs) {
        let ignored = controller.ignored();
        let is_ignored = ignored != self.ignored;
        self.ignored = ignored;
        self.see_numbers(controller.left_without_number());
        if let Step::Take(item) = step {
            self.see_item(item, is_ignored);
        }
        self.see_outputs(outputs);
    }

    /// If `left` is `Some`, no number is left for a further connection, and `left` connections are
    /// open. Logs this the first time, and makes the switch's link due to end once no connection is
    /// open.
    fn see_numbers(&mut self, left: Option<usize>) {
        let Some(left) = left else {
            return;
        };
        if !self.is_used_up {
            self.is_used_up = true;
            log_line(&self.rt, Level::Error, NO_NUMBER_LEFT);
        }
        if left == 0 {
            self.others.use_up();
        }
    }

    fn see_item(&mut self, item: &Item, is_ignored: bool) {
        match &item.what {
            What::Down => self.see_down(item.source),
            What::Frame(frame) if is_ignored => self.see_ignored(item.source, frame),
            What::Frame(frame) if item.source == SWITCH_LINK => self.see_of_switch(frame),
            What::Frame(frame) => self.see_of_station(item.source, frame),
        }
    }

    fn see_down(&mut self, source: u16) {
        if let Some(link) = self.links.get_mut(usize::from(source)) {
            link.is_down = true;
            link.releasing = Releasing::new();
        }
    }

    fn see_of_switch(&mut self, frame: &Frame) {
        let first = frame.body.as_slice().first();
        if frame.stream == SCCP_STREAM && first == Some(&CONNECTION_REFUSED) {
            self.log_refusal(SWITCH_LINK, "a connection is refused (CREF)");
        }
    }

    fn see_of_station(&mut self, source: u16, frame: &Frame) {
        let body = frame.body.as_slice();
        if let Some(number) = channel_in(self.alloc, body, RF_CHANNEL_RELEASE_ACK) {
            if let Some(link) = self.links.get_mut(usize::from(source)) {
                link.releasing.end(number);
            }
        }
    }

    fn see_ignored(&mut self, source: u16, frame: &Frame) {
        let is_down = match self.links.get(usize::from(source)) {
            Some(link) => link.is_down,
            None => true,
        };
        if is_down {
            return;
        }
        match ignored_as(self.alloc, source, frame) {
            Ignored::Known => {}
            Ignored::Unread => self.log_unread(source, frame),
            Ignored::Asks if self.is_open() => self.log_refusal(source, "no SDCCH free"),
            Ignored::Asks => {}
        }
    }

    /// Whether a request gets a channel if a channel is free.
    fn is_open(&self) -> bool {
        match self.links.first() {
            Some(switch) => !switch.is_down && !self.is_used_up,
            None => false,
        }
    }

    fn see_outputs(&mut self, outputs: &Outputs) {
        for out in outputs.as_slice() {
            if out.to == SWITCH_LINK {
                continue;
            }
            let body = out.frame.body.as_slice();
            if let Some(number) = channel_in(self.alloc, body, RF_CHANNEL_RELEASE) {
                if let Some(link) = self.links.get_mut(usize::from(out.to)) {
                    link.releasing.begin(number, self.now);
                }
            }
        }
    }

    fn log_refusal(&mut self, source: u16, what: &str) {
        if let Some(link) = self.links.get_mut(usize::from(source)) {
            if let Some(count) = link.refused.come(self.now) {
                let (name, times) = (Named(source), Times(count));
                log_line(&self.rt, Level::Warn, format_args!("{name}: {what}{times}"));
            }
        }
    }

    fn log_unread(&mut self, source: u16, frame: &Frame) {
        if let Some(link) = self.links.get_mut(usize::from(source)) {
            if let Some(count) = link.unread.come(self.now) {
                let (name, first, times) = (Named(source), First(frame), Times(count));
                log_line(
                    &self.rt,
                    Level::Warn,
                    format_args!("{name}: unknown or broken frame: {first}{times}"),
                );
            }
        }
    }
}

/// The channel number octet in the body of a frame, if the body is a message of the type `kind`;
/// else `None`. `kind` is the type of RF CHANNEL RELEASE or of its acknowledgement.
fn channel_in(alloc: Global, body: &[u8], kind: u8) -> Option<u8> {
    match body {
        [_, octet, ..] if *octet == kind => {}
        _ => return None,
    }
    match Rsl::read(alloc, body) {
        Ok(message) => released_channel(&message),
        Err(_) => None,
    }
}

fn released_channel(message: &Rsl) -> Option<u8> {
    match message {
        Rsl::RfChannelRelease(channel) => Some(channel.octet()),
        Rsl::RfChannelReleaseAck(channel) => Some(channel.octet()),
        _ => None,
    }
}
