// SPDX-License-Identifier: MIT OR Apache-2.0
//! A network beside a relay, in one thread: the relay's clock plays the switch and the stations.
//! Each time the call worker has taken all items that waited, the clock takes the frames that the
//! controller put. The clock then gives the frames that the links carry next, through the queues
//! and framers of the running relay.
use crate::calls::{Calls, Progress};
use crate::digest::Digest;
use crate::draw::Draw;
use crate::frames::{
    clear_command, fill_message, put_data, put_dtap, put_frame, put_result, required, weaker,
};
use crate::report::{Neighbour, place_of};
use controller_worker::Clock;
use ipa_framing::{Frame, Framer, RSL_STREAM, SCCP_STREAM, write_frame};
use octets::Memory;
use ruled_relay::{Item, Line, SourcePass, Taker, What};
use std::alloc::Global;
use std::sync::Wait;

/// The plan of a network: the network's size, and the events in it.
#[derive(Clone, Copy)]
pub struct Plan {
    pub cells: u16,
    /// How many cells have mobiles, counted from the first, and how many mobiles each such cell
    /// has.
    pub busy: u16,
    pub mobiles: u8,
    /// How often each mobile calls, and how often a mobile sends or gets something in a call.
    pub lives: u32,
    pub talks: u32,
    /// Levels are compared after this many reports.
    pub interval: u8,
    /// The time between two turns in milliseconds.
    pub ms: u32,
    /// Whether most messages that a mobile sends are measurement results.
    pub reports: bool,
    /// Whether each call is handed over once.
    pub moves: bool,
    /// Whether the switch's link breaks during the last calls.
    pub breaks: bool,
}

/// How many calls at most do something in a turn.
const BATCH: usize = 64;

/// What can still happen in the network.
#[derive(Clone, Copy)]
enum Phase {
    Calls,
    /// The switch's link has ended.
    Broken,
    /// All links have ended.
    Over,
}

/// A link's ends of the queues that the call worker doesn't hold.
#[derive(Drop)]
pub(crate) struct Link {
    pub(crate) pass: SourcePass,
    pub(crate) taker: Taker,
    pub(crate) framer: Framer,
    /// The octets that the link carries next.
    pub(crate) text: Vec<u8>,
}

impl Link {
    pub(crate) fn new(alloc: Global, pass: SourcePass, taker: Taker) -> Link {
        Link {
            pass,
            taker,
            framer: Framer::new(alloc),
            text: Vec::new(alloc),
        }
    }

    /// Cuts the octets that the link carries into pieces of this size, and puts their frames.
    /// Returns the number of frames.
    fn feed<R: Wait>(&mut self, rt: &R, size: usize) -> Result<u32, Memory> {
        let mut count = 0_u32;
        for piece in self.text.chunks(size.max(1)) {
            let Ok(()) = self.framer.feed(piece) else {
                return Err(Memory);
            };
            count = count.saturating_add(put_whole(rt, &mut self.framer, &mut self.pass)?);
        }
        self.text.clear();
        Ok(count)
    }

    /// Puts `Down`: the link has ended.
    fn end<R: Wait>(&mut self, rt: &R) {
        let source = self.pass.source();
        let what = What::Down;
        let _ = self.pass.put(rt, Item { source, what });
        self.pass.ring();
    }
}

/// Puts the frames that are whole. Returns the number of frames.
fn put_whole<R: Wait>(rt: &R, framer: &mut Framer, pass: &mut SourcePass) -> Result<u32, Memory> {
    let source = pass.source();
    let mut count = 0_u32;
    for _ in 0..u32::MAX {
        let frame = match framer.next() {
            Ok(Some(frame)) => frame,
            Ok(None) => break,
            Err(_) => return Err(Memory),
        };
        let what = What::Frame(frame);
        if pass.put(rt, Item { source, what }).is_err() {
            return Err(Memory);
        }
        count = count.saturating_add(1);
    }
    pass.ring();
    Ok(count)
}

/// The network, which the call worker has as its clock.
#[derive(Drop)]
pub(crate) struct Network<'a, R> {
    pub(crate) field: Field<'a, R>,
    /// How many items wait after the item that is taken next.
    pub(crate) pending: u32,
    pub(crate) told: u64,
}

impl<R: Wait> Clock for Network<'_, R> {
    ghost told = { λ n. n.told };

    fn elapsed(&mut self) -> u32 {
        if self.pending > 0 {
            self.pending -= 1;
            return 0;
        }
        self.pending = self.field.turn();
        let ms = self.field.plan.ms;
        let Some(told) = self.told.checked_add(u64::from(ms)) else {
            return 0;
        };
        self.told = told;
        ms
    }
}

/// The switch, the stations and the mobiles.
#[derive(Drop)]
pub(crate) struct Field<'a, R> {
    rt: &'a R,
    plan: Plan,
    links: Vec<Link>,
    calls: Calls,
    draw: Draw,
    /// The octets that the controller's links carried.
    pub(crate) digest: Digest,
    written: Vec<u8>,
    next: usize,
    phase: Phase,
    /// Whether memory ran out.
    pub(crate) failed: bool,
    pub(crate) count: Count,
}

/// How many layer 3 messages the mobiles and the switch sent, and how many of these arrived at the
/// switch and at the mobiles.
#[derive(Clone, Copy)]
pub(crate) struct Count {
    spoken: u64,
    called: u64,
    relayed_up: u64,
    relayed_down: u64,
}

impl Count {
    /// Whether no message was lost or duplicated.
    pub(crate) fn is_even(self) -> bool {
        self.spoken == self.relayed_up && self.called == self.relayed_down
    }
}

impl<'a, R: Wait> Field<'a, R> {
    pub(crate) fn new(
        rt: &'a R,
        alloc: Global,
        plan: Plan,
        links: Vec<Link>,
        draw: Draw,
    ) -> Result<Field<'a, R>, Memory> {
        Ok(Field {
            rt,
            plan,
            links,
            calls: Calls::new(alloc, plan.busy, plan.mobiles, plan.lives)?,
            draw,
            digest: Digest::new(),
            written: Vec::new(alloc),
            next: 0,
            phase: Phase::Calls,
            failed: false,
            count: Count {
                spoken: 0,
                called: 0,
                relayed_up: 0,
                relayed_down: 0,
            },
        })
    }

    /// Takes the frames that the controller put, and lets the next events happen. Returns how many
    /// items then wait after the first item.
    fn turn(&mut self) -> u32 {
        match self.try_turn() {
            Ok(count) => count.saturating_sub(1),
            Err(Memory) => {
                self.failed = true;
                self.end_from(0).saturating_sub(1)
            }
        }
    }

    fn try_turn(&mut self) -> Result<u32, Memory> {
        self.take_all()?;
        if let Phase::Calls = self.phase {
            self.act()?;
        }
        let count = self.feed()?;
        if count > 0 {
            return Ok(count);
        }
        Ok(self.end())
    }

    /// Ends links once nothing is in flight any more: the switch's link alone if the plan breaks
    /// it, else all links that haven't ended. Returns how many links ended.
    fn end(&mut self) -> u32 {
        match self.phase {
            Phase::Calls if self.plan.breaks => {
                self.phase = Phase::Broken;
                match self.links.first_mut() {
                    Some(link) => {
                        link.end(self.rt);
                        1
                    }
                    None => 0,
                }
            }
            Phase::Calls => self.end_from(0),
            Phase::Broken => self.end_from(1),
            Phase::Over => 0,
        }
    }

    /// Ends the links from link `first` on. Returns the number of these links.
    fn end_from(&mut self, first: usize) -> u32 {
        self.phase = Phase::Over;
        let mut count = 0_u32;
        for link in self.links.iter_mut().skip(first) {
            link.end(self.rt);
            count = count.saturating_add(1);
        }
        count
    }

    /// Puts the frames that the links carry into the inbox. The links' octets come in pieces of one
    /// octet, of some, or of many. Returns the number of frames.
    fn feed(&mut self) -> Result<u32, Memory> {
        let mut count = 0_u32;
        for link in self.links.iter_mut() {
            if link.text.is_empty() {
                continue;
            }
            let size = match self.draw.below(16) {
                0 => 1,
                1..=5 => 60,
                _ => 1500,
            };
            count = count.saturating_add(link.feed(self.rt, size)?);
        }
        Ok(count)
    }

    /// Takes all frames that the controller put.
    fn take_all(&mut self) -> Result<(), Memory> {
        for place in 0..self.links.len() {
            self.take_of(place)?;
        }
        Ok(())
    }

    fn take_of(&mut self, place: usize) -> Result<(), Memory> {
        for _ in 0..u32::MAX {
            let Some(link) = self.links.get_mut(place) else {
                return Ok(());
            };
            let source = link.pass.source();
            let Some(Line::Frame(frame)) = link.taker.take(self.rt) else {
                return Ok(());
            };
            self.written.clear();
            if write_frame(&frame, &mut self.written).is_err() {
                return Err(Memory);
            }
            self.digest.add_number(u64::from(source));
            self.digest.add(self.written.as_slice());
            self.answer(source, &frame)?;
        }
        Ok(())
    }

    /// Puts the answer of the switch or of a station to a frame.
    fn answer(&mut self, source: u16, frame: &Frame) -> Result<(), Memory> {
        let body = frame.body.as_slice();
        if source == 0 {
            self.answer_of_switch(body)
        } else {
            self.answer_of_station(source, body)
        }
    }

    fn answer_of_switch(&mut self, body: &[u8]) -> Result<(), Memory> {
        match body {
            [0x01, high, middle, low, .., at_high, at_low, 0x00] => {
                let number = u32::from_be_bytes([0, *high, *middle, *low]);
                let place = u16::from_be_bytes([*at_high, *at_low]);
                self.begin(usize::from(place), number)?;
                let own = *high | 0x40;
                let confirm = [0x02, *high, *middle, *low, own, *middle, *low, 0x02, 0x00];
                self.put(0, SCCP_STREAM, &confirm)
            }
            [0x06, high, middle, low, _, _, _, 0x00, _, 0x21, ..] => {
                let far = *high & 0x3f;
                self.leave(u32::from_be_bytes([0, far, *middle, *low]));
                let released = [0x04, far, *middle, *low, *high, *middle, *low, 0x00, 0x00];
                self.put(0, SCCP_STREAM, &released)
            }
            [0x06, _, _, _, _, _, _, 0x01, ..] => {
                self.count.relayed_up = self.count.relayed_up.wrapping_add(1);
                Ok(())
            }
            _ => Ok(()),
        }
    }

    /// The call at this place continues with this connection.
    fn begin(&mut self, place: usize, number: u32) -> Result<(), Memory> {
        if let Some(mut call) = self.calls.at(place) {
            call.number = number;
            call.progress = Progress::Talking(0);
            self.calls.set(place, call);
        }
        Ok(())
    }

    fn leave(&mut self, number: u32) {
        let place = self.calls.of_connection(number);
        if let Some(mut call) = self.calls.at(place) {
            call.progress = Progress::Idle;
            self.calls.set(place, call);
        }
    }

    fn answer_of_station(&mut self, source: u16, body: &[u8]) -> Result<(), Memory> {
        match body {
            [0x08, 0x21, _, channel, ..] => {
                let ack = [0x08, 0x22, 0x01, *channel, 0x08, 0x00, 0x00];
                self.put(source, RSL_STREAM, &ack)
            }
            [0x08, 0x2e, _, channel] => self.put(source, RSL_STREAM, &[0x08, 0x33, 0x01, *channel]),
            [
                0x0c,
                0x16,
                _,
                _,
                _,
                _,
                _,
                _,
                _,
                _,
                channel,
                _,
                _,
                access,
                ..
            ] => { self.establish(source, *channel, *access) }
            [
                0x03,
                0x01,
                _,
                old,
                _,
                _,
                _,
                _,
                _,
                0x06,
                0x2b,
                first,
                second,
                channel,
                ..
            ] => {
                let arfcn = (u16::from(*first) >> 6 << 8) | u16::from(*second);
                self.arrive(source, *old, arfcn / 10, *channel)
            }
            [0x03, 0x01, _, _, _, _, _, _, _, 0x83, ..] => {
                self.count.relayed_down = self.count.relayed_down.wrapping_add(1);
                Ok(())
            }
            _ => Ok(()),
        }
    }

    /// The mobile that was assigned this channel sends an initial message that names the mobile's
    /// call.
    fn establish(&mut self, source: u16, channel: u8, access: u8) -> Result<(), Memory> {
        let place = self.calls.of_mobile(source, access);
        let Some(mut call) = self.calls.at(place) else {
            return Ok(());
        };
        call.station = source;
        call.channel = channel;
        self.calls.set(place, call);
        let [high, low] = (place.min(65535) as u16).to_be_bytes();
        let body = [
            0x02, 0x06, 0x01, channel, 0x02, 0x00, 0x0b, 0x00, 0x06, 0x05, 0x24, 0x71, 0x33, high,
            low,
        ];
        self.put(source, RSL_STREAM, &body)
    }

    /// The mobile that was commanded to another channel arrives there. One message of the mobile
    /// arrives late, on the old channel. Meanwhile, the switch sends a message.
    fn arrive(&mut self, source: u16, old: u8, cell: u16, channel: u8) -> Result<(), Memory> {
        let place = self.calls.on_channel(source, old);
        let Some(mut call) = self.calls.at(place) else {
            return Ok(());
        };
        self.speak(source, old, 0x45)?;
        self.hear(call.number)?;
        self.put(cell, RSL_STREAM, &[0x08, 0x27, 0x01, channel, 0x11, 0x05])?;
        self.put(cell, RSL_STREAM, &[0x02, 0x06, 0x01, channel, 0x02, 0x00])?;
        self.put_message(cell, channel, &[0x06, 0x2c, 0x00])?;
        self.speak(cell, channel, 0x85)?;
        call.station = cell;
        call.channel = channel;
        call.progress = Progress::Talking(self.plan.talks / 2 + 1);
        self.calls.set(place, call);
        Ok(())
    }

    /// Lets up to `BATCH` calls take their next step. Each call is visited at most once.
    fn act(&mut self) -> Result<(), Memory> {
        let mut acted = 0;
        for _ in 0..self.calls.len() {
            if acted >= BATCH {
                break;
            }
            let place = self.next;
            self.next = if place.saturating_add(1) < self.calls.len() {
                place.saturating_add(1)
            } else {
                0
            };
            if self.visit(place)? {
                acted += 1;
            }
        }
        Ok(())
    }

    /// Lets the call at this place take its next step. Returns whether the call did something.
    fn visit(&mut self, place: usize) -> Result<bool, Memory> {
        let Some(mut call) = self.calls.at(place) else {
            return Ok(false);
        };
        match call.progress {
            Progress::Idle if call.lives > 0 => {
                self.put(call.home, RSL_STREAM, &required(call.mobile))?;
                call.lives -= 1;
                call.progress = Progress::Asking;
            }
            Progress::Talking(count) if count >= self.plan.talks => {
                if call.lives == 0 && self.plan.breaks {
                    return Ok(false);
                }
                self.put(0, SCCP_STREAM, &clear_command(call.number))?;
                call.progress = Progress::Leaving;
            }
            Progress::Talking(count) if self.plan.moves && count == self.plan.talks / 2 => {
                self.is_better(call.station, call.channel)?;
                call.progress = Progress::Moving;
            }
            Progress::Talking(count) => {
                self.talk(call.station, call.channel, call.number, call.turn)?;
                call.turn = call.turn.wrapping_add(0x40);
                call.progress = Progress::Talking(count.saturating_add(1));
            }
            Progress::Idle | Progress::Asking | Progress::Moving | Progress::Leaving => return Ok(
                false,
            ),
        }
        self.calls.set(place, call);
        Ok(true)
    }

    /// Puts a measurement result, a message up, or a message down.
    fn talk(&mut self, station: u16, channel: u8, number: u32, turn: u8) -> Result<(), Memory> {
        let kind = self.draw.below(10);
        if self.plan.reports && kind < 6 {
            return self.measure(station, channel);
        }
        if kind % 2 == 0 {
            self.speak(station, channel, turn & 0xc0 | 0x05)
        } else {
            self.hear(number)
        }
    }

    /// Puts a measurement result in which no other cell is better.
    fn measure(&mut self, station: u16, channel: u8) -> Result<(), Memory> {
        let level = 30 + self.draw.below(20) as u8;
        let neighbours = weaker(&mut self.draw, level);
        let count = usize::from(self.draw.below(6) + 1);
        let number = self.draw.octet();
        match self.links.get_mut(usize::from(station)) {
            Some(link) => put_result(&mut link.text, channel, number, level, &neighbours[..count]),
            None => Ok(()),
        }
    }

    /// Puts a measurement result in which the next cell is far better.
    fn is_better(&mut self, station: u16, channel: u8) -> Result<(), Memory> {
        let next = station % self.plan.cells.max(1) + 1;
        let better = Neighbour {
            level: 55,
            place: place_of(next, station),
            bsic: 9,
        };
        match self.links.get_mut(usize::from(station)) {
            Some(link) => put_result(&mut link.text, channel, 1, 20, &[better]),
            None => Ok(()),
        }
    }

    /// The mobile sends a message on a channel. The second octet of the message is `second`.
    fn speak(&mut self, station: u16, channel: u8, second: u8) -> Result<(), Memory> {
        let mut room = [0; 251];
        let size = fill_message(&mut room, 0x03, second, &mut self.draw);
        self.count.spoken = self.count.spoken.wrapping_add(1);
        self.put_message(station, channel, &room[..size])
    }

    fn put_message(&mut self, station: u16, channel: u8, message: &[u8]) -> Result<(), Memory> {
        match self.links.get_mut(usize::from(station)) {
            Some(link) => put_data(&mut link.text, 0x02, channel, message),
            None => Ok(()),
        }
    }

    /// The switch sends a message on a connection.
    fn hear(&mut self, number: u32) -> Result<(), Memory> {
        let mut room = [0; 251];
        let size = fill_message(&mut room, 0x83, 0x02, &mut self.draw);
        self.count.called = self.count.called.wrapping_add(1);
        match self.links.first_mut() {
            Some(link) => put_dtap(&mut link.text, number, &room[..size]),
            None => Ok(()),
        }
    }

    /// Appends a frame to the octets that a link carries next.
    fn put(&mut self, link: u16, stream: u8, body: &[u8]) -> Result<(), Memory> {
        match self.links.get_mut(usize::from(link)) {
            Some(link) => put_frame(&mut link.text, stream, &[body]),
            None => Ok(()),
        }
    }
}
