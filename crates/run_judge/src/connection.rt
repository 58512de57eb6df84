// SPDX-License-Identifier: MIT OR Apache-2.0
ghost use Rattle.std.specs.Prelude.{◌≡◌, filter, fold, not, IfOk, OnOk};
ghost use Rattle.dtap_codec.specs.Number.{count_of};
ghost use Rattle.dtap_codec.specs.RrReading.{rr_reading};
ghost use Rattle.std.specs.Option.{is_some};
ghost use Rattle.nsd_filter.specs.Judgement.{judgement, progress_by};
ghost use Rattle.run_judge.specs.Flow.{arrived, new_flow, passed_on, passed_wrongly};
ghost use Rattle.run_judge.specs.Connection.{astray_reason, begun_with, blamed, brought};
ghost use Rattle.run_judge.specs.Connection.{cleared, commanded, is_early, outside_from};
ghost use Rattle.run_judge.specs.Connection.{completed, confirmed, due_of, early_due, failed};
ghost use Rattle.run_judge.specs.Connection.{flow_of, handed, is_alike, is_command};
ghost use Rattle.run_judge.specs.Connection.{is_misnumbered, is_same, managed};
ghost use Rattle.run_judge.specs.Connection.{managed_behind_clear, may_command, moved};
ghost use Rattle.run_judge.specs.Connection.{new_connection, numbered_by, old_rank};
ghost use Rattle.run_judge.specs.Connection.{opened_connection, passed_up, rank_of, reduced};
ghost use Rattle.run_judge.specs.Connection.{rejected_down, sent_down, unjudged_from};
ghost use Rattle.run_judge.specs.Connection.{while_judged, with_early, with_flow, with_verdict};
ghost use Rattle.run_judge.specs.ConnectionSteps.{made_by, noted_by};

use crate::channels::{Early, Opening};
use crate::reading::is_dtap;
use crate::{Due, Fault, Flow, StationChannel};
use conn_messages::Change;
use dtap_codec::{Modulus, RrFault, RrMessage, Sapi, number_of};
use nsd_filter::Verdict;
use octets::{Memory, Octets};
use std::alloc::Global;
use std::marker::Model;

/// The tenure of a channel in a connection. It lasts from the moment that the channel serves the
/// connection until the release of the channel is acknowledged.
#[derive(Clone, Copy)]
pub struct Tenure {
    pub at: StationChannel,
    /// The place of the channel, from 0, in the order in which channels served the connection.
    pub rank: u32,
}

/// The channel to which the mobile was commanded, while the mobile's answer is outstanding.
#[derive(Clone, Copy)]
pub struct Awaited {
    pub at: StationChannel,
    pub change: Change,
}

/// What a frame tells of its connection.
#[derive(Drop)]
pub(crate) enum Told {
    /// A message of the mobile came on a channel.
    Brought {
        at: StationChannel,
        sapi: Sapi,
        message: Octets,
    },
    /// The mobile's COMPLETE came on a channel.
    Completed {
        at: StationChannel,
        change: Change,
    },
    /// The mobile's FAILURE came on a channel.
    Failed {
        at: StationChannel,
        change: Change,
    },
    /// The release of an old channel is acknowledged.
    Released {
        at: StationChannel,
    },
    /// The mobile is commanded to a channel.
    Commanded {
        to: StationChannel,
        change: Change,
    },
    /// A message is handed to the mobile on a channel.
    Handed {
        at: StationChannel,
        sapi: Sapi,
        message: Octets,
    },
    /// A message is passed on to the switch.
    PassedUp {
        sapi: Sapi,
        message: Octets,
    },
    /// The switch sends a message to the mobile.
    SentDown {
        sapi: Sapi,
        message: Octets,
    },
    /// SAPI "n" REJECT is sent to the switch.
    RejectedDown,
    /// CLEAR COMPLETE is sent to the switch.
    Cleared,
    /// Any other message of BSSMAP, or data that the codec refuses, is sent to the switch.
    Managed,
    /// The connection isn't judged from this frame on.
    Unjudged {
        reason: Reason,
    },
}

/// The uplink or the downlink flows of a connection, by SAPI.
#[derive(Drop)]
pub struct Flows {
    pub zero: Flow,
    pub three: Flow,
}

/// The numbers of messages that a switch accepts, takes for duplicates, or gets after a gap, by
/// their N(SD) (TS 24.007 clause 11.2.3.2.3). The numbers saturate.
#[derive(Clone, Copy)]
pub struct Counts {
    pub accepted: u64,
    pub duplicates: u64,
    pub behind_gap: u64,
}

/// Why a connection isn't judged.
#[derive(Clone, Copy)]
pub enum Reason {
    /// Frames are missing in the capture.
    Hole,
    /// The initial message of the CR came on no channel.
    NoBeginning,
    /// The initial message of the CR came on several channels.
    TwoBeginnings,
    /// The HANDOVER COMMAND names no channel that was activated for the handover.
    UnknownChannel,
    /// Several activated channels fit the HANDOVER COMMAND.
    TwoChannels,
    /// The switch gave the same reference to this connection and to another.
    SharedReference,
    /// The switch sent an ASSIGNMENT COMMAND or a HANDOVER COMMAND as DTAP.
    CommandOfSwitch,
    /// A message came on a channel of the connection outside the channel's tenure.
    OutsideTenure,
    /// A message came on the commanded channel before the mobile's COMPLETE.
    BeforeComplete,
}

/// The frame from which on a connection isn't judged, and the reason.
#[derive(Clone, Copy)]
pub struct Unjudged {
    pub reason: Reason,
    pub frame: u64,
}

/// A connection, as the frames so far show it.
#[derive(Drop)]
pub struct Connection {
    /// The place of the connection in the order of the CRs, from 1; saturates.
    pub number: u64,
    /// The controller's reference.
    pub reference: u32,
    /// The switch's reference, from CC on. It stays `None` if another connection had the reference
    /// already.
    pub switch: Option<u32>,
    /// The channel that serves the connection; station 0 if the first channel isn't known.
    pub serving: Tenure,
    /// The channels that served before and whose release isn't acknowledged yet.
    pub former: Vec<Tenure>,
    pub awaited: Option<Awaited>,
    pub up: Flows,
    pub down: Flows,
    /// Whether CLEAR COMPLETE was sent.
    pub is_cleared: bool,
    pub counts: Counts,
    /// The N(SD) that the switch expects next; `None` after a gap.
    pub progress: Option<u8>,
    /// The frame of the first message that came on a channel of the connection outside the
    /// channel's tenure. A message on the commanded channel before COMPLETE doesn't count.
    pub outside: Option<u64>,
    /// The frame of the first message that was passed on in order although its N(SD) wasn't the
    /// mobile's next. If an uplink flow has a fault later, the controller may have caused the wrong
    /// N(SD).
    pub mobile: Option<u64>,
    pub unjudged: Option<Unjudged>,
}

impl Model for Connection {
    ghost use Rattle.run_judge.specs.ConnectionState.{ConnectionState};

    ghost Value = { ConnectionState };

    ghost view = { λ c. record {
      number = c.number;
      reference = c.reference;
      switch = c.switch;
      serving = c.serving;
      former = c.former.items;
      awaited = c.awaited;
      up = c.up;
      down = c.down;
      is_cleared = c.is_cleared;
      counts = c.counts;
      progress = c.progress;
      outside = c.outside;
      mobile = c.mobile;
      unjudged = c.unjudged;
    } };
}

fn is_same(at: StationChannel, other: StationChannel) -> bool
    ensures { result ≡ is_same at other }
{
    at.station == other.station && at.number == other.number
}

fn is_alike(one: Change, other: Change) -> bool
    ensures { result ≡ is_alike one other }
{
    match (one, other) {
        (Change::Assignment, Change::Assignment) => true,
        (Change::Handover, Change::Handover) => true,
        _ => false,
    }
}

// The rank of the first tenure of the channel `at`. `None` if `tenures` has no tenure of it.
fn old_rank(at: StationChannel, tenures: &[Tenure]) -> Option<u32>
    ensures { result ≡ old_rank at tenures.now }
{
    for tenure in tenures {
        if is_same(tenure.at, at) {
            return Some(tenure.rank);
        }
    }
    None
}

// Whether a message is an ASSIGNMENT COMMAND or a HANDOVER COMMAND.
fn is_command(alloc: Global, message: &[u8]) -> Result<bool, Memory>
    ensures { IfOk result (λ is. is ≡ is_command (rr_reading message.now)) }
{
    match RrMessage::read(alloc, message) {
        Ok(RrMessage::AssignmentCommand { .. }) | Ok(RrMessage::HandoverCommand { .. }) => Ok(true),
        Ok(_) => Ok(false),
        Err(RrFault::Memory) => Err(Memory),
        Err(_) => Ok(false),
    }
}

// Removes the tenures of the channel `at`.
fn leave(tenures: &mut Vec<Tenure>, at: StationChannel)
    ensures { tenures.new.items ≡ filter (λ t. not (is_same t.at at)) tenures.old.items }
{
    tenures.retain(|tenure| !is_same(tenure.at, at));
}

fn due_of(rank: u32, message: Octets, frame: u64) -> Due
    ensures { result ≡ due_of rank message frame }
{
    Due {
        rank,
        message,
        frame,
        is_optional: false,
    }
}

fn early_due(early: Early) -> Due
    ensures { result ≡ early_due early }
{
    Due {
        rank: 0,
        message: early.message,
        frame: early.frame,
        is_optional: early.is_optional,
    }
}

// The verdict on the N(SD) `number` by a switch that expects `progress` next.
fn judged(modulus: Modulus, progress: Option<u8>, number: u8) -> Verdict
    ensures { result ≡ judgement (count_of modulus) progress number }
{
    let count = u16::from(modulus.count());
    match progress {
        None => Verdict::Gap,
        Some(accepted) if u16::from(number) == u16::from(accepted) % count => Verdict::Accept,
        Some(accepted) if u16::from(number) == (u16::from(accepted) + (count - 1)) % count => {
            Verdict::Duplicate
        }
        Some(_) => Verdict::Gap,
    }
}

// Whether the N(SD) of `message` isn't the one that the mobile has to use next in the flow. The
// mobile may repeat the flow's last message. False for a message without N(SD).
fn is_misnumbered(modulus: Modulus, progress: Option<u8>, message: &[u8], flow: &Flow) -> bool
    ensures { result ≡ is_misnumbered (count_of modulus) progress message.now flow.now }
{
    let Some(number) = number_of(message, modulus) else {
        return false;
    };
    match judged(modulus, progress, number) {
        Verdict::Accept => false,
        Verdict::Duplicate => !flow.is_repetition(message),
        Verdict::Gap => true,
    }
}

// The N(SD) that the switch expects after the verdict `verdict`; `None` after a gap.
fn progress_by(modulus: Modulus, verdict: Verdict, progress: Option<u8>) -> Option<u8>
    ensures { result ≡ reduced (count_of modulus) (progress_by verdict progress) }
{
    let count = u16::from(modulus.count());
    match (verdict, progress) {
        (Verdict::Accept, Some(accepted)) => Some(((u16::from(accepted) + 1) % count) as u8),
        (Verdict::Duplicate, Some(accepted)) => Some((u16::from(accepted) % count) as u8),
        _ => None,
    }
}

impl Counts {
    fn add(&mut self, verdict: Verdict)
        ensures { self.new ≡ with_verdict verdict self.old }
    {
        match verdict {
            Verdict::Accept => self.accepted = self.accepted.saturating_add(1),
            Verdict::Duplicate => self.duplicates = self.duplicates.saturating_add(1),
            Verdict::Gap => self.behind_gap = self.behind_gap.saturating_add(1),
        }
    }
}

impl Flows {
    fn new(alloc: Global) -> Flows
        ensures { result ≡ record { zero = new_flow; three = new_flow } }
    {
        Flows {
            zero: Flow::new(alloc),
            three: Flow::new(alloc),
        }
    }

    fn of(&self, sapi: Sapi) -> &Flow
        ensures { result.now ≡ flow_of sapi self.now }
    {
        match sapi {
            Sapi::Zero => &self.zero,
            Sapi::Three => &self.three,
        }
    }

    // After an `Err`, here and below, the flows aren't to be used again.
    fn arrive(&mut self, sapi: Sapi, due: Due) -> Result<(), Memory>
        ensures { OnOk result (self.new ≡ with_flow sapi (arrived due) self.old) }
    {
        match sapi {
            Sapi::Zero => self.zero.arrive(due),
            Sapi::Three => self.three.arrive(due),
        }
    }

    fn pass(&mut self, sapi: Sapi, message: Octets, frame: u64) -> Result<(), Memory>
        ensures { OnOk result (self.new ≡ with_flow sapi (passed_on message frame) self.old) }
    {
        match sapi {
            Sapi::Zero => self.zero.pass(message, frame),
            Sapi::Three => self.three.pass(message, frame),
        }
    }

    fn pass_wrongly(&mut self, sapi: Sapi, fault: Fault)
        ensures { self.new ≡ with_flow sapi (passed_wrongly fault) self.old }
    {
        match sapi {
            Sapi::Zero => self.zero.pass_wrongly(fault),
            Sapi::Three => self.three.pass_wrongly(fault),
        }
    }

    // Adds the messages of an opening other than the initial one.
    fn arrive_early(&mut self, early: Vec<Early>) -> Result<(), Memory>
        ensures { OnOk result (self.new ≡ fold with_early self.old early.items) }
    {
        for e in early {
            let sapi = e.sapi;
            self.arrive(sapi, early_due(e))?;
        }
        Ok(())
    }
}

impl Connection {
    /// A connection that begins on the channel `at` with `opening`. The switch got the initial
    /// message of the opening with the CR. `number` is the place of the connection in the order of
    /// the CRs; `reference` is the controller's reference.
    pub(crate) fn new(
        alloc: Global,
        modulus: Modulus,
        number: u64,
        reference: u32,
        at: StationChannel,
        opening: Opening,
    ) -> Result<Connection, Memory>
        ensures { IfOk result
            (λ c. c ≡ new_connection (count_of modulus) number reference at opening) }
    {
        let Opening {
            message,
            frame,
            early,
        } = opening;
        let send_number = number_of(message.as_slice(), modulus);
        let mut up = Flows {
            zero: Flow::begun(alloc, message, frame)?,
            three: Flow::new(alloc),
        };
        up.arrive_early(early)?;
        let mut connection = Connection::begun(alloc, number, reference, at, up);
        connection.count(modulus, send_number);
        Ok(connection)
    }

    /// The same as `new`, for an opening that was seen on the channel. Blames the mobile if the
    /// initial message has an N(SD) other than 0.
    pub(crate) fn opened(
        alloc: Global,
        modulus: Modulus,
        number: u64,
        reference: u32,
        at: StationChannel,
        opening: Opening,
    ) -> Result<Connection, Memory>
        ensures { IfOk result
            (λ c. c ≡ opened_connection (count_of modulus) number reference at opening) }
    {
        let frame = opening.frame;
        let message = opening.message.as_slice();
        let is_wrong = is_misnumbered(modulus, Some(0), message, &Flow::new(alloc));
        let mut connection = Connection::new(alloc, modulus, number, reference, at, opening)?;
        if is_wrong {
            connection.blame_mobile(Sapi::Zero, frame);
        }
        Ok(connection)
    }

    // A connection that begins with these uplink flows.
    fn begun(
        alloc: Global,
        number: u64,
        reference: u32,
        at: StationChannel,
        up: Flows,
    ) -> Connection
        ensures { result ≡ begun_with number reference at up }
    {
        Connection {
            number,
            reference,
            switch: None,
            serving: Tenure { at, rank: 0 },
            former: Vec::new(alloc),
            awaited: None,
            up,
            down: Flows::new(alloc),
            is_cleared: false,
            counts: Counts {
                accepted: 0,
                duplicates: 0,
                behind_gap: 0,
            },
            progress: Some(0),
            outside: None,
            mobile: None,
            unjudged: None,
        }
    }

    // Counts a message that the switch got with the N(SD) `number`. No-op for a message without
    // N(SD).
    fn count(&mut self, modulus: Modulus, number: Option<u8>)
        ensures { self.new ≡ numbered_by (count_of modulus) number self.old }
    {
        if let Some(number) = number {
            let verdict = judged(modulus, self.progress, number);
            self.counts.add(verdict);
            self.progress = progress_by(modulus, verdict, self.progress);
        }
    }

    // Records that the N(SD) of the message that was passed on in `frame` wasn't the mobile's next.
    // No-op if an earlier frame is recorded, or if the flow isn't in order.
    fn blame_mobile(&mut self, sapi: Sapi, frame: u64)
        ensures { self.new ≡ blamed sapi frame self.old }
    {
        if self.up.of(sapi).is_in_order() {
            self.mobile = self.mobile.or(Some(frame));
        }
    }

    /// The rank of the tenure of the channel `at`. `None` if the channel neither serves nor is in
    /// `former`.
    fn rank_of(&self, at: StationChannel) -> Option<u32>
        ensures { result ≡ rank_of at self.now }
    {
        if is_same(self.serving.at, at) {
            Some(self.serving.rank)
        } else {
            old_rank(at, &self.former)
        }
    }

    /// Whether the channel `at` served before and the release of the channel isn't acknowledged
    /// yet.
    pub(crate) fn is_old(&self, at: StationChannel) -> bool
        ensures { result ≡ is_some (old_rank at self.now.former) }
    {
        old_rank(at, &self.former).is_some()
    }

    /// Whether a COMMAND on the channel `at` counts: the channel serves, and the connection is
    /// judged.
    pub(crate) fn may_be_commanded(&self, at: StationChannel) -> bool
        ensures { result ≡ may_command at self.now }
    {
        is_same(self.serving.at, at) && self.unjudged.is_none()
    }

    /// Marks the connection as not judged from `frame` on, unless the connection is marked already.
    /// Afterwards only `switch` changes.
    pub(crate) fn unjudge(&mut self, reason: Reason, frame: u64)
        ensures { self.new ≡ unjudged_from reason frame self.old }
    {
        if self.unjudged.is_none() {
            self.unjudged = Some(Unjudged { reason, frame });
        }
    }

    /// Takes what a frame tells; a no-op if the connection isn't judged. Fails if an allocation
    /// fails, or if 2^32 channels served the connection. After an `Err`, here and below, the
    /// connection isn't to be used again.
    pub(crate) fn take(
        &mut self,
        alloc: Global,
        modulus: Modulus,
        frame: u64,
        told: Told,
    ) -> Result<(), Memory>
        ensures { OnOk result
            (self.new ≡ while_judged (made_by (count_of modulus) frame told) self.old) }
    {
        match self.unjudged {
            None => self.take_judged(alloc, modulus, frame, told),
            Some(_) => Ok(()),
        }
    }

    fn take_judged(
        &mut self,
        alloc: Global,
        modulus: Modulus,
        frame: u64,
        told: Told,
    ) -> Result<(), Memory>
        ensures { OnOk result (self.new ≡ made_by (count_of modulus) frame told self.old) }
    {
        match told {
            Told::Brought { at, sapi, message } => self.bring(at, sapi, message, frame),
            Told::Completed { at, change } => self.complete(at, change),
            Told::Handed { at, sapi, message } => self.hand(at, sapi, message, frame),
            Told::PassedUp { sapi, message } => self.pass_up(modulus, sapi, message, frame),
            Told::SentDown { sapi, message } => self.send_down(alloc, sapi, message, frame),
            other => {
                self.note(alloc, frame, &other);
                Ok(())
            }
        }
    }

    // Takes `told` if taking it can't fail; else a no-op.
    fn note(&mut self, alloc: Global, frame: u64, told: &Told)
        ensures { self.new ≡ noted_by frame told.now self.old }
    {
        match told {
            Told::Failed { at, change } => self.fail(*at, *change),
            Told::Released { at } => leave(&mut self.former, *at),
            Told::Commanded { to, change } => self.command(*to, *change),
            Told::RejectedDown => self.reject_down(alloc, frame),
            Told::Cleared => self.clear(alloc, frame),
            Told::Managed => self.manage(alloc, frame),
            Told::Unjudged { reason } => self.unjudge(*reason, frame),
            _ => {}
        }
    }

    fn bring(
        &mut self,
        at: StationChannel,
        sapi: Sapi,
        message: Octets,
        frame: u64,
    ) -> Result<(), Memory>
        ensures { OnOk result (self.new ≡ brought at sapi message frame self.old) }
    {
        match self.rank_of(at) {
            Some(rank) => self.up.arrive(sapi, due_of(rank, message, frame)),
            None => {
                self.lead_astray(at, frame);
                Ok(())
            }
        }
    }

    // Takes a message that came on a channel of the connection outside the channel's tenure. The
    // connection isn't judged from `frame` on.
    fn lead_astray(&mut self, at: StationChannel, frame: u64)
        ensures { self.new ≡ unjudged_from (astray_reason (is_early at self.old.awaited)) frame
            (record self.old {
              outside = outside_from (is_early at self.old.awaited) frame self.old.outside;
            }) }
    {
        if self.is_early(at) {
            self.unjudge(Reason::BeforeComplete, frame);
        } else {
            self.outside = self.outside.or(Some(frame));
            self.unjudge(Reason::OutsideTenure, frame);
        }
    }

    // Whether `at` is the commanded channel, on which COMPLETE is outstanding.
    fn is_early(&self, at: StationChannel) -> bool
        ensures { result ≡ is_early at self.now.awaited }
    {
        match self.awaited {
            Some(awaited) => is_same(awaited.at, at),
            None => false,
        }
    }

    fn command(&mut self, at: StationChannel, change: Change)
        ensures { self.new ≡ commanded at change self.old }
    {
        self.awaited = Some(Awaited { at, change });
    }

    fn complete(&mut self, at: StationChannel, change: Change) -> Result<(), Memory>
        ensures { OnOk result (self.new ≡ completed at change self.old) }
    {
        match self.awaited {
            Some(awaited) if is_same(awaited.at, at) && is_alike(awaited.change, change) => {
                self.go_to(at)
            }
            _ => Ok(()),
        }
    }

    // Makes the commanded channel `at` the serving one.
    fn go_to(&mut self, at: StationChannel) -> Result<(), Memory>
        ensures { OnOk result (self.new ≡ moved at self.old) }
    {
        let rank = self.serving.rank.checked_add(1).ok_or(Memory)?;
        self.former.push(self.serving)?;
        self.serving = Tenure { at, rank };
        self.awaited = None;
        Ok(())
    }

    fn fail(&mut self, at: StationChannel, change: Change)
        ensures { self.new ≡ failed at change self.old }
    {
        if let Some(awaited) = self.awaited {
            if is_same(self.serving.at, at) && is_alike(awaited.change, change) {
                self.awaited = None;
            }
        }
    }

    fn pass_up(
        &mut self,
        modulus: Modulus,
        sapi: Sapi,
        message: Octets,
        frame: u64,
    ) -> Result<(), Memory>
        ensures { OnOk result
            (self.new ≡ passed_up (count_of modulus) sapi message frame self.old) }
    {
        if self.is_cleared {
            self.up
                .pass_wrongly(sapi, Fault::BehindClear { message, frame });
            return Ok(());
        }
        let octets = message.as_slice();
        let number = number_of(octets, modulus);
        let is_wrong = is_misnumbered(modulus, self.progress, octets, self.up.of(sapi));
        self.up.pass(sapi, message, frame)?;
        self.count(modulus, number);
        if is_wrong {
            self.blame_mobile(sapi, frame);
        }
        Ok(())
    }

    // Records that a message of BSSMAP was sent after CLEAR COMPLETE.
    fn manage_behind_clear(&mut self, alloc: Global, frame: u64)
        ensures { self.new ≡ managed_behind_clear frame self.old }
    {
        let message = Octets::new(Vec::new(alloc));
        self.up.zero.fail(Fault::BehindClear { message, frame });
    }

    fn manage(&mut self, alloc: Global, frame: u64)
        ensures { self.new ≡ managed frame self.old }
    {
        if self.is_cleared {
            self.manage_behind_clear(alloc, frame);
        }
    }

    fn reject_down(&mut self, alloc: Global, frame: u64)
        ensures { self.new ≡ rejected_down frame self.old }
    {
        if self.is_cleared {
            self.manage_behind_clear(alloc, frame);
        } else {
            self.down.three.reject();
        }
    }

    fn clear(&mut self, alloc: Global, frame: u64)
        ensures { self.new ≡ cleared frame self.old }
    {
        if self.is_cleared {
            self.manage_behind_clear(alloc, frame);
        } else {
            self.is_cleared = true;
        }
    }

    /// Records the reference `source` that the switch gave the connection.
    pub(crate) fn confirm(&mut self, source: u32)
        ensures { self.new ≡ confirmed source self.old }
    {
        self.switch = Some(source);
    }

    fn send_down(
        &mut self,
        alloc: Global,
        sapi: Sapi,
        message: Octets,
        frame: u64,
    ) -> Result<(), Memory>
        ensures { OnOk result (self.new ≡ sent_down sapi message frame self.old) }
    {
        if !is_dtap(message.as_slice()) {
            if is_command(alloc, message.as_slice())? {
                self.unjudge(Reason::CommandOfSwitch, frame);
            }
            return Ok(());
        }
        match self.switch {
            Some(_) => self.down.arrive(sapi, due_of(0, message, frame)),
            None => Ok(()),
        }
    }

    fn hand(
        &mut self,
        at: StationChannel,
        sapi: Sapi,
        message: Octets,
        frame: u64,
    ) -> Result<(), Memory>
        ensures { OnOk result (self.new ≡ handed at sapi message frame self.old) }
    {
        if self.awaited.is_some() {
            self.down
                .pass_wrongly(sapi, Fault::HandedWhileChanging { message, frame });
            Ok(())
        } else if is_same(self.serving.at, at) {
            self.down.pass(sapi, message, frame)
        } else {
            self.down
                .pass_wrongly(sapi, Fault::HandedElsewhere { message, frame });
            Ok(())
        }
    }
}
