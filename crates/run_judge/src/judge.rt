// SPDX-License-Identifier: MIT OR Apache-2.0
use crate::cells::keep_in_cell;
use crate::channels::{ChannelView, Channels, Early, Opening};
use crate::connection::Told;
use crate::{Connection, Reason, Said, StationChannel};
use conn_messages::Change;
use dtap_codec::{CellDescription, Modulus, Sapi};
use indexmap::IndexMap;
use octets::{Memory, Octets};
use std::alloc::Global;

/// Which connection has a reference of the switch.
#[derive(Clone, Copy)]
pub(crate) enum Named {
    /// Only the connection with this controller's reference has it.
    One(u32),
    /// The switch gave the reference to two connections at once.
    Shared,
}

/// The connections and channels of one controller, as the frames so far show them.
#[derive(Drop)]
pub struct Judge {
    pub(crate) alloc: Global,
    pub(crate) modulus: Modulus,
    /// The cells of the stations, from station 1, as far as they are known.
    pub(crate) cells: Vec<CellDescription>,
    /// The number of CRs that asked for a connection; it saturates.
    pub(crate) begun: u64,
    /// The open connections, by the controller's references.
    pub(crate) connections: IndexMap<u32, Connection>,
    /// The connections by the switch's references.
    pub(crate) by_switch: IndexMap<u32, Named>,
    pub(crate) channels: Channels,
}

impl Judge {
    ghost use Rattle.std.specs.Prelude.{◌≡◌, nat_eq, option_map, IfOk, OnOk, Some};
    ghost use Rattle.std.specs.List.{IsDistinct};
    ghost use Rattle.std.specs.Option.{option_copied};
    ghost use Rattle.dtap_codec.specs.Number.{count_of};
    ghost use Rattle.run_judge.specs.Channels.{opened_channels, view_at};
    ghost use Rattle.run_judge.specs.Connection.{commanded, confirmed, unjudged_from};
    ghost use Rattle.run_judge.specs.ConnectionSteps.{made_by};
    ghost use Rattle.run_judge.specs.Judging.{after, after_hole, assigned, begun_at, begun_nowhere};
    ghost use Rattle.run_judge.specs.Judging.{begun_on, brought_on, channels_for, confirmed_as};
    ghost use Rattle.run_judge.specs.Judging.{ended, ended_by, freed_reference, given_up};
    ghost use Rattle.run_judge.specs.Judging.{handed_over, named_by, new_judging, opened, owner_of};
    ghost use Rattle.run_judge.specs.Judging.{refused, released_on, requested, with_channel};
    ghost use Rattle.run_judge.specs.Judging.{with_connection, with_destination, with_judged};
    ghost use Rattle.run_judge.specs.Judging.{with_new, with_owner};
    ghost use Rattle.run_judge.specs.Judging.{without_switch_reference};
    ghost use Rattle.run_judge.specs.JudgeState.{after_message, after_of_switch_link};
    ghost use Rattle.run_judge.specs.JudgeState.{connections_left, reference_named};
    ghost use Rattle.run_judge.specs.JudgeState.{references_left, shown};

    /// A judge before the first frame. `modulus` is the number of values of N(SD) in the network.
    /// The cell of station N is at place N - 1 of `cells`; cells beyond the list aren't known.
    /// Allocates nothing.
    pub fn new(alloc: Global, modulus: Modulus, cells: Vec<CellDescription>) -> Judge
        ensures { shown result ≡ new_judging (count_of modulus) cells.items }
    {
        Judge {
            alloc,
            modulus,
            cells,
            begun: 0,
            connections: IndexMap::new(alloc),
            by_switch: IndexMap::new(alloc),
            channels: Channels::new(alloc),
        }
    }

    /// Takes `said`, which the frame with the number `frame` says. Returns the connection that the
    /// frame ends: by RLC, by CREF before CC, or by a CR with the same reference. `None` if no
    /// connection ends. Fails if an allocation fails, or if 2^32 channels served a connection.
    /// After an `Err` the judge isn't to be used again.
    pub fn take(&mut self, frame: u64, said: Said) -> Result<Option<Connection>, Memory>
        ensures after { OnOk result (shown self.new ≡ after frame said (shown self.old)) }
        ensures ended { IfOk result (λ ended. ended ≡ ended_by said (shown self.old)) }
    {
        match said {
            Said::Requests { source, message } => self.request(source, message, frame),
            Said::Ends { source } => Ok(self.end(source)),
            Said::Refuses { destination } => Ok(self.refuse(destination)),
            other => {
                self.take_message(frame, other)?;
                Ok(None)
            }
        }
    }

    // Takes `said` if it neither begins nor ends a connection; else a no-op.
    fn take_message(&mut self, frame: u64, said: Said) -> Result<(), Memory>
        ensures { OnOk result (shown self.new ≡ after_message frame said (shown self.old)) }
    {
        match said {
            Said::Establishes { at, message } => self.open(at, message, frame),
            Said::Brings { at, sapi, message } => self.bring(at, sapi, message, frame),
            Said::Completes { at, change } => {
                self.tell_owner(at, frame, Told::Completed { at, change })
            }
            Said::Fails { at, change } => self.tell_owner(at, frame, Told::Failed { at, change }),
            Said::Released { at } => self.release(at, frame),
            Said::Activates { at, reference } => {
                self.channels.set(at, ChannelView::Activated(reference))
            }
            Said::Releases { at } => self.give_up(at),
            Said::Assigns { at, number } => self.assign(at, number, frame),
            Said::HandsOver {
                at,
                cell,
                number,
                reference,
            } => self.hand_over(at, &cell, number, reference, frame),
            Said::Hands { at, sapi, message } => {
                self.tell_owner(at, frame, Told::Handed { at, sapi, message })
            }
            other => self.take_of_switch_link(frame, other),
        }
    }

    // Takes `said` if it is of the switch's link and neither begins nor ends a connection; else a
    // no-op.
    fn take_of_switch_link(&mut self, frame: u64, said: Said) -> Result<(), Memory>
        ensures { OnOk result (shown self.new ≡ after_of_switch_link frame said (shown self.old)) }
    {
        match said {
            Said::Passes {
                destination,
                sapi,
                message,
            } => self.tell_named(destination, frame, Told::PassedUp { sapi, message }),
            Said::Transfers {
                destination,
                sapi,
                message,
            } => self.tell(destination, frame, Told::SentDown { sapi, message }),
            Said::Confirms {
                destination,
                source,
            } => self.confirm(destination, source, frame),
            Said::Rejects { destination } => {
                self.tell_named(destination, frame, Told::RejectedDown)
            }
            Said::Clears { destination } => self.tell_named(destination, frame, Told::Cleared),
            Said::Manages { destination } => self.tell_named(destination, frame, Told::Managed),
            _ => Ok(()),
        }
    }

    /// Records that frames are missing before the frame `frame`: the connections that are open
    /// aren't judged from `frame` on.
    pub fn miss(&mut self, frame: u64)
        ensures { shown self.new ≡ after_hole frame (shown self.old) }
    {
        for index in 0..self.connections.len() {
            if let Some(connection) = self.connections.get_index_mut(index) {
                connection.unjudge(Reason::Hole, frame);
            }
        }
    }

    /// The connections that haven't ended, in no particular order. The controller's references of
    /// these connections are distinct. Fails only if an allocation fails.
    pub fn finish(self) -> Result<Vec<Connection>, Memory>
        ensures left { IfOk result (λ left. left.items ≡ connections_left self) }
        ensures references { IsDistinct nat_eq (references_left self) }
    {
        let Judge {
            alloc,
            cells,
            connections,
            by_switch,
            channels,
            ..
        } = self;
        drop(cells);
        drop(by_switch);
        drop(channels);
        // The contract of `len` says that the references are distinct.
        let _count = connections.len();
        Ok(connections.into_values().collect(alloc)?)
    }

    // ---- the connection of a frame

    // The connection that the channel `at` belongs to, if any.
    fn owner(&self, at: StationChannel) -> Option<&Connection>
        ensures { option_copied result ≡ owner_of at (shown self.now) }
    {
        match self.channels.view(at) {
            Some(ChannelView::Owned { reference, number }) => {
                let connection = self.connections.get(reference)?;
                if connection.number == *number {
                    Some(connection)
                } else {
                    None
                }
            }
            _ => None,
        }
    }

    // The controller's reference of the connection that the channel `at` belongs to, if any.
    fn owner_reference(&self, at: StationChannel) -> Option<u32>
        ensures { result ≡ option_map (λ c. c.reference) (owner_of at (shown self.now)) }
    {
        let owner = self.owner(at)?;
        Some(owner.reference)
    }

    // The controller's reference of the connection that has the switch's reference `destination`.
    // `None` if no connection has `destination`, or if it is shared.
    #[tactic(auto, unfolding(crate::specs::JudgeState::entries_at))]
    fn reference_named(&self, destination: u32) -> Option<u32>
        ensures { result ≡ reference_named ((shown self.now).by_switch destination) }
    {
        match self.by_switch.get(&destination) {
            Some(Named::One(reference)) => Some(*reference),
            _ => None,
        }
    }

    // ---- what a frame tells of a connection. After an `Err`, here and below, the judge isn't to
    // be used again.

    // Hands `told` to the connection with the controller's reference `reference`, if there is one.
    fn tell(&mut self, reference: u32, frame: u64, told: Told) -> Result<(), Memory>
        ensures { OnOk result (shown self.new ≡ with_judged reference
            (made_by (count_of (self.old).modulus) frame told) (shown self.old)) }
    {
        match self.connections.get_mut(&reference) {
            Some(connection) => connection.take(self.alloc, self.modulus, frame, told),
            None => Ok(()),
        }
    }

    // Hands `told` to the connection that the channel `at` belongs to, if any.
    fn tell_owner(&mut self, at: StationChannel, frame: u64, told: Told) -> Result<(), Memory>
        ensures { OnOk result (shown self.new ≡ with_owner at
            (made_by (count_of (self.old).modulus) frame told) (shown self.old)) }
    {
        match self.owner_reference(at) {
            Some(reference) => self.tell(reference, frame, told),
            None => Ok(()),
        }
    }

    // Hands `told` to the connection with the switch's reference `destination`, if exactly one
    // connection has it.
    fn tell_named(&mut self, destination: u32, frame: u64, told: Told) -> Result<(), Memory>
        ensures { OnOk result (shown self.new ≡ with_destination destination
            (made_by (count_of (self.old).modulus) frame told) (shown self.old)) }
    {
        match self.reference_named(destination) {
            Some(reference) => self.tell(reference, frame, told),
            None => Ok(()),
        }
    }

    fn unjudge(&mut self, reference: u32, reason: Reason, frame: u64) -> Result<(), Memory>
        ensures { OnOk result (shown self.new
            ≡ with_judged reference (unjudged_from reason frame) (shown self.old)) }
    {
        self.tell(reference, frame, Told::Unjudged { reason })
    }

    // ---- a base station's frames

    fn open(&mut self, at: StationChannel, message: Octets, frame: u64) -> Result<(), Memory>
        ensures { OnOk result (shown self.new ≡ opened at message frame (shown self.old)) }
    {
        if let Some(ChannelView::Activated(Some(_))) = self.channels.view(at) {
            return Ok(());
        }
        if self.owner(at).is_some() {
            return Ok(());
        }
        self.channels.open(at, message, frame)
    }

    fn bring(
        &mut self,
        at: StationChannel,
        sapi: Sapi,
        message: Octets,
        frame: u64,
    ) -> Result<(), Memory>
        ensures { OnOk result (shown self.new ≡ brought_on at sapi message frame (shown self.old)) }
    {
        if let Some(ChannelView::Opened(_)) = self.channels.view(at) {
            let early = Early {
                sapi,
                message,
                frame,
                is_optional: false,
            };
            return self.channels.add_early(at, early);
        }
        self.tell_owner(at, frame, Told::Brought { at, sapi, message })
    }

    fn release(&mut self, at: StationChannel, frame: u64) -> Result<(), Memory>
        ensures { OnOk result (shown self.new ≡ released_on at (shown self.old)) }
    {
        let reference = match self.owner(at) {
            Some(owner) if owner.is_old(at) => owner.reference,
            _ => return Ok(()),
        };
        self.channels.set(at, ChannelView::Unknown)?;
        self.tell(reference, frame, Told::Released { at })
    }

    // ---- the controller's frames to a base station

    fn give_up(&mut self, at: StationChannel) -> Result<(), Memory>
        ensures { OnOk result
            (shown self.new ≡ given_up (view_at (self.old).channels at) at (shown self.old)) }
    {
        match self.channels.view(at) {
            Some(ChannelView::Activated(_)) | Some(ChannelView::Opened(_)) => {
                self.channels.set(at, ChannelView::Unknown)
            }
            _ => Ok(()),
        }
    }

    // Records that the mobile of a connection is commanded to the channel `to`, which belongs to
    // the connection from then on.
    fn command(
        &mut self,
        reference: u32,
        number: u64,
        to: StationChannel,
        change: Change,
        frame: u64,
    ) -> Result<(), Memory>
        ensures { OnOk result (shown self.new ≡ with_channel to (ChannelView.Owned reference number)
            (with_judged reference (commanded to change) (shown self.old))) }
    {
        self.channels
            .set(to, ChannelView::Owned { reference, number })?;
        self.tell(reference, frame, Told::Commanded { to, change })
    }

    fn assign(&mut self, at: StationChannel, number: u8, frame: u64) -> Result<(), Memory>
        ensures { OnOk result (shown self.new ≡ assigned at number (shown self.old)) }
    {
        let (reference, owner) = match self.owner(at) {
            Some(owner) if owner.may_be_commanded(at) => (owner.reference, owner.number),
            _ => return Ok(()),
        };
        let to = StationChannel {
            station: at.station,
            number,
        };
        self.command(reference, owner, to, Change::Assignment, frame)
    }

    // The channels with the number `number` that were activated with the handover reference
    // `handover` and may be in the cell `cell`.
    fn channels_for(
        &self,
        cell: &CellDescription,
        number: u8,
        handover: u8,
    ) -> Result<Vec<StationChannel>, Memory>
        ensures { IfOk result
            (λ found. found.items ≡ channels_for cell.now number handover (shown self.now)) }
    {
        let mut found = self.channels.offered(number, handover)?;
        keep_in_cell(&mut found, self.cells.as_slice(), cell);
        Ok(found)
    }

    #[tactic(auto, using(crate::proofs::JudgeLemmas::handed_over_to_several))]
    fn hand_over(
        &mut self,
        at: StationChannel,
        cell: &CellDescription,
        number: u8,
        handover: u8,
        frame: u64,
    ) -> Result<(), Memory>
        ensures { OnOk result
            (shown self.new ≡ handed_over at cell.now number handover frame (shown self.old)) }
    {
        let (reference, owner) = match self.owner(at) {
            Some(owner) if owner.may_be_commanded(at) => (owner.reference, owner.number),
            _ => return Ok(()),
        };
        let offered = self.channels_for(cell, number, handover)?;
        match offered.as_slice() {
            [to] => self.command(reference, owner, *to, Change::Handover, frame),
            [] => self.unjudge(reference, Reason::UnknownChannel, frame),
            _ => self.unjudge(reference, Reason::TwoChannels, frame),
        }
    }

    // ---- a connection ends

    fn end(&mut self, reference: u32) -> Option<Connection>
        ensures connection { result ≡ (shown self.old).connections reference }
        ensures new { shown self.new ≡ ended reference (shown self.old) }
        ensures channels { (self.new).channels ≡ (self.old).channels }
    {
        let connection = self.connections.swap_remove(&reference)?;
        self.free_switch_reference(connection.switch, reference);
        Some(connection)
    }

    // Frees `source`, the switch's reference of a connection that ended, unless the reference is
    // shared.
    fn free(&mut self, source: u32, reference: u32)
        ensures new { shown self.new ≡ freed_reference ((shown self.old).by_switch source) source
            reference (shown self.old) }
        ensures channels { (self.new).channels ≡ (self.old).channels }
    {
        let Some(owner) = self.reference_named(source) else {
            return;
        };
        if owner == reference {
            self.by_switch.swap_remove(&source);
        }
    }

    fn free_switch_reference(&mut self, switch: Option<u32>, reference: u32)
        ensures new { shown self.new ≡ without_switch_reference switch reference (shown self.old) }
        ensures channels { (self.new).channels ≡ (self.old).channels }
    {
        match switch {
            Some(source) => self.free(source, reference),
            None => {}
        }
    }

    #[tactic(auto, unfolding(crate::specs::JudgeState::entries_at))]
    fn refuse(&mut self, reference: u32) -> Option<Connection>
        ensures connection { result ≡ ended_by (Said.Refuses reference) (shown self.old) }
        ensures new { shown self.new ≡ refused reference (shown self.old) }
    {
        let connection = self.connections.get(&reference)?;
        if connection.switch.is_some() {
            return None;
        }
        self.end(reference)
    }

    // ---- a connection begins

    fn request(
        &mut self,
        source: u32,
        message: Octets,
        frame: u64,
    ) -> Result<Option<Connection>, Memory>
        ensures connection { IfOk result (λ c. c ≡ (shown self.old).connections source) }
        ensures new { OnOk result
            (shown self.new ≡ requested source message frame (shown self.old)) }
    {
        self.begun = self.begun.saturating_add(1);
        let ended = self.end(source);
        match self.begin(source, message, frame) {
            Ok(()) => Ok(ended),
            Err(fault) => {
                drop(ended);
                Err(fault)
            }
        }
    }

    fn begin(&mut self, source: u32, message: Octets, frame: u64) -> Result<(), Memory>
        ensures { OnOk result (shown self.new ≡ begun_on
            (opened_channels message (self.old).channels) source message frame (shown self.old)) }
    {
        let opened = self.channels.opened(message.as_slice())?;
        match opened.as_slice() {
            [at] => self.begin_at(*at, source, frame),
            [] => self.begin_nowhere(Reason::NoBeginning, source, message, frame),
            _ => self.begin_nowhere(Reason::TwoBeginnings, source, message, frame),
        }
    }

    // Begins a connection on the channel `at`, on which the mobile sent the initial message.
    pub(crate) fn begin_at(
        &mut self,
        at: StationChannel,
        source: u32,
        frame: u64,
    ) -> Result<(), Memory>
        ensures { OnOk result (shown self.new ≡ begun_at at source frame (shown self.old)) }
    {
        let number = self.begun;
        let owned = ChannelView::Owned {
            reference: source,
            number,
        };
        let opening = self.channels.replace(at, owned)?.into_opening(self.alloc);
        let asked = opening.asked_in(frame);
        let connection = Connection::opened(self.alloc, self.modulus, number, source, at, asked)?;
        self.keep(source, connection)
    }

    // Begins a connection whose channel isn't known. The connection isn't judged.
    fn begin_nowhere(
        &mut self,
        reason: Reason,
        source: u32,
        message: Octets,
        frame: u64,
    ) -> Result<(), Memory>
        ensures { OnOk result
            (shown self.new ≡ begun_nowhere reason source message frame (shown self.old)) }
    {
        let opening = Opening {
            message,
            frame,
            early: Vec::new(self.alloc),
        };
        let nowhere = StationChannel {
            station: 0,
            number: 0,
        };
        let mut connection = Connection::new(
            self.alloc,
            self.modulus,
            self.begun,
            source,
            nowhere,
            opening,
        )?;
        connection.unjudge(reason, frame);
        self.keep(source, connection)
    }

    fn keep(&mut self, source: u32, connection: Connection) -> Result<(), Memory>
        ensures { OnOk result (shown self.new ≡ with_new source connection (shown self.old)) }
    {
        self.connections.insert(source, connection)?;
        Ok(())
    }

    // ---- the switch's references

    #[tactic(auto, unfolding(crate::specs::JudgeState::entries_at))]
    fn confirm(&mut self, reference: u32, source: u32, frame: u64) -> Result<(), Memory>
        ensures { OnOk result
            (shown self.new ≡ confirmed_as reference source frame (shown self.old)) }
    {
        let Some(connection) = self.connections.get(&reference) else {
            return Ok(());
        };
        if connection.switch.is_some() {
            return Ok(());
        }
        self.name(reference, source, frame)
    }

    // Records that the switch gives the reference `source` to a connection. If another connection
    // has `source`, neither connection is judged.
    fn name(&mut self, reference: u32, source: u32, frame: u64) -> Result<(), Memory>
        ensures { OnOk result (shown self.new ≡ named_by ((shown self.old).by_switch source)
            reference source frame (shown self.old)) }
    {
        match self.by_switch.get(&source).copied() {
            None => {
                self.by_switch.insert(source, Named::One(reference))?;
                self.give_reference(reference, source);
                Ok(())
            }
            Some(Named::One(other)) => {
                self.by_switch.insert(source, Named::Shared)?;
                self.unjudge(reference, Reason::SharedReference, frame)?;
                self.unjudge(other, Reason::SharedReference, frame)
            }
            Some(Named::Shared) => self.unjudge(reference, Reason::SharedReference, frame),
        }
    }

    fn give_reference(&mut self, reference: u32, source: u32)
        ensures { shown self.new ≡ with_connection reference (confirmed source) (shown self.old) }
    {
        match self.connections.get_mut(&reference) {
            Some(connection) => connection.confirm(source),
            None => {}
        }
    }
}
