// SPDX-License-Identifier: MIT OR Apache-2.0
ghost use Rattle.std.specs.Prelude.{◌≡◌, ◌++◌, IfOk, OnOk, Some, None, filter, not};
ghost use Rattle.conn_messages.specs.Out.{IsSound, outs_of};
ghost use Rattle.std.specs.List.{AllByRecursion};
ghost use Rattle.conn_messages.specs.declared.causes.TheConstants.{ABNORMAL_RELEASE};
ghost use Rattle.conn_messages.specs.declared.causes.TheConstants.{EQUIPMENT_FAILURE};
ghost use Rattle.conn_rules.specs.Steps.{dropping, end_outs, failing, is_for_station};
ghost use Rattle.conn_rules.specs.Steps.{target_release, without_station};
ghost use Rattle.conn_rules.specs.Table.{on_drain_expiry, on_expiry};
ghost use Rattle.conn_rules.specs.Table.{on_station_down, on_switch_down, targets};
ghost use Rattle.conn_fsm.specs.Doing.{Plans, WantsForRow};
ghost use Rattle.conn_fsm.specs.Endings.{PlansOnOk};

use crate::machine::Machine;
use conn_messages::causes::{ABNORMAL_RELEASE, EQUIPMENT_FAILURE, RADIO_INTERFACE_MESSAGE_FAILURE};
use conn_messages::station_message::{channel_release, rf_channel_release};
use conn_messages::switch_message::clear_request;
use conn_messages::{Messages, Outputs};
use conn_rules::{Stage, State};
use octets::Memory;

/// The effect of an expiry or a broken link on a connection: the frames that are put, and the state
/// in which the connection ends. The state is `None` if no row fits.
#[derive(Drop)]
pub(crate) struct Ending {
    pub(crate) outputs: Outputs,
    pub(crate) last: Option<State>,
}

impl Machine {
    // The ending if no row fits: no frames and no state.
    fn ending_none(&self) -> Ending
        ensures { Plans result.outputs.outs result.last None self.now }
    {
        Ending {
            outputs: Outputs::new(self.alloc),
            last: None,
        }
    }

    // The ending in the state `last` with the frames of the messages `put`. Returns `Memory` if an
    // allocation fails.
    fn ending_in(&self, put: &Messages, last: State) -> Result<Ending, Memory>
        ensures { IfOk result (λ e. (e.outputs.outs ≡ outs_of self.now.number put.now)
            × (e.last ≡ Some last) × AllByRecursion IsSound put.now) }
    {
        Ok(Ending {
            outputs: Outputs::made(self.alloc, self.number, put)?,
            last: Some(last),
        })
    }

    fn dropping(&self) -> Result<Ending, Memory>
        ensures { PlansOnOk result (Some (dropping self.now)) self.now }
    {
        let mut put = Messages::new(self.alloc);
        put.push(rf_channel_release(&self.serving))?;
        self.ending_in(&put, State::Removed)
    }

    fn failing(&self, cause: u8) -> Result<Ending, Memory>
        ensures { PlansOnOk result (Some (failing self.now.state self.now cause)) self.now }
    {
        let mut put = Messages::new(self.alloc);
        self.put_failing(cause, &mut put)?;
        self.ending_in(&put, self.failed_state(cause))
    }

    /// The effect if the timer of the state expired: T3101, T3103 or T3107.
    pub(crate) fn on_expiry(&self) -> Result<Ending, Memory>
        ensures ending { PlansOnOk result (on_expiry self.now.state self.now) self.now }
        ensures memory { WantsForRow result (on_expiry self.now.state self.now) }
    {
        let state = self.state;
        match state {
            State::WaitActivation | State::WaitEstablish => self.dropping(),
            State::Live(_, Stage::Preparing(_) | Stage::Changing(_)) => {
                self.failing(RADIO_INTERFACE_MESSAGE_FAILURE)
            }
            _ => Ok(self.ending_none()),
        }
    }

    /// The effect if the oldest old channel has drained for the longest time that is allowed.
    pub(crate) fn on_drain_expiry(&self) -> Result<Ending, Memory>
        ensures ending { PlansOnOk result (on_drain_expiry self.now.state self.now) self.now }
        ensures memory { WantsForRow result (on_drain_expiry self.now.state self.now) }
    {
        let state = self.state;
        match state {
            State::Live(_, _) if !self.draining.is_empty() => self.failing(EQUIPMENT_FAILURE),
            _ => Ok(self.ending_none()),
        }
    }

    /// The effect if the link of `station` broke. No frame is put for this station.
    pub(crate) fn on_station_down(&self, station: u16) -> Result<Ending, Memory>
        ensures ending { PlansOnOk result (on_station_down self.now.state self.now station) self.now }
        ensures memory { WantsForRow result (on_station_down self.now.state self.now station) }
    {
        let serves = self.serving.station == station;
        let state = self.state;
        match state {
            State::WaitActivation | State::WaitEstablish if serves => {
                self.ending_in(&Messages::new(self.alloc), State::Removed)
            }
            State::WaitConfirm if serves => self.failing_without(station),
            State::Live(_, stage)
                if serves || targets(station, stage) || self.draining.drains_at(station) => {
                self.failing_without(station)
            }
            _ => Ok(self.ending_none()),
        }
    }

    // The effect if the connection fails, without the messages to `station`.
    fn failing_without(&self, station: u16) -> Result<Ending, Memory>
        ensures { PlansOnOk result
            (Some (without_station station (failing self.now.state self.now EQUIPMENT_FAILURE)))
            self.now }
    {
        let mut put = Messages::new(self.alloc);
        self.put_failing_without(station, &mut put)?;
        self.ending_in(&put, self.failed_state(EQUIPMENT_FAILURE))
    }

    fn put_failing_without(&self, station: u16, put: &mut Messages) -> Result<(), Memory>
        ensures { OnOk result (put.new ≡ put.old
            ++ (without_station station
            (failing self.now.state self.now EQUIPMENT_FAILURE)).outs) }
    {
        let state = self.state;
        if let State::Live(reference, _) = state {
            put.push(clear_request(self.alloc, reference, EQUIPMENT_FAILURE)?)?;
        }
        self.put_end_without(station, put)
    }

    fn put_end_without(&self, station: u16, put: &mut Messages) -> Result<(), Memory>
        ensures { OnOk result (put.new ≡ put.old
            ++ filter (λ m. not (is_for_station station m))
            (end_outs self.now.state self.now.serving ABNORMAL_RELEASE)) }
    {
        if self.serving.station != station {
            put.push(channel_release(self.alloc, &self.serving, ABNORMAL_RELEASE)?)?;
            put.push(rf_channel_release(&self.serving))?;
        }
        self.put_target_release_without(station, put)
    }

    fn put_target_release_without(&self, station: u16, put: &mut Messages) -> Result<(), Memory>
        ensures { OnOk result (put.new ≡ put.old
            ++ filter (λ m. not (is_for_station station m)) (target_release self.now.state)) }
    {
        let state = self.state;
        match state {
            State::Live(_, Stage::Preparing(target) | Stage::Changing(target))
                if target.channel.station != station => {
                put.push(rf_channel_release(&target.channel))
            }
            _ => Ok(()),
        }
    }

    /// The effect if the link of the switch broke.
    pub(crate) fn on_switch_down(&self) -> Result<Ending, Memory>
        ensures ending { PlansOnOk result (on_switch_down self.now.state self.now) self.now }
        ensures memory { WantsForRow result (on_switch_down self.now.state self.now) }
    {
        let state = self.state;
        let mut put = Messages::new(self.alloc);
        match state {
            State::WaitActivation | State::WaitEstablish => {
                put.push(rf_channel_release(&self.serving))?;
            }
            State::WaitConfirm | State::Live(_, _) => self.put_end(ABNORMAL_RELEASE, &mut put)?,
            State::Closed(_) => {}
            State::Removed => return Ok(self.ending_none()),
        }
        self.ending_in(&put, State::Removed)
    }
}

// Whether the stage has a target at this station.
fn targets(station: u16, stage: Stage) -> bool
    ensures { result ≡ targets station stage }
{
    match stage {
        Stage::Preparing(target) | Stage::Changing(target) => target.channel.station == station,
        Stage::Active | Stage::Draining => false,
    }
}
