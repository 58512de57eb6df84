// SPDX-License-Identifier: MIT OR Apache-2.0
ghost use Rattle.std.specs.Prelude.{◌≡◌, None, IfErr, IfOk, true};
ghost use Rattle.std.specs.Option.{is_some};
ghost use Rattle.conn_rules.specs.Validity.{IsCarried, IsValid};
ghost use Rattle.conn_rules.specs.Table.{row_of};
ghost use Rattle.conn_fsm.specs.Doing.{Closes, Commits, Finishes, IsAsPlanned, IsPlanned};
ghost use Rattle.conn_fsm.specs.Doing.{StepsOnOk, UnchangedOnErr, WantsForRow, outs_in};
ghost use Rattle.conn_fsm.specs.Endings.{PlansOnOk};
ghost use Rattle.conn_rules.specs.Timers.{after_pass};

use crate::Plan;
use crate::machine::Machine;
use crate::planned::Ending;
use conn_messages::{Channel, Outputs};
use conn_rules::{Input, State};
use octets::Memory;
use std::snapshot::Snapshot;

impl Machine {
    /// Does the row that fits `input`, and returns whether a row fits.
    #[tactic(auto, unfolding(conn_rules::specs::Table::row_of))]
    pub(crate) fn step(
        &mut self,
        input: Input,
        offer: Option<Channel>,
        outputs: &mut Outputs,
    ) -> Result<bool, Memory>
        requires valid { IsValid self.old }
        requires carried { IsCarried input }
        ensures done { StepsOnOk result (row_of self.old input offer)
            self.old self.new outputs.old.outs outputs.new.outs }
        ensures err { UnchangedOnErr result self.old self.new outputs.old.outs outputs.new.outs }
        ensures memory { WantsForRow result (row_of self.old input offer) }
    {
        match input {
            Input::ActivationAck { at } => self.on_activation_ack(at, outputs),
            Input::ActivationNack { at } => self.on_activation_nack(at, offer, outputs),
            Input::EstablishIndication { at, sapi, message } => {
                self.on_establish_indication(at, sapi, message, outputs)
            }
            Input::EstablishConfirm { at, sapi } => self.on_establish_confirm(at, sapi, outputs),
            Input::ReleaseIndication { at, sapi } => self.on_release_indication(at, sapi, outputs),
            Input::ErrorIndication { at, sapi } => self.on_error_indication(at, sapi, outputs),
            Input::ConnectionFailure { at } => self.on_connection_failure(at, outputs),
            Input::Dtap { at, sapi, message } => self.on_dtap(at, sapi, message, outputs),
            Input::Complete { at, change, cause } => {
                self.on_complete(at, change, cause, offer, outputs)
            }
            Input::Failure { at, change, cause } => self.on_failure(
                at, change, cause, offer, outputs,
            ),
            Input::ReleaseAck { at } => self.on_release_ack(at, offer, outputs),
            Input::Move => self.on_move(offer, outputs),
            Input::ConnectionConfirm { source } => self.on_confirm(source, outputs),
            Input::ConnectionRefused => self.on_refused(outputs),
            Input::Released { source } => self.on_released(source, outputs),
            Input::Downlink { sapi, message } => self.on_downlink(sapi, message, outputs),
            Input::AssignmentRequest { is_speech } => {
                self.on_assignment_request(is_speech, offer, outputs)
            }
            Input::CipherModeCommand => self.on_cipher_mode_command(outputs),
            Input::ClearCommand => self.on_clear_command(outputs),
            planned => self.finish(&planned, outputs),
        }
    }

    // Ends the connection at an expiry or a broken link, if a row fits. Returns whether a row fits.
    #[tactic(auto, using(crate::proofs::Keeping::finished, crate::proofs::Keeping::ending_fits))]
    fn finish(&mut self, input: &Input, outputs: &mut Outputs) -> Result<bool, Memory>
        requires { IsPlanned input.now }
        ensures done { StepsOnOk result (row_of self.old input.now None)
            self.old self.new outputs.old.outs outputs.new.outs }
        ensures err { UnchangedOnErr result self.old self.new outputs.old.outs outputs.new.outs }
        ensures memory { WantsForRow result (row_of self.old input.now None) }
    {
        let ending = self.ending(input)?;
        self.end_as(ending, outputs)
    }

    // If `ending` has a state, appends the frames of `ending` and ends the connection in this
    // state. Returns whether `ending` has a state.
    fn end_as(&mut self, ending: Ending, outputs: &mut Outputs) -> Result<bool, Memory>
        ensures done { IfOk result (λ fits. Finishes ending.last ending.outputs.outs fits
            self.old self.new outputs.old.outs outputs.new.outs) }
        ensures err { UnchangedOnErr result self.old self.new outputs.old.outs outputs.new.outs }
        ensures memory { IfErr result (λ _. is_some ending.last ≡ true) }
    {
        let Ending {
            outputs: made,
            last,
        } = ending;
        let Some(last) = last else {
            return Ok(false);
        };
        outputs.reserve(made.len())?;
        outputs.append(made);
        self.empty(last);
        Ok(true)
    }

    // Ends the connection in the state `last`; changes nothing if it is `None`.
    fn close(&mut self, last: Option<State>)
        ensures { Closes last self.old self.new }
    {
        if let Some(last) = last {
            self.empty(last);
        }
    }

    // The effect of `input`, an expiry or a broken link, on the connection.
    #[tactic(auto, unfolding(conn_rules::specs::Table::row_of))]
    fn ending(&self, input: &Input) -> Result<Ending, Memory>
        requires { IsPlanned input.now }
        ensures ending { PlansOnOk result (row_of self.now input.now None) self.now }
        ensures memory { WantsForRow result (row_of self.now input.now None) }
    {
        match input {
            Input::Expiry => self.on_expiry(),
            Input::DrainExpiry => self.on_drain_expiry(),
            Input::StationDown { station } => self.on_station_down(*station),
            Input::SwitchDown => self.on_switch_down(),
            _ => unreachable!(),
        }
    }

    /// Plans the step for `input`, an expiry or a broken link.
    pub(crate) fn plan(&self, input: Input) -> Result<Plan, Memory>
        requires { IsPlanned input }
        ensures was { IfOk result (λ plan. plan.was ≡ self.now) }
        ensures input { IfOk result (λ plan. plan.input ≡ input) }
        ensures outs { IfOk result
            (λ plan. plan.outs ≡ outs_in (row_of self.now input None) self.now.number) }
        ensures memory { WantsForRow result (row_of self.now input None) }
    {
        let Ending { outputs, last } = self.ending(&input)?;
        Ok(Plan {
            outputs,
            last,
            was: Snapshot::of(self),
            input: Snapshot::of(&input),
        })
    }

    /// Does the planned step and returns its frames.
    #[tactic(auto, using(crate::proofs::Later::commits_later))]
    pub(crate) fn commit(&mut self, plan: Plan) -> Outputs
        requires { IsAsPlanned plan.was self.old }
        ensures { Commits (row_of self.old plan.input None) self.old self.new result.outs }
    {
        let Plan { outputs, last, .. } = plan;
        self.close(last);
        outputs
    }

    /// Advances the timer of the state by `ms` milliseconds, and also the drain time if a channel
    /// drains. Both timers saturate.
    pub(crate) fn pass(&mut self, ms: u32)
        ensures { self.new ≡ after_pass ms self.old }
    {
        self.waited = self.waited_after(ms);
        self.drained = self.drained_after(ms);
    }

    /// The value of `waited` after `ms` more milliseconds.
    pub(crate) fn waited_after(&self, ms: u32) -> u64
        ensures { result ≡ (after_pass ms self.now).waited }
    {
        self.waited.saturating_add(u64::from(ms))
    }

    /// The value of `drained` after `ms` more milliseconds.
    pub(crate) fn drained_after(&self, ms: u32) -> u64
        ensures { result ≡ (after_pass ms self.now).drained }
    {
        if self.draining.is_empty() {
            self.drained
        } else {
            self.drained.saturating_add(u64::from(ms))
        }
    }
}
