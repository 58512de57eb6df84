// SPDX-License-Identifier: MIT OR Apache-2.0
ghost use Rattle.std.specs.Prelude.{◌≡◌, List, IfOk, OnOk};
ghost use Rattle.std.specs.List.{AllByRecursion};
ghost use Rattle.conn_messages.specs.declared.message.Message.{Message};
ghost use Rattle.conn_messages.specs.Out.{IsSound, outs_of};
ghost use Rattle.conn_rules.specs.Validity.{IsCarried};
ghost use Rattle.connections.specs.Entries.{IsOffer};
ghost use Rattle.controller_model.specs.Controller.{entry_of};
ghost use Rattle.controller_model.specs.Life.{concerning, concerning_too};
ghost use Rattle.controller.specs.Doing.{Turns, UnchangedOnErr, by_offer, fits_in, fits_with};
ghost use Rattle.controller.specs.Doing.{following};
ghost use Rattle.controller.specs.Wanting.{WantsForRowOf};

use crate::controller::Controller;
use conn_fsm::{Channel, Outputs};
use conn_messages::Out;
use conn_rules::Input;
use controller_parts::handovers_begun;
use octets::Memory;

impl Controller {
    /// Gives an input to the connection with number `number`. Ignores the input if no row fits or
    /// there is no such connection. If memory runs out, returns `Memory` and changes nothing.
    pub(crate) fn concern(
        &mut self,
        number: u32,
        input: Input,
        outputs: &mut Outputs,
    ) -> Result<(), Memory>
        requires { IsCarried input }
        ensures ok { OnOk result (Turns (concerning input self.old (entry_of self.old number))
            self.old self.new outputs.old.outs outputs.new.outs) }
        ensures err { UnchangedOnErr result self.old self.new outputs.old.outs outputs.new.outs }
        ensures memory { WantsForRowOf result (entry_of self.old number) input }
    {
        if !self.do_row(number, input, outputs)? {
            self.ignore();
        }
        Ok(())
    }

    /// Lets connection `number` do the row that fits `input`, with the channel that the controller
    /// has to offer. Returns whether there is such a connection and a row fits. If memory runs out,
    /// returns `Memory` and changes nothing.
    pub(crate) fn do_row(
        &mut self,
        number: u32,
        input: Input,
        outputs: &mut Outputs,
    ) -> Result<bool, Memory>
        requires { IsCarried input }
        ensures fits { IfOk result
            (λ fits. fits ≡ fits_in self.old input (entry_of self.old number)) }
        ensures ok { OnOk result (Turns (concerning_too input self.old (entry_of self.old number))
            self.old self.new outputs.old.outs outputs.new.outs) }
        ensures err { UnchangedOnErr result self.old self.new outputs.old.outs outputs.new.outs }
        ensures memory { WantsForRowOf result (entry_of self.old number) input }
    {
        let offer = self.offer_for(number, &input);
        self.do_row_with(number, input, offer, outputs)
    }

    /// Like `do_row`, with the offered channel `offer`.
    #[tactic(auto, using(crate::proofs::Wanting::row_fits))]
    pub(crate) fn do_row_with(
        &mut self,
        number: u32,
        input: Input,
        offer: Option<Channel>,
        outputs: &mut Outputs,
    ) -> Result<bool, Memory>
        requires carried { IsCarried input }
        requires offer { IsOffer self.old.settings offer }
        ensures fits { IfOk result
            (λ fits. fits ≡ fits_with input offer (entry_of self.old number)) }
        ensures ok { OnOk result (Turns (by_offer input offer self.old (entry_of self.old number))
            self.old self.new outputs.old.outs outputs.new.outs) }
        ensures err { UnchangedOnErr result self.old self.new outputs.old.outs outputs.new.outs }
        ensures memory { WantsForRowOf result (entry_of self.old number) input }
    {
        let from = outputs.len();
        let fits = self.connections.step(number, input, offer, outputs)?;
        if fits {
            self.follow(number, &outputs.as_slice()[from..]);
        }
        Ok(fits)
    }

    /// Updates the controller after connection `number` put the frames `outs`: marks the channels
    /// that the frames take into use or release, and counts the handovers that they begin.
    pub(crate) fn follow(&mut self, number: u32, outs: &[Out])
        ensures { (messages : List Message) → AllByRecursion IsSound messages →
            outs.now ≡ outs_of number messages →
            self.new ≡ following number messages self.old }
    {
        self.channels.follow(number, outs);
        let begun = handovers_begun(outs);
        self.handovers = self.handovers.wrapping_add((begun % 256) as u8);
    }
}
