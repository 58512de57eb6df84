// SPDX-License-Identifier: MIT OR Apache-2.0
ghost use Rattle.std.specs.Prelude.{◌≡◌, ◌≤◌, IfErr, OnOk};
ghost use Rattle.controller_model.specs.Controller.{with_down};
ghost use Rattle.controller_model.specs.Life as words;
ghost use Rattle.controller.specs.Doing.{Turns, UnchangedOnErr};
ghost use Rattle.controller.specs.Wanting.{IsDue};
ghost use Rattle.controller.specs.declared.many.Cause.TheVariants.{Break};

use crate::controller::Controller;
use crate::many::Cause;
use conn_fsm::Outputs;
use conn_messages::SWITCH_LINK;
use conn_rules::Input;
use octets::Memory;

impl Controller {
    /// Takes the break of link `source`. Each connection gets the break as an input, in the order
    /// of their numbers. Then, if it is a station's link, all channels of this station are free. If
    /// memory runs out, returns `Memory` and changes nothing.
    pub(crate) fn on_break(&mut self, source: u16, outputs: &mut Outputs) -> Result<(), Memory>
        ensures ok { OnOk result (Turns (words.on_break source self.old)
            self.old self.new outputs.old.outs outputs.new.outs) }
        ensures err { UnchangedOnErr result self.old self.new outputs.old.outs outputs.new.outs }
        ensures memory { IfErr result (λ _. IsDue (Break source) self.old) }
    {
        let planned = self.plan_with_room(&Cause::Break(source), outputs)?;
        self.take_down(source);
        self.carry_out(planned, outputs);
        if source != SWITCH_LINK {
            self.channels.free_station(source);
        }
        Ok(())
    }

    fn take_down(&mut self, source: u16)
        ensures { self.new ≡ with_down source self.old }
    {
        if let Some(up) = self.links.get_mut(usize::from(source)) {
            *up = false;
        }
    }
}

/// The input that each connection gets if link `source` breaks.
pub(crate) fn break_of(source: u16) -> Input
    ensures { result ≡ words.break_of source }
{
    if source == SWITCH_LINK {
        Input::SwitchDown
    } else {
        Input::StationDown { station: source }
    }
}
