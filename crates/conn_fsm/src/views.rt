// SPDX-License-Identifier: MIT OR Apache-2.0
ghost use Rattle.std.specs.Prelude.{◌≡◌, ◌≤◌, ◌++◌, length, IfOk, OnOk};
ghost use Rattle.conn_rules.specs.Validity.{IsValid};
ghost use Rattle.hold_queue.specs.ChainState.{messages_in};
ghost use Rattle.hold_queue.specs.HoldState.{messages};
ghost use Rattle.conn_fsm.specs.Doing.{WantsForHeld};
ghost use Rattle.conn_fsm.specs.Views.{awaits_switch, joined};

use crate::machine::Machine;
use conn_rules::{DOWN_LIMIT, State, UP_LIMIT};
use dtap_codec::Sapi;
use hold_queue::TENURE_LIMIT;
use octets::{Memory, Octets};

impl Machine {
    /// A copy of the switch's messages of `sapi` that are held, in order.
    pub(crate) fn held(&self, sapi: Sapi) -> Result<Vec<Octets>, Memory>
        requires { IsValid self.now }
        ensures list { IfOk result (λ list. list.items ≡ messages self.now.down sapi) }
        ensures memory { WantsForHeld result (messages self.now.down sapi) }
    {
        let mut list = Vec::new(self.alloc);
        self.copy_held(sapi, &mut list)?;
        Ok(list)
    }

    // Appends a copy of the switch's messages of `sapi` that are held.
    #[tactic(auto, using(crate::proofs::Pushing::all_taken, crate::proofs::Pushing::taken_there))]
    fn copy_held(&self, sapi: Sapi, list: &mut Vec<Octets>) -> Result<(), Memory>
        requires { length (messages self.now.down sapi) ≤ DOWN_LIMIT }
        ensures list { OnOk result
            (list.new.items ≡ list.old.items ++ messages self.now.down sapi) }
        ensures memory { WantsForHeld result (messages self.now.down sapi) }
    {
        for place in 0..DOWN_LIMIT {
            let Some(message) = self.down.get(sapi, place) else {
                break;
            };
            list.push(Octets::copy(self.alloc, message)?)?;
        }
        Ok(())
    }

    /// A copy of the mobile's messages of `sapi` that are held, the oldest tenure first.
    #[tactic(auto, using(crate::proofs::Pushing::few_in))]
    pub(crate) fn held_up(&self, sapi: Sapi) -> Result<Vec<Octets>, Memory>
        requires { IsValid self.now }
        ensures list { IfOk result (λ list. list.items ≡ joined sapi self.now.up.tenures) }
        ensures memory { WantsForHeld result (joined sapi self.now.up.tenures) }
    {
        let mut list = Vec::new(self.alloc);
        for tenure in 0..TENURE_LIMIT {
            self.copy_tenure(tenure, sapi, &mut list)?;
        }
        Ok(list)
    }

    // Appends a copy of the messages of `sapi` that are held in a tenure.
    #[tactic(auto, using(crate::proofs::Pushing::all_taken, crate::proofs::Pushing::taken_there))]
    fn copy_tenure(&self, tenure: usize, sapi: Sapi, list: &mut Vec<Octets>) -> Result<(), Memory>
        requires { length (messages_in tenure sapi self.now.up.tenures) ≤ UP_LIMIT }
        ensures list { OnOk result (list.new.items ≡ list.old.items
            ++ messages_in tenure sapi self.now.up.tenures) }
        ensures memory { WantsForHeld result (messages_in tenure sapi self.now.up.tenures) }
    {
        for place in 0..UP_LIMIT {
            let Some(message) = self.up.get(tenure, sapi, place) else {
                break;
            };
            list.push(Octets::copy(self.alloc, message)?)?;
        }
        Ok(())
    }

    /// The number of the switch's messages of `sapi` that are held.
    #[tactic(auto, using(crate::proofs::Counting::none_held))]
    pub(crate) fn held_count(&self, sapi: Sapi) -> usize
        requires { IsValid self.now }
        ensures { result ≡ length (messages self.now.down sapi) }
    {
        if self.down.is_empty() {
            return 0;
        }
        self.count_held(sapi)
    }

    // Counts the switch's messages of `sapi` that are held, one by one.
    #[tactic(auto, using(crate::proofs::Counting::counting))]
    fn count_held(&self, sapi: Sapi) -> usize
        requires { length (messages self.now.down sapi) ≤ DOWN_LIMIT }
        ensures { result ≡ length (messages self.now.down sapi) }
    {
        for place in 0..DOWN_LIMIT {
            let Some(_) = self.down.get(sapi, place) else {
                return place;
            };
        }
        DOWN_LIMIT
    }

    /// The number of the mobile's messages of `sapi` that are held in all tenures. If there is no
    /// old channel, messages can be held only while the switch hasn't answered.
    #[tactic(auto, using(crate::proofs::Counting::none_up))]
    pub(crate) fn held_up_count(&self, sapi: Sapi) -> usize
        requires { IsValid self.now }
        ensures { result ≡ length (joined sapi self.now.up.tenures) }
    {
        if self.draining.is_empty() && !self.awaits_switch() {
            return 0;
        }
        self.count_tenures(sapi)
    }

    // Whether the switch was asked for a connection and hasn't answered.
    fn awaits_switch(&self) -> bool
        ensures { result ≡ awaits_switch self.now.state }
    {
        matches!(self.state, State::WaitConfirm)
    }

    // Counts the mobile's messages of `sapi` that are held, tenure by tenure.
    #[tactic(auto, using(crate::proofs::Counting::tenures_counting))]
    fn count_tenures(&self, sapi: Sapi) -> usize
        requires { IsValid self.now }
        ensures { result ≡ length (joined sapi self.now.up.tenures) }
    {
        let mut count = 0;
        for tenure in 0..TENURE_LIMIT {
            count += self.count_tenure(tenure, sapi);
        }
        count
    }

    // Counts the messages of `sapi` that are held in a tenure.
    #[tactic(auto, using(crate::proofs::Counting::counting))]
    fn count_tenure(&self, tenure: usize, sapi: Sapi) -> usize
        requires { length (messages_in tenure sapi self.now.up.tenures) ≤ UP_LIMIT }
        ensures { result ≡ length (messages_in tenure sapi self.now.up.tenures) }
    {
        for place in 0..UP_LIMIT {
            let Some(_) = self.up.get(tenure, sapi, place) else {
                return place;
            };
        }
        UP_LIMIT
    }
}
