// SPDX-License-Identifier: MIT OR Apache-2.0
ghost use Rattle.std.specs.Prelude.{◌≡◌, ◌≤◌, ℕ, List, fold, count_by};
ghost use Rattle.std.specs.List.{AllByRecursion};
ghost use Rattle.conn_messages.specs.declared.message.Message.{Message};
ghost use Rattle.conn_messages.specs.ChannelUse.{use_by};
ghost use Rattle.conn_messages.specs.Out.{IsLawfulMessage, outs_of};
ghost use Rattle.controller_model.specs.Controller.{after_use, channels_after};
ghost use Rattle.controller_model.specs.Life as words;
ghost use Rattle.controller_parts.specs.Following.{channels_by, handovers_by};

use crate::Channels;
use conn_messages::{ChannelUse, Out, channel_use};
use controller_model::ChannelState;
use rsl_codec::ASYNCHRONOUS_HANDOVER;

impl Channels {
    /// Updates the channels by `outs`, the frames that the connection with the number `number` put.
    /// A channel that a frame activates is in use by the connection; a channel that a frame
    /// releases is releasing.
    #[tactic(auto, using(crate::proofs::Follows::channels_follow))]
    pub fn follow(&mut self, number: u32, outs: &[Out])
        ensures { (messages : List Message) → AllByRecursion IsLawfulMessage messages →
            outs.now ≡ outs_of number messages →
            self.new ≡ fold (channels_after number) self.old messages }
    {
        self.follow_each(number, outs);
    }

    fn follow_each(&mut self, number: u32, outs: &[Out])
        ensures { self.new ≡ channels_by number self.old outs.now }
    {
        for out in outs {
            self.follow_use(number, channel_use(out));
        }
    }

    fn follow_use(&mut self, number: u32, used: ChannelUse)
        ensures { self.new ≡ after_use number self.old used }
    {
        match used {
            ChannelUse::Activated(at, _) => self.set(at, ChannelState::InUse(number)),
            ChannelUse::Released(at) => self.set(at, ChannelState::Releasing(number)),
            ChannelUse::Unchanged => {}
        }
    }
}

/// The number of handovers that the frames of a connection begin: one for each frame that activates
/// a channel for a handover.
#[tactic(auto, using(crate::proofs::Follows::handovers_follow))]
pub fn handovers_begun(outs: &[Out]) -> usize
    ensures { (number : ℕ) (messages : List Message) →
        AllByRecursion IsLawfulMessage messages → outs.now ≡ outs_of number messages →
        result ≡ count_by (λ m. words.begins_handover (use_by m)) messages }
{
    count_handovers(outs)
}

fn count_handovers(outs: &[Out]) -> usize
    ensures { result ≡ handovers_by outs.now }
{
    outs.iter()
        .filter(|out| begins_handover(channel_use(out)))
        .count()
}

fn begins_handover(used: ChannelUse) -> bool
    ensures { result ≡ words.begins_handover used }
{
    match used {
        ChannelUse::Activated(_, why) => why.0 == ASYNCHRONOUS_HANDOVER.0,
        _ => false,
    }
}
