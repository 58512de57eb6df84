// SPDX-License-Identifier: MIT OR Apache-2.0
ghost use Rattle.std.specs.Prelude.{◌≡◌, [], IfOk};
ghost use Rattle.std.specs.Option.{is_some};
ghost use Rattle.dtap_codec.specs.Number.{count_of};
ghost use Rattle.run_judge.specs.Apart.{apart, begun_apart, beginnings, gives_again};
ghost use Rattle.run_judge.specs.Apart.{has_begun_twice, is_unjudged_for_two, pair_in, pair_of};
ghost use Rattle.run_judge.specs.Apart.{waits_on, with_opening};
ghost use Rattle.run_judge.specs.Judging.{is_unconfirmed};
ghost use Rattle.run_judge.specs.JudgeState.{shown};

use crate::channels::{ChannelView, Channels};
use crate::judge::Judge;
use crate::{Reason, Said, StationChannel, Unjudged};
use octets::Memory;

/// Two channels on which mobiles sent the same initial message.
#[derive(Clone, Copy)]
pub struct Pair {
    pub one: StationChannel,
    pub other: StationChannel,
}

impl Pair {
    /// The same channels in reverse order.
    pub fn turned(self) -> Pair
        ensures { result ≡ pair_of self.other self.one }
    {
        Pair {
            one: self.other,
            other: self.one,
        }
    }
}

// The channels as a pair; `None` unless there are exactly two channels.
fn pair_in(channels: &[StationChannel]) -> Option<Pair>
    ensures { result ≡ pair_in channels.now }
{
    match channels {
        [one, other] => Some(Pair {
            one: *one,
            other: *other,
        }),
        _ => None,
    }
}

fn is_unjudged_for_two(unjudged: Option<Unjudged>) -> bool
    ensures { result ≡ is_unjudged_for_two unjudged }
{
    match unjudged {
        Some(
            Unjudged {
                reason: Reason::TwoBeginnings,
                ..
            },
        ) => true,
        _ => false,
    }
}

impl Judge {
    /// The number of CRs that asked for a connection; it saturates.
    pub fn begun(&self) -> u64
        ensures { result ≡ (shown self.now).begun }
    {
        self.begun
    }

    // Whether the connection with the controller's reference `source` isn't judged because of
    // `Reason::TwoBeginnings`.
    #[tactic(auto, unfolding(crate::specs::JudgeState::entries_at))]
    fn has_begun_twice(&self, source: u32) -> bool
        ensures { result ≡ has_begun_twice ((shown self.now).connections source) }
    {
        match self.connections.get(&source) {
            Some(connection) => is_unjudged_for_two(connection.unjudged),
            None => false,
        }
    }

    /// The two channels on which the connection with the controller's reference `source` may have
    /// begun. Mobiles sent `message`, the initial message of the connection's CR, on both channels.
    /// `None` unless exactly two channels have the message, and the connection isn't judged because
    /// of `Reason::TwoBeginnings`. Fails only if an allocation fails.
    pub fn beginnings(&self, source: u32, message: &[u8]) -> Result<Option<Pair>, Memory>
        ensures { IfOk result (λ pair. pair ≡ beginnings source message.now (shown self.now)) }
    {
        if !self.has_begun_twice(source) {
            return Ok(None);
        }
        let opened = self.channels.opened(message)?;
        Ok(pair_in(opened.as_slice()))
    }

    /// Whether a mobile sent the initial message `message` on the channel `at`, and no CR for it
    /// was sent yet.
    pub fn waits_on(&self, at: StationChannel, message: &[u8]) -> bool
        ensures { result ≡ waits_on at message.now (shown self.now) }
    {
        match self.channels.view(at) {
            Some(view) => view.is_opened_by(message),
            None => false,
        }
    }

    /// Whether `said` is a CC for an open connection that has no switch's reference yet, and gives
    /// a reference that is in use. A reference is in use until its connection ends, or for good if
    /// the switch gave it to two connections at once.
    pub fn gives_again(&self, said: &Said) -> bool
        ensures { result ≡ gives_again said.now (shown self.now) }
    {
        match said {
            Said::Confirms {
                destination,
                source,
            } => self.is_unconfirmed(*destination) && self.has_given(*source),
            _ => false,
        }
    }

    #[tactic(auto, unfolding(crate::specs::JudgeState::entries_at))]
    fn is_unconfirmed(&self, reference: u32) -> bool
        ensures { result ≡ is_unconfirmed ((shown self.now).connections reference) }
    {
        match self.connections.get(&reference) {
            Some(connection) => connection.switch.is_none(),
            None => false,
        }
    }

    // Whether the switch's reference `source` is in use.
    #[tactic(auto, unfolding(crate::specs::JudgeState::entries_at))]
    fn has_given(&self, source: u32) -> bool
        ensures { result ≡ is_some ((shown self.now).by_switch source) }
    {
        self.by_switch.get(&source).is_some()
    }

    // The openings of the two channels of `pair`. Nothing is known of other channels.
    fn channels_of(&self, pair: Pair) -> Result<Channels, Memory>
        ensures { IfOk result (λ channels. channels ≡ with_opening pair.other (shown self.now)
            (with_opening pair.one (shown self.now) [])) }
    {
        let one = self.channels.copy_opening(pair.one)?;
        let other = self.channels.copy_opening(pair.other)?;
        let mut channels = Channels::new(self.alloc);
        channels.set(pair.one, ChannelView::Opened(one))?;
        channels.set(pair.other, ChannelView::Opened(other))?;
        Ok(channels)
    }

    // A judge that knows only the cells, the number of CRs and the openings of the two channels.
    fn apart(&self, pair: Pair) -> Result<Judge, Memory>
        ensures { IfOk result (λ judge. shown judge ≡ apart pair.one pair.other (shown self.now)) }
    {
        let channels = self.channels_of(pair)?;
        let cells = Vec::from_slice(self.alloc, self.cells.as_slice())?;
        let mut judge = Judge::new(self.alloc, self.modulus, cells);
        judge.begun = self.begun;
        judge.channels = channels;
        Ok(judge)
    }

    /// A judge that knows only the cells, the number of CRs and what came on the two channels of
    /// `pair`. In this judge, the CR in the frame `frame` with the reference `source` began the
    /// connection of the mobile on `pair.one`. Fails only if an allocation fails.
    pub fn begin_apart(&self, pair: Pair, source: u32, frame: u64) -> Result<Judge, Memory>
        ensures { IfOk result (λ judge. shown judge
            ≡ begun_apart pair.one pair.other source frame (shown self.now)) }
    {
        let mut judge = self.apart(pair)?;
        judge.begin_at(pair.one, source, frame)?;
        Ok(judge)
    }
}
