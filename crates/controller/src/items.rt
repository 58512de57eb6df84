// SPDX-License-Identifier: MIT OR Apache-2.0
ghost use Rattle.std.specs.Prelude.{◌≡◌, ◌++◌, ◌∷◌, [], OnOk, OnErr, IfErr};
ghost use Rattle.controller_model.specs.Life as words;
ghost use Rattle.controller_model.specs.Reading.{word_of};
ghost use Rattle.controller.specs.Doing.{Turns, UnchangedOnErr};
ghost use Rattle.controller.specs.Wanting.{MayWantFrame, MayWantMemory, MayWantWord};
ghost use Rattle.controller_model.specs.declared.step.Step.TheVariants.{Take};
ghost use Rattle.controller_parts.specs.Words.{IsFromSource, IsCarriedWord};

use crate::controller::Controller;
use conn_fsm::Outputs;
use conn_messages::Out;
use controller_model::Word;
use controller_parts::read_word;
use ipa_framing::{CCM_STREAM, Frame, PONG};
use octets::{Memory, Octets};
use ruled_relay::{Item, What};
use std::alloc::Global;

impl Controller {
    /// Takes an item, which is a frame of a link or the end of a link, and appends the frames that
    /// the controller puts to `outputs`. Ignores an item of a link that is down or doesn't exist.
    /// Never returns an error because of a frame's octets. If memory runs out, hands the item back
    /// and changes nothing.
    pub fn step(&mut self, item: Item, outputs: &mut Outputs) -> Result<(), Item>
        ensures ok { OnOk result (Turns (words.take item self.old)
            self.old self.new outputs.old.outs outputs.new.outs) }
        ensures err { UnchangedOnErr result self.old self.new outputs.old.outs outputs.new.outs }
        ensures back { IfErr result (λ refused. refused ≡ item) }
        // Memory can run out only if the item may need memory (`MayWantMemory`).
        ensures memory { IfErr result (λ _. MayWantMemory (Take item) self.old) }
    {
        match self.take(&item, outputs) {
            Ok(()) => Ok(()),
            Err(Memory) => Err(item),
        }
    }

    /// Like `step`, but borrows the item. If memory runs out, returns `Memory` and changes nothing.
    #[tactic(auto, unfolding(controller_model::specs::Life::take), using(crate::proofs::Wanting::wants))]
    pub(crate) fn take(&mut self, item: &Item, outputs: &mut Outputs) -> Result<(), Memory>
        ensures ok { OnOk result (Turns (words.take item.now self.old)
            self.old self.new outputs.old.outs outputs.new.outs) }
        ensures err { UnchangedOnErr result self.old self.new outputs.old.outs outputs.new.outs }
        ensures memory { IfErr result (λ _. MayWantMemory (Take item.now) self.old) }
    {
        if !self.is_up(item.source) {
            self.ignore();
            return Ok(());
        }
        match &item.what {
            What::Frame(frame) => self.on_frame(item.source, frame, outputs),
            What::Down => self.on_break(item.source, outputs),
        }
    }

    #[tactic(auto, using(crate::proofs::Wanting::read_wants, crate::proofs::Wanting::word_wants))]
    fn on_frame(&mut self, source: u16, frame: &Frame, outputs: &mut Outputs) -> Result<(), Memory>
        ensures ok { OnOk result (Turns (words.on_word source (word_of source frame.now) self.old)
            self.old self.new outputs.old.outs outputs.new.outs) }
        ensures err { UnchangedOnErr result self.old self.new outputs.old.outs outputs.new.outs }
        ensures memory { IfErr result (λ _. MayWantFrame source frame.now) }
    {
        let word = read_word(self.alloc, source, frame)?;
        self.on_word(source, word, outputs)
    }

    #[tactic(auto, using(crate::proofs::Wanting::pings))]
    fn on_word(&mut self, source: u16, word: Word, outputs: &mut Outputs) -> Result<(), Memory>
        requires carried { IsCarriedWord word }
        requires comes { IsFromSource source word }
        ensures ok { OnOk result (Turns (words.on_word source word self.old)
            self.old self.new outputs.old.outs outputs.new.outs) }
        ensures err { UnchangedOnErr result self.old self.new outputs.old.outs outputs.new.outs }
        ensures memory { IfErr result (λ _. MayWantWord source word self.old) }
    {
        match word {
            Word::Nothing => {
                self.ignore();
                Ok(())
            }
            Word::Ping => put_pong(self.alloc, source, outputs),
            Word::Asks(request, delay) => self.on_request(source, request, delay, outputs),
            Word::OnChannel(at, input) => self.on_channel(&at, input, outputs),
            Word::Reports(at, number, report) => self.on_report(&at, number, &report, outputs),
            Word::OnConnection(number, input) => self.concern(number, input, outputs),
        }
    }
}

// Appends PONG for link `source`, the answer to PING. If memory runs out, returns `Memory` and
// appends nothing.
fn put_pong(alloc: Global, source: u16, outputs: &mut Outputs) -> Result<(), Memory>
    ensures ok { OnOk result (outputs.new.outs ≡ outputs.old.outs ++ words.pong source ∷ []) }
    ensures err { OnErr result (outputs.new.outs ≡ outputs.old.outs) }
{
    let body = Octets::copy(alloc, &[PONG])?;
    outputs.push(Out {
        to: source,
        conn: 0,
        frame: Frame {
            stream: CCM_STREAM,
            body,
        },
    })
}
