// SPDX-License-Identifier: MIT OR Apache-2.0
ghost use Rattle.std.specs.Prelude.{◌≡◌, ◌+◌, ◌∷◌, [], MatchResult};
ghost use Rattle.link_workers.specs.declared.fault.IoFault.TheVariants.{GateShut};
ghost use Rattle.link_workers.specs.Gates.{HasLet, LetsEach};
ghost use Rattle.link_workers.specs.Reading.{PutsGated, having_put};

use crate::pauses::Pauses;
use crate::{Gate, IoFault};
use ruled_relay::{Item, PutFault, SourcePass, What};
use std::sync::Wait;

/// A frame is long if its body has more octets than this. No message that is relayed has so many
/// octets.
const LONG_BODY: usize = 320;

/// A long frame is put only if fewer items than this wait in the queue of its source. This limit
/// keeps the waiting items below a megabyte, whatever a link gives.
const FEW_WAIT: usize = 128;

/// A pass with a gate that is asked before each item.
#[derive(Drop)]
pub(crate) struct GatedPass<G> {
    pub gate: G,
    pub pass: SourcePass,
    /// The source of the items, passed to the gate.
    pub source: u16,
    /// How often the gate may refuse one item.
    pub limit: u32,
}

impl<G: Gate> GatedPass<G> {
    /// Puts an item once the gate has let the item through and the queue has room. If the gate
    /// refused the item `limit` times, returns `GateShut` and puts nothing.
    pub fn put<R: Wait>(&mut self, rt: &R, what: What) -> Result<(), IoFault>
        ensures puts { PutsGated self.old.limit
            (G.refused self.old.gate) (G.refused self.new.gate)
            self.old.pass what self.new.pass result }
        ensures each { LetsEach (G.passed self.old.gate) (G.passed self.new.gate)
            self.old.pass self.new.pass }
        ensures same { self.new.limit ≡ self.old.limit }
    {
        self.ask(rt)?;
        put_once_there_is_room(rt, &mut self.pass, what);
        Ok(())
    }

    /// Asks the gate until the gate lets the next item through. Returns `GateShut` if the gate
    /// refused `limit` times.
    #[tactic(auto, using(crate::proofs::Letting::asking))]
    pub fn ask<R: Wait>(&mut self, rt: &R) -> Result<(), IoFault>
        ensures asks { MatchResult result (λ _. G.refused self.new.gate ≡ 0) (λ fault.
            (fault ≡ GateShut)
            × (G.refused self.new.gate ≡ G.refused self.old.gate + self.old.limit)) }
        ensures passed { MatchResult result
            (λ _. HasLet (G.passed self.old.gate) (G.passed self.new.gate) 1)
            (λ _. HasLet (G.passed self.old.gate) (G.passed self.new.gate) 0) }
        ensures same { (self.new.limit ≡ self.old.limit) × (self.new.pass ≡ self.old.pass) }
    {
        let mut pauses = Pauses::new();
        for _ in 0..self.limit {
            if self.gate.pass(self.source) {
                return Ok(());
            }
            pauses.pause(rt);
        }
        Err(IoFault::GateShut)
    }
}

/// Puts an item once the queue has room. A long frame also waits until fewer than `FEW_WAIT` items
/// are in the queue.
pub(crate) fn put_once_there_is_room<R: Wait>(rt: &R, pass: &mut SourcePass, what: What)
    ensures { pass.new ≡ having_put pass.old (what ∷ []) }
{
    let long = is_long(&what);
    let mut item = Item {
        source: pass.source(),
        what,
    };
    let mut pauses = Pauses::new();
    for _ in rt.forever() {
        if !long || pass.waiting(rt) < FEW_WAIT {
            match pass.put(rt, item) {
                Ok(()) => return,
                Err(PutFault::Full(back)) => item = back,
                Err(PutFault::Foreign(_)) => unreachable!(),
            }
        }
        pass.ring();
        pauses.pause(rt);
    }
    unreachable!()
}

fn is_long(what: &What) -> bool {
    match what {
        What::Frame(frame) => frame.body.len() > LONG_BODY,
        What::Down => false,
    }
}
